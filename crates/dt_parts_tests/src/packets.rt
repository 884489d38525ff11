//! Packets of each kind are written and read.
ghost use Rattle.dt_layout.specs.Spelling.{KeepsRules, packet_of};

use crate::octets::{
    ACKNOWLEDGEMENT, CLOSING, FIRST, FRAME, RENDEZVOUS, SECOND, TOO_WIDE, WIDEST, fault_of,
    read_whole,
};
use dt_layout::{DataHead, Frame, LayoutFault, Packet, write_frame};

/// Whether these octets, all before the data and the data, read as the packet.
fn are_read(bytes: &[u8], packet: &Packet<'_>) -> bool {
    match read_whole(bytes) {
        Ok((_, read)) => read == *packet,
        Err(_) => false,
    }
}

/// Whether a frame holds a head and then data, and no other octets.
fn holds(bytes: &[u8], head: &[u8], data: &[u8]) -> bool {
    bytes.starts_with(head) && bytes.get(head.len()..) == Some(data)
}

/// Whether the packet from a node to another, with a life of 999 ms, is written as a head and its data,
/// and read from them.
fn is_spelled(
    frame: &mut Frame,
    ends: (u32, u32),
    packet: &Packet<'_>,
    head: &[u8],
    data: &[u8],
) -> bool
    requires { KeepsRules (packet_of packet.now) }
{
    write_frame(frame, 999, ends.0, ends.1, packet);
    let bytes = frame.as_slice();
    holds(bytes, head, data) && are_read(bytes, packet)
}

/// Whether octets are read as a Deltagram of this version from node 1 to node 2, of protocol 1, with a life of
/// 999 ms.
fn has_head(bytes: &[u8], version: u8) -> bool {
    match read_whole(bytes) {
        Ok((d, _)) => (d.version, d.protocol) == (version, 1)
            && [d.life, d.from, d.to] == [999, 1, 2],
        Err(_) => false,
    }
}

/// The version that octets are read in, and the length of the body.
fn body_of(bytes: &[u8]) -> Option<(u8, usize)> {
    match read_whole(bytes) {
        Ok((d, _)) => Some((d.version, d.body.len())),
        Err(_) => None,
    }
}

/// Whether a frame that has no octets is written as the data packet.
fn is_data_spelled(frame: &mut Frame) -> bool {
    let packet = Packet::Data {
        from_port: 10,
        to_port: 20,
        number: 0,
        drf: true,
        begin: true,
        end: true,
        octets: b"hello",
    };
    frame.as_slice().is_empty() && is_spelled(frame, (1, 2), &packet, &FRAME, b"")
}

#[test]
fn data_is_written_and_read(rt: HostRuntime) {
    let is = is_data_spelled(&mut Frame::new());
    assert!(rt; is);
}

/// Whether the data packet is written as its head, and two pieces after it.
fn is_data_appended(frame: &mut Frame) -> bool {
    let head = DataHead {
        from_port: 10,
        to_port: 20,
        number: 0,
        drf: true,
        begin: true,
        end: true,
        count: 5,
    };
    head.write(frame, 999, 1, 2);
    frame.append(b"he");
    frame.append(b"llo");
    frame.as_slice() == FRAME.as_slice()
}

#[test]
fn data_in_pieces_comes_after_its_head(rt: HostRuntime) {
    let is = is_data_appended(&mut Frame::new());
    assert!(rt; is);
}

#[test]
fn an_acknowledgement_is_written_and_read(rt: HostRuntime) {
    let packet = Packet::Ack {
        from_port: 20,
        to_port: 10,
        number: 5,
        window: 4091,
    };
    assert!(rt; is_spelled(&mut Frame::new(), (2, 1), &packet, &ACKNOWLEDGEMENT, b""));
}

#[test]
fn a_rendezvous_is_written_and_read(rt: HostRuntime) {
    let packet = Packet::Meet {
        from_port: 10,
        to_port: 20,
        number: 2_147_483_648,
    };
    assert!(rt; is_spelled(&mut Frame::new(), (1, 2), &packet, &RENDEZVOUS, b""));
}

#[test]
fn a_closing_packet_is_written_and_read(rt: HostRuntime) {
    let packet = Packet::Close {
        from_port: 10,
        to_port: 20,
        number: 5,
    };
    assert!(rt; is_spelled(&mut Frame::new(), (1, 2), &packet, &CLOSING, b""));
}

#[test]
fn heads_are_read(rt: HostRuntime) {
    assert!(rt; has_head(&FRAME, 1));
    assert!(rt; has_head(&CLOSING, 2));
}

/// Whether the longest packet is written, and read as such.
fn is_longest_spelled(frame: &mut Frame) -> bool {
    let data = [97; 8_192];
    let packet = Packet::Data {
        from_port: 10,
        to_port: 20,
        number: 0,
        drf: true,
        begin: true,
        end: false,
        octets: &data,
    };
    is_spelled(frame, (1, 2), &packet, &FIRST, &data)
        && body_of(frame.as_slice()) == Some((2, 8_206))
}

#[test]
fn the_longest_packet_is_written_and_read(rt: HostRuntime) {
    let is = is_longest_spelled(&mut Frame::new());
    assert!(rt; is);
}

#[test]
fn a_packet_after_a_longer_one_is_written_and_read(rt: HostRuntime) {
    let data = [97; 1_808];
    let packet = Packet::Data {
        from_port: 10,
        to_port: 20,
        number: 8_192,
        drf: false,
        begin: false,
        end: true,
        octets: &data,
    };
    let mut frame = Frame::new();
    assert!(rt; frame.refill(&[97; 8_222]));
    assert!(rt; is_spelled(&mut frame, (1, 2), &packet, &SECOND, &data));
}

#[test]
fn the_widest_window_is_written_and_read(rt: HostRuntime) {
    let packet = Packet::Ack {
        from_port: 20,
        to_port: 10,
        number: 5,
        window: 65_536,
    };
    assert!(rt; is_spelled(&mut Frame::new(), (2, 1), &packet, &WIDEST, b""));
    let want = LayoutFault::Window { value: 65_537 };
    assert!(rt; fault_of(&TOO_WIDE) == Some(want));
}
