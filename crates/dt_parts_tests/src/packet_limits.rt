//! What is refused: each octet of a packet at each value, each length, and the limits of each field.
ghost use Rattle.std.specs.Prelude.{◌<◌};

use crate::octets::{FRAME, RENDEZVOUS, fault_of, read_whole};
use crate::rows::holds_at;
use dt_layout::{Deltagram, LayoutFault, Packet, read_packet};

/// A number that stands in so many octets before the place `end`, with the octet at `i` set to `v`
/// if it is one of them.
fn with_octet(number: u32, width: usize, end: usize, i: usize, v: u8) -> u32 {
    let mut octets = number.to_be_bytes();
    if width <= 4 && i < end && end - i <= width {
        octets[4 - (end - i)] = v;
    }
    u32::from_be_bytes(octets)
}

/// What refuses the frame with octet `i` set to another value `v`.
fn refusal(i: usize, v: u8) -> Option<LayoutFault> {
    let value = u32::from(v);
    match i {
        0 if v == 2 => Some(LayoutFault::Size { len: 5 }),
        0 => Some(LayoutFault::Version { octet: v }),
        1 => Some(LayoutFault::Protocol { octet: v }),
        2 => Some(LayoutFault::Length {
            told: 256 * usize::from(v) + 19,
            there: 19,
        }),
        3 => Some(LayoutFault::Length {
            told: usize::from(v),
            there: 19,
        }),
        16 if v == 2 || v == 3 => Some(LayoutFault::Flags { octet: 7 }),
        16 => Some(LayoutFault::Kind { octet: v }),
        17 if v > 7 => Some(LayoutFault::Flags { octet: v }),
        26 => Some(LayoutFault::Window { value: value << 24 }),
        27 => Some(LayoutFault::Window { value: value << 16 }),
        28 => Some(LayoutFault::Window { value: value << 8 }),
        29 => Some(LayoutFault::Window { value }),
        _ => None,
    }
}

/// The packet of the frame with octet `i` set to another value `v` that isn't refused.
fn packet_with(i: usize, v: u8, octets: &[u8]) -> Packet<'_> {
    let flags = with_octet(7, 1, 18, i, v);
    Packet::Data {
        from_port: (with_octet(10, 2, 20, i, v) & 0xffff) as u16,
        to_port: (with_octet(20, 2, 22, i, v) & 0xffff) as u16,
        number: with_octet(0, 4, 26, i, v),
        drf: flags % 2 == 1,
        begin: flags / 2 % 2 == 1,
        end: flags / 4 % 2 == 1,
        octets,
    }
}

/// What reading the frame gives with octet `i` set to another value `v`, as in `bytes`.
fn wanted(i: usize, v: u8, bytes: &[u8; 35]) -> Result<(Deltagram<'_>, Packet<'_>), LayoutFault> {
    if let Some(fault) = refusal(i, v) {
        return Err(fault);
    }
    let d = Deltagram {
        version: 1,
        protocol: 1,
        life: with_octet(999, 4, 8, i, v),
        from: with_octet(1, 4, 12, i, v),
        to: with_octet(2, 4, 16, i, v),
        body: &bytes[16..],
    };
    Ok((d, packet_with(i, v, &bytes[30..])))
}

/// Whether the frame with octet `i` set to the value `v` is read as wanted, if that is another value.
fn is_read_at(i: usize, v: u8) -> bool
    requires { i < 35 }
{
    let mut bytes = FRAME;
    bytes[i] = v;
    bytes == FRAME || read_whole(&bytes) == wanted(i, v, &bytes)
}

#[test]
fn each_octet_at_each_value(rt: HostRuntime) {
    for i in 0..35 {
        for v in 0..=255 {
            holds_at(&rt, is_read_at(i, v), i, usize::from(v));
        }
    }
}

/// What refuses the first octets of the frame.
fn length_fault(count: usize) -> LayoutFault {
    if count < 16 {
        LayoutFault::Short { len: count }
    } else {
        LayoutFault::Length {
            told: 19,
            there: count - 16,
        }
    }
}

/// Whether octets of this length are refused for it.
fn has_length_fault(octets: &[u8]) -> bool {
    fault_of(octets) == Some(length_fault(octets.len()))
}

#[test]
fn each_length(rt: HostRuntime) {
    for n in 0..35 {
        holds_at(&rt, has_length_fault(&FRAME[..n]), n, 35);
    }
}

#[test]
fn an_octet_too_many(rt: HostRuntime) {
    let mut longer = [0; 36];
    longer[..35].copy_from_slice(&FRAME);
    assert!(rt; has_length_fault(&longer));
}

#[test]
fn no_life_is_left(rt: HostRuntime) {
    let mut dead = FRAME;
    dead[6] = 0;
    dead[7] = 0;
    assert!(rt; fault_of(&dead) == Some(LayoutFault::Dead));
}

/// A version, a count of octets of data, and what refuses the Deltagram or else its packet.
static DATA: [(u8, u16, Option<LayoutFault>); 11] = [
    (1, 0, Some(LayoutFault::Size { len: 0 })),
    (1, 1, None),
    (1, 1_024, None),
    (
        1,
        1_025,
        Some(LayoutFault::Length {
            told: 1_039,
            there: 1_039,
        }),
    ),
    (
        1,
        8_192,
        Some(LayoutFault::Length {
            told: 8_206,
            there: 8_206,
        }),
    ),
    (2, 0, Some(LayoutFault::Size { len: 0 })),
    (2, 1, Some(LayoutFault::Size { len: 1 })),
    (2, 1_024, Some(LayoutFault::Size { len: 1_024 })),
    (2, 1_025, None),
    (2, 8_192, None),
    (
        2,
        8_193,
        Some(LayoutFault::Length {
            told: 8_207,
            there: 8_207,
        }),
    ),
];

/// Writes what stands before so many octets of data in a version.
fn begin_data(octets: &mut [u8; 8_223], version: u8, count: u16) {
    octets[0] = version;
    octets[1] = 1;
    octets[2..4].copy_from_slice(&count.saturating_add(14).to_be_bytes());
    octets[7] = 1;
    octets[16] = 1;
}

/// Whether this refuses so many octets of data in a version.
fn is_data_refused(version: u8, count: u16, fault: Option<LayoutFault>) -> bool {
    let mut octets = [0; 8_223];
    begin_data(&mut octets, version, count);
    match octets.get(..30 + usize::from(count)) {
        Some(bytes) => fault_of(bytes) == fault,
        None => false,
    }
}

#[test]
fn the_limits_of_data(rt: HostRuntime) {
    for (version, count, fault) in &DATA {
        let is = is_data_refused(*version, *count, *fault);
        holds_at(&rt, is, usize::from(*count), usize::from(*version));
    }
}

/// A version, the length of a body that begins as data, and what refuses it. A Deltagram may be made
/// by hand, of any version and with a body of any length.
static BODIES: [(u8, usize, Option<LayoutFault>); 8] = [
    (1, 13, Some(LayoutFault::Short { len: 13 })),
    (1, 1_038, None),
    (1, 1_039, Some(LayoutFault::Size { len: 1_025 })),
    (2, 1_038, Some(LayoutFault::Size { len: 1_024 })),
    (2, 1_039, None),
    (2, 8_206, None),
    (2, 8_207, Some(LayoutFault::Size { len: 8_193 })),
    (3, 15, Some(LayoutFault::Kind { octet: 1 })),
];

/// What refuses a body in a version.
fn body_fault(version: u8, body: &[u8]) -> Option<LayoutFault> {
    let d = Deltagram {
        version,
        protocol: 1,
        life: 1,
        from: 1,
        to: 2,
        body,
    };
    read_packet(&d).err()
}

/// Whether this refuses a body of so many octets in a version.
fn is_body_refused(version: u8, len: usize, fault: Option<LayoutFault>) -> bool {
    let mut octets = [0; 8_207];
    octets[0] = 1;
    match octets.get(..len) {
        Some(body) => body_fault(version, body) == fault,
        None => false,
    }
}

#[test]
fn the_limits_of_a_packet(rt: HostRuntime) {
    for (version, len, fault) in &BODIES {
        let is = is_body_refused(*version, *len, *fault);
        holds_at(&rt, is, *len, usize::from(*version));
    }
}

/// What refuses a rendezvous that is of another kind or version.
fn kind_fault(version: u8, kind: u8) -> Option<LayoutFault> {
    match (version, kind) {
        (_, 1) => Some(LayoutFault::Size { len: 0 }),
        (1, 2 | 3) | (2, 4) => None,
        _ => Some(LayoutFault::Kind { octet: kind }),
    }
}

/// Whether a rendezvous of such a kind in a version is read as wanted.
fn is_kind_read(version: u8, kind: u8) -> bool {
    let mut bytes = RENDEZVOUS;
    bytes[0] = version;
    bytes[16] = kind;
    fault_of(&bytes) == kind_fault(version, kind)
}

#[test]
fn each_kind(rt: HostRuntime) {
    for kind in 0..=255 {
        holds_at(&rt, is_kind_read(1, kind), usize::from(kind), 1);
        holds_at(&rt, is_kind_read(2, kind), usize::from(kind), 2);
    }
}
