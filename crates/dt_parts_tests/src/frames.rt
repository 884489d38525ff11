//! What a frame does, and the texts of frames and faults.
use crate::octets::{LOWERED, RENDEZVOUS};
use crate::rows::holds;
use dt_layout::{Frame, LayoutFault, Packet, write_frame};
use std::alloc::Global;
use std::process::Abort;

/// Whether a frame can be made of these octets, and holds them.
fn is_held(octets: &[u8]) -> bool {
    match Frame::from_bytes(octets) {
        Some(frame) => frame.as_slice() == octets,
        None => false,
    }
}

#[test]
fn a_frame_has_room_for_the_longest(rt: HostRuntime) {
    let octets = [7; 8_223];
    assert!(rt; !is_held(&octets));
    assert!(rt; is_held(&octets[..8_222]));
}

/// Whether a refill of a frame answers so, and leaves these octets.
fn refills(frame: &mut Frame, octets: &[u8], answer: bool, after: &[u8]) -> bool {
    frame.refill(octets) == answer && frame.as_slice() == after
}

/// Whether a frame takes the longest octets, keeps them where there is one more, and takes a few.
fn is_refilled(frame: &mut Frame, octets: &[u8; 8_223]) -> bool {
    let longest = &octets[..8_222];
    refills(frame, longest, true, longest)
        && refills(frame, octets, false, longest)
        && refills(frame, &[1, 2], true, &[1, 2])
        && refills(frame, longest, true, longest)
}

#[test]
fn a_frame_is_refilled(rt: HostRuntime) {
    let is = is_refilled(&mut Frame::new(), &[7; 8_223]);
    assert!(rt; is);
}

fn clone_of(rt: &impl Abort, frame: &Frame) -> Frame {
    frame.clone().expect(rt, "memory")
}

/// Whether a frame is equal to a clone until it is refilled.
fn is_equal_at_first(frame: &mut Frame, clone: &Frame) -> bool {
    *frame == *clone && frame.refill(&[1, 2]) && *frame != *clone
}

#[test]
fn a_clone_is_equal(rt: HostRuntime) {
    let mut frame = Frame::new();
    assert!(rt; frame.refill(&[7; 8_222]));
    let clone = clone_of(&rt, &frame);
    let is = is_equal_at_first(&mut frame, &clone);
    assert!(rt; is);
}

/// Writes a rendezvous with a life of 999 ms, and lowers that. Answers a clone of what was written.
fn write_and_lower(rt: &impl Abort, frame: &mut Frame) -> Frame {
    let packet = Packet::Meet {
        from_port: 10,
        to_port: 20,
        number: 2_147_483_648,
    };
    write_frame(frame, 999, 1, 2, &packet);
    let written = clone_of(rt, frame);
    frame.lower(744);
    written
}

/// Whether a frame and the one that it was hold what they are to, and differ.
fn are_told_apart(frame: &Frame, written: &Frame) -> bool {
    frame.as_slice() == LOWERED.as_slice()
        && written.as_slice() == RENDEZVOUS.as_slice()
        && *frame != *written
}

#[test]
fn a_life_is_lowered(rt: HostRuntime) {
    let mut frame = Frame::new();
    let written = write_and_lower(&rt, &mut frame);
    let is = are_told_apart(&frame, &written);
    assert!(rt; is);
}

static TEXTS: [(LayoutFault, &str); 9] = [
    (LayoutFault::Short { len: 15 }, "short 15"),
    (LayoutFault::Version { octet: 3 }, "version 3"),
    (
        LayoutFault::Length {
            told: 19,
            there: 20,
        },
        "length 19 20",
    ),
    (LayoutFault::Dead, "dead"),
    (LayoutFault::Protocol { octet: 9 }, "protocol 9"),
    (LayoutFault::Kind { octet: 9 }, "kind 9"),
    (LayoutFault::Flags { octet: 15 }, "flags 15"),
    (LayoutFault::Window { value: 65_537 }, "window 65537"),
    (LayoutFault::Size { len: 0 }, "size 0"),
];

/// Whether a fault has this text.
fn is_written(alloc: Global, fault: &LayoutFault, text: &str) -> bool {
    match format!(in alloc; "{fault}") {
        Ok(written) => written.as_str() == text,
        Err(_) => false,
    }
}

#[test]
fn texts_of_faults(rt: HostRuntime) {
    for (fault, text) in &TEXTS {
        holds(&rt, is_written(rt.alloc(), fault, text), text);
    }
}

/// Whether a frame is shown so.
fn is_shown(alloc: Global, frame: &Frame, text: &str) -> bool {
    match format!(in alloc; "{frame:?}") {
        Ok(shown) => shown.as_str() == text,
        Err(_) => false,
    }
}

#[test]
fn a_frame_shows_its_octets(rt: HostRuntime) {
    let mut frame = Frame::new();
    assert!(rt; frame.refill(&[1, 2]));
    let is = is_shown(rt.alloc(), &frame, "[1, 2]");
    assert!(rt; is);
}
