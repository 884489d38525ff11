//! Octets that are known to read as a Deltagram.
use crate::octets::{FRAME, RENDEZVOUS, fault_of};
use crate::rows::holds_at;
use dt_layout::{Frame, GramOctets, read_deltagram};

/// Whether octets are known to read exactly where they read, and show the Deltagram that they spell.
fn is_known(octets: &[u8]) -> bool {
    match GramOctets::read(octets) {
        Ok(gram) => {
            let d = gram.deltagram();
            read_deltagram(octets) == Ok(d) && gram.life() == d.life && gram.to() == d.to
        }
        Err(fault) => fault_of(octets) == Some(fault),
    }
}

#[test]
fn octets_are_known_where_they_read(rt: HostRuntime) {
    for n in 0..=35 {
        holds_at(&rt, is_known(&FRAME[..n]), n, 35);
    }
    holds_at(&rt, is_known(&RENDEZVOUS), 30, 30);
}

/// Whether octets are known, and copied into a frame without any.
fn is_copied(octets: &[u8], frame: &mut Frame) -> bool {
    if let Ok(gram) = GramOctets::read(octets) {
        gram.copy_into(frame);
    }
    frame.as_slice() == octets
}

#[test]
fn known_octets_are_copied(rt: HostRuntime) {
    let is = is_copied(&FRAME, &mut Frame::new());
    assert!(rt; is);
}
