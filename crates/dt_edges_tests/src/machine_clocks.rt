//! The machine's clock, alone and beside a wire.
use crate::sockets::{ROOM, TRIES, free_port, open, port_of, takes};
use dt_edges::{Clock, Wire};
use dt_machine::{MachineClock, Moments, UdpWire};
use std::net::UdpSocket;
use std::thread;
use std::time::Duration;

/// Whether the wire gives a datagram, at last, right after a reading of the clock.
fn gives(
    wire: &mut UdpWire<'_, HostRuntime>,
    clock: &mut MachineClock<'_, HostRuntime>,
    octets: &[u8],
) -> bool {
    for _ in 0..TRIES {
        let _reading = clock.now();
        if wire.give(7, octets).is_ok() {
            return true;
        }
    }
    false
}

#[test]
fn a_clock_begins_at_0_and_never_goes_back(rt: HostRuntime) {
    let moments = Moments::new();
    let mut clock = MachineClock::new(&rt, &moments);
    assert!(rt; clock.now() == 0);
    let next = clock.now();
    assert!(rt; next <= clock.now());
}

#[test]
fn a_clock_goes_on_while_nobody_reads_it(rt: HostRuntime) {
    let moments = Moments::new();
    let mut clock = MachineClock::new(&rt, &moments);
    let first = clock.now();
    thread::sleep(&rt, Duration::from_millis(30));
    assert!(rt; clock.now() >= first.saturating_add(30));
}

/// Whether a wire, at a turn that is long past, gives nothing, and at turns of their own gives at last.
fn gives_late(
    rt: &HostRuntime,
    wire: &mut UdpWire<'_, HostRuntime>,
    clock: &mut MachineClock<'_, HostRuntime>,
) -> bool {
    thread::sleep(rt, Duration::from_millis(300));
    let turn = clock.now();
    // it is longer past by now, so that nothing is sent
    wire.give(7, b"late").is_err()
        && clock.now() >= turn.saturating_add(299)
        && gives(wire, clock, b"soon")
}

/// Whether a wire opens to a socket, and takes a datagram of it where the clock stood at 0.
fn takes_first(
    near: &UdpSocket,
    wire: &mut UdpWire<'_, HostRuntime>,
    clock: &mut MachineClock<'_, HostRuntime>,
    port: u16,
) -> bool {
    open(wire, port, 7, port_of(near))
        && clock.now() == 0
        && takes(near, b"fresh", wire, port, &mut [0u8; ROOM]) == Some((7, 5))
}

/// Whether a turn is at the moment of its datagram, and not of what is given in it.
pub fn turns(
    rt: &HostRuntime,
    moments: &Moments,
    near: &UdpSocket,
    wire: &mut UdpWire<'_, HostRuntime>,
) -> bool {
    let mut clock = MachineClock::new(rt, moments);
    takes_first(near, wire, &mut clock, free_port(rt)) && gives_late(rt, wire, &mut clock)
}
