//! Wires over sockets of this machine.
ghost use Rattle.std.specs.Prelude.{◌≤◌};

use crate::machine_clocks::turns;
use crate::sockets::{
    ROOM, free_port, is_sent, local, open, passes, plain, port_of, takes, takes_nothing,
};
use dt_edges::{Peer, Wire};
use dt_machine::{Moments, UdpWire};
use std::net::UdpSocket;
use std::thread;
use std::time::{Duration, Instant};

/// A datagram as long as a frame is at most.
static LONGEST: [u8; ROOM] = [0x61; ROOM];

fn fails(wire: &mut UdpWire<'_, HostRuntime>, buf: &mut [u8; ROOM]) -> bool {
    wire.take(1, buf).is_err() && wire.give(3, b"early").is_err()
}

/// Whether a wire opens at a free port with one peer at this link.
fn opens_to(rt: &HostRuntime, wire: &mut UdpWire<'_, HostRuntime>, link: u16) -> bool {
    let peer = Peer {
        link,
        address: local(1),
    };
    wire.open(local(free_port(rt)), &[peer]).is_ok()
}

/// Whether a wire refuses a link above 255, and the port of a socket.
fn refuses(rt: &HostRuntime, near: &UdpSocket, wire: &mut UdpWire<'_, HostRuntime>) -> bool {
    !opens_to(rt, wire, 256)
        && opens_to(rt, wire, 255)
        && wire.open(local(port_of(near)), &[]).is_err()
}

/// Whether a wire at a port takes a datagram of a socket, at last.
fn takes_fresh(
    near: &UdpSocket,
    wire: &mut UdpWire<'_, HostRuntime>,
    port: u16,
    link: u16,
    buf: &mut [u8; ROOM],
) -> bool {
    takes(near, b"fresh", wire, port, buf) == Some((link, 5)) && buf.starts_with(b"fresh")
}

/// Links over which a datagram comes.
static LINKS: [u16; 4] = [0, 1, 7, 254];

/// Whether a wire takes a datagram that comes from a socket over a link.
fn takes_at(
    rt: &HostRuntime,
    near: &UdpSocket,
    wire: &mut UdpWire<'_, HostRuntime>,
    link: u16,
    buf: &mut [u8; ROOM],
) -> bool {
    let port = free_port(rt);
    link <= 254 && open(wire, port, link, port_of(near)) && takes_fresh(near, wire, port, link, buf)
}

/// The same over each of the links.
fn tells_links(
    rt: &HostRuntime,
    near: &UdpSocket,
    wire: &mut UdpWire<'_, HostRuntime>,
    buf: &mut [u8; ROOM],
) -> bool {
    for link in &LINKS {
        if !takes_at(rt, near, wire, *link, buf) {
            return false;
        }
    }
    true
}

/// Whether two wires open, each to the other.
fn are_open(
    rt: &HostRuntime,
    near: &mut UdpWire<'_, HostRuntime>,
    far: &mut UdpWire<'_, HostRuntime>,
) -> bool {
    let (near_port, far_port) = (free_port(rt), free_port(rt));
    open(near, near_port, 3, far_port) && open(far, far_port, 7, near_port)
}

/// Whether a wire takes these octets of another, at last, over their link 7.
fn hears(
    near: &mut UdpWire<'_, HostRuntime>,
    octets: &[u8],
    far: &mut UdpWire<'_, HostRuntime>,
    buf: &mut [u8; ROOM],
) -> bool {
    passes(near, octets, far, buf) == Some((7, octets.len())) && buf.starts_with(octets)
}

/// Whether a wire gives nothing over a link without a peer, and the other takes what it gives over its own.
fn hears_all(near: &mut UdpWire<'_, HostRuntime>, far: &mut UdpWire<'_, HostRuntime>) -> bool {
    let mut buf = [0u8; ROOM];
    near.give(5, b"hello").is_err()
        && hears(near, b"hello", far, &mut buf)
        && hears(near, &LONGEST, far, &mut buf)
}

/// Whether a second wire takes what one gives.
fn is_heard(rt: &HostRuntime, moments: &Moments, near: &mut UdpWire<'_, HostRuntime>) -> bool {
    match UdpWire::new(rt.alloc(), rt, moments) {
        Ok(mut far) => are_open(rt, near, &mut far) && hears_all(near, &mut far),
        Err(_) => false,
    }
}

/// Whether a wire takes nothing of a socket that isn't its peer.
fn takes_no_forged(
    rt: &HostRuntime,
    near: &UdpSocket,
    wire: &mut UdpWire<'_, HostRuntime>,
    buf: &mut [u8; ROOM],
) -> bool {
    let port = free_port(rt);
    open(wire, port, 7, 1)
        && takes_nothing(wire, buf)
        && is_sent(near, b"forged", port)
        && takes_nothing(wire, buf)
}

/// Whether two datagrams are sent to a port, and wait there for 50 ms.
fn are_late(rt: &HostRuntime, near: &UdpSocket, port: u16) -> bool {
    let are = is_sent(near, b"late", port) && is_sent(near, b"too", port);
    thread::sleep(rt, Duration::from_millis(50));
    are
}

/// Whether a wire takes nothing of two datagrams that wait 50 ms, and then a third.
fn drops_late(
    rt: &HostRuntime,
    near: &UdpSocket,
    wire: &mut UdpWire<'_, HostRuntime>,
    buf: &mut [u8; ROOM],
) -> bool {
    let port = free_port(rt);
    open(wire, port, 7, port_of(near))
        && are_late(rt, near, port)
        && takes_nothing(wire, buf)
        && takes_fresh(near, wire, port, 7, buf)
}

/// How many milliseconds have passed since a moment; none where the clock fails.
fn since(rt: &HostRuntime, begun: Instant) -> u128 {
    match Instant::now(rt) {
        Ok(now) => now.duration_since(begun).as_millis(),
        Err(_) => 0,
    }
}

/// Whether a wire takes nothing, and waits as long as it is told.
fn waits_for(
    rt: &HostRuntime,
    wire: &mut UdpWire<'_, HostRuntime>,
    wait: u32,
    buf: &mut [u8; ROOM],
) -> bool
    requires some { 1 ≤ wait }
    requires most { wait ≤ 1000 }
{
    match Instant::now(rt) {
        Ok(begun) => {
            wire.take(wait, buf).ok().flatten().is_none() && since(rt, begun) >= u128::from(wait)
        }
        Err(_) => false,
    }
}

fn waits(rt: &HostRuntime, wire: &mut UdpWire<'_, HostRuntime>, buf: &mut [u8; ROOM]) -> bool {
    open(wire, free_port(rt), 7, 1)
        && waits_for(rt, wire, 1, buf)
        && waits_for(rt, wire, 4, buf)
        && waits_for(rt, wire, 7, buf)
        && waits_for(rt, wire, 60, buf)
}

/// What is tried of a wire that isn't open.
enum Trial {
    Fails,
    Refuses,
    TellsLinks,
    IsHeard,
    TakesNoForged,
    DropsLate,
    Waits,
    Turns,
}

/// Whether a wire passes a trial, beside a socket.
fn passes_trial(
    rt: &HostRuntime,
    moments: &Moments,
    near: &UdpSocket,
    wire: &mut UdpWire<'_, HostRuntime>,
    trial: &Trial,
) -> bool {
    let mut buf = [0u8; ROOM];
    match trial {
        Trial::Fails => fails(wire, &mut buf),
        Trial::Refuses => refuses(rt, near, wire),
        Trial::TellsLinks => tells_links(rt, near, wire, &mut buf),
        Trial::IsHeard => is_heard(rt, moments, wire),
        Trial::TakesNoForged => takes_no_forged(rt, near, wire, &mut buf),
        Trial::DropsLate => drops_late(rt, near, wire, &mut buf),
        Trial::Waits => waits(rt, wire, &mut buf),
        Trial::Turns => turns(rt, moments, near, wire),
    }
}

/// Whether a new wire passes a trial, beside this socket.
fn is_passed_beside(rt: &HostRuntime, near: &UdpSocket, trial: &Trial) -> bool {
    let moments = Moments::new();
    match UdpWire::new(rt.alloc(), rt, &moments) {
        Ok(mut wire) => passes_trial(rt, &moments, near, &mut wire, trial),
        Err(_) => false,
    }
}

/// Whether a new wire passes a trial, beside a new socket.
fn is_passed(rt: &HostRuntime, trial: &Trial) -> bool {
    match plain(rt) {
        Ok(near) => is_passed_beside(rt, &near, trial),
        Err(_) => false,
    }
}

#[test]
fn a_wire_that_is_not_open_fails(rt: HostRuntime) {
    assert!(rt; is_passed(&rt, &Trial::Fails));
}

#[test]
fn a_link_above_255_and_a_port_in_use_are_refused(rt: HostRuntime) {
    assert!(rt; is_passed(&rt, &Trial::Refuses));
}

#[test]
fn datagrams_come_with_the_number_of_their_link(rt: HostRuntime) {
    assert!(rt; is_passed(&rt, &Trial::TellsLinks));
}

#[test]
fn a_wire_takes_what_another_gives(rt: HostRuntime) {
    assert!(rt; is_passed(&rt, &Trial::IsHeard));
}

#[test]
fn nothing_comes_of_a_stranger(rt: HostRuntime) {
    assert!(rt; is_passed(&rt, &Trial::TakesNoForged));
}

#[test]
fn what_waited_too_long_is_dropped(rt: HostRuntime) {
    assert!(rt; is_passed(&rt, &Trial::DropsLate));
}

#[test]
fn a_wait_is_kept(rt: HostRuntime) {
    assert!(rt; is_passed(&rt, &Trial::Waits));
}

#[test]
fn a_turn_is_at_the_moment_of_its_datagram(rt: HostRuntime) {
    assert!(rt; is_passed(&rt, &Trial::Turns));
}
