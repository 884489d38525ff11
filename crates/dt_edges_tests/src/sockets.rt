//! Wires and sockets of this machine.
ghost use Rattle.std.specs.Prelude.{◌≤◌};

use dt_edges::{Address, Peer, Wire};
use dt_machine::UdpWire;
use std::io;
use std::net::{Ipv4Addr, SocketAddr, UdpSocket};

/// The room for a datagram: what a frame has at most.
pub const ROOM: usize = 8_223;

/// How often a test tries what a loaded machine may be too slow for: a wire hands over and sends only
/// what is at most 20 ms old.
pub const TRIES: u32 = 200;

/// An address of this machine at a port.
pub fn local(port: u16) -> Address {
    Address {
        ip: [127, 0, 0, 1],
        port,
    }
}

/// The same address as a socket's calls have it.
pub fn socket_address(port: u16) -> SocketAddr {
    SocketAddr::from((Ipv4Addr::LOCALHOST, port))
}

/// A socket at a port that the machine chooses.
pub fn plain(rt: &HostRuntime) -> io::Result<UdpSocket> {
    UdpSocket::bind(rt, socket_address(0))
}

/// The port of a socket, or 0 where it isn't known.
pub fn port_of(socket: &UdpSocket) -> u16 {
    match socket.local_addr() {
        Ok(address) => address.port(),
        Err(_) => 0,
    }
}

/// A port that was free a moment ago, or 0 where there is none.
pub fn free_port(rt: &HostRuntime) -> u16 {
    match plain(rt) {
        Ok(socket) => port_of(&socket),
        Err(_) => 0,
    }
}

/// Opens a wire at a port. Its peers are one at this link and port, and one at the next link that sends
/// nothing.
pub fn open(wire: &mut UdpWire<'_, HostRuntime>, port: u16, link: u16, far: u16) -> bool
    requires { link ≤ 254 }
{
    let peer = Peer {
        link,
        address: local(far),
    };
    let silent = Peer {
        link: link + 1,
        address: local(1),
    };
    wire.open(local(port), &[peer, silent]).is_ok()
}

/// The link and the length of what a wire takes within 100 ms, if it takes anything.
pub fn taken(wire: &mut UdpWire<'_, HostRuntime>, buf: &mut [u8; ROOM]) -> Option<(u16, usize)> {
    wire.take(100, buf).ok().flatten()
}

/// Whether a wire takes nothing within 100 ms.
pub fn takes_nothing(wire: &mut UdpWire<'_, HostRuntime>, buf: &mut [u8; ROOM]) -> bool {
    taken(wire, buf).is_none()
}

/// Whether octets are sent to a port.
pub fn is_sent(near: &UdpSocket, octets: &[u8], port: u16) -> bool {
    near.send_to(octets, socket_address(port)).is_ok()
}

/// The link and the length of what a wire takes of a datagram that is sent to it once.
fn takes_once(
    near: &UdpSocket,
    octets: &[u8],
    far: &mut UdpWire<'_, HostRuntime>,
    port: u16,
    buf: &mut [u8; ROOM],
) -> Option<(u16, usize)> {
    let _none = far.take(1, buf);
    if is_sent(near, octets, port) {
        taken(far, buf)
    } else {
        None
    }
}

/// The link and the length of what a wire takes, at last, of a datagram that is sent to it.
pub fn takes(
    near: &UdpSocket,
    octets: &[u8],
    far: &mut UdpWire<'_, HostRuntime>,
    port: u16,
    buf: &mut [u8; ROOM],
) -> Option<(u16, usize)> {
    for _ in 0..TRIES {
        let taken = takes_once(near, octets, far, port, buf);
        if taken.is_some() {
            return taken;
        }
    }
    None
}

/// The link and the length of what a wire takes of a datagram that another one gives once over its link 3.
fn passes_once(
    near: &mut UdpWire<'_, HostRuntime>,
    octets: &[u8],
    far: &mut UdpWire<'_, HostRuntime>,
    buf: &mut [u8; ROOM],
) -> Option<(u16, usize)> {
    let _none = far.take(1, buf);
    if near.give(3, octets).is_ok() {
        taken(far, buf)
    } else {
        None
    }
}

/// The link and the length of what a wire takes, at last, of a datagram that another one gives over its
/// link 3.
pub fn passes(
    near: &mut UdpWire<'_, HostRuntime>,
    octets: &[u8],
    far: &mut UdpWire<'_, HostRuntime>,
    buf: &mut [u8; ROOM],
) -> Option<(u16, usize)> {
    for _ in 0..TRIES {
        let taken = passes_once(near, octets, far, buf);
        if taken.is_some() {
            return taken;
        }
    }
    None
}
