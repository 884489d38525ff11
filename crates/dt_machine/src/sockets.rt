//! A UDP socket of the machine.
ghost use Rattle.std.specs.Prelude.{◌≡◌, IfOk, false, length};
ghost use Rattle.dt_machine.specs.Looks.{IsLook, is_something};
ghost use Rattle.dt_machine.specs.Waits.{is_late};

use crate::names::{Name, address_in, name_of};
use crate::uptime::uptime;
use dt_edges::Address;
use libc::net::{
    MSG_DONTWAIT, MSG_NOSIGNAL, POLLIN, POLLOUT, SO_RCVBUF, SOL_SOCKET, poll, recvfrom, sendto,
    setsockopt,
};
use libc::types::pollfd;
use std::io::ErrorKind;
use std::net::{Ipv4Addr, Net, SocketAddr, UdpSocket};
use std::os::fd::AsRawFd;
use std::time::Duration;
use std::{io, time};

/// How long a send waits for room in the machine at most, in milliseconds: what is given later isn't sent.
const LONGEST_SEND: i32 = 20;

/// How long a sleep is at most, in milliseconds. The kernel goes by its own ticks and sleeps up to two of
/// them, which are 4 ms or less each.
const SLEEP: u64 = 1;

/// How many octets the kernel is asked to keep for the socket: what comes in 20 ms at a hundred thousand
/// datagrams a second. It keeps no more than its own limit.
const KEPT: i32 = 2_097_152;

/// What a look into a socket found.
#[derive(Clone, Copy, PartialEq, Eq)]
pub enum Look {
    /// A datagram, and how many of its octets stand first in the buffer.
    Datagram { from: Address, count: usize },
    /// A datagram that no peer has sent, as its address isn't one of IPv4, or a signal.
    Other,
    /// Nothing: the socket was empty.
    Empty,
    /// The machine's call failed, so whether the socket was empty isn't known.
    Failed,
}

impl Look {
    /// Whether something was taken out of the socket, or a signal came.
    pub fn is_something(self) -> bool
        ensures { result ≡ is_something self }
    {
        matches!(self, Look::Datagram { .. } | Look::Other)
    }
}

/// A UDP socket, whose sleeps alone wait.
#[derive(Drop)]
pub struct Socket<'a, R> {
    rt: &'a R,
    socket: UdpSocket,
}

/// Asks the kernel to keep `count` octets for a socket. Where it refuses, it keeps as many as before.
fn keep_octets(fd: i32, count: i32) {
    let mut value = [0u8; 16];
    value[..4].copy_from_slice(&count.to_ne_bytes());
    let _ = unsafe { setsockopt(fd, SOL_SOCKET, SO_RCVBUF, &value, 4) };
}

impl<'a, R: Net + time::Clock> Socket<'a, R> {
    /// A socket that has the address.
    pub fn bind(rt: &'a R, local: Address) -> io::Result<Self> {
        let socket = UdpSocket::bind(rt, socket_address(local))?;
        socket.set_read_timeout(Some(Duration::from_millis(SLEEP)))?;
        keep_octets(socket.as_raw_fd(), KEPT);
        Ok(Socket { rt, socket })
    }

    /// The machine's time, in nanoseconds, or 0 where its clocks fail.
    pub fn now(&self) -> u64 {
        uptime(self.rt).unwrap_or(0)
    }

    /// Looks for a datagram without waiting. A longer one is cut to the buffer. `Empty` only where the
    /// kernel says that nothing can be taken, after a call that took nothing. Why a call failed is
    /// learned by a sleep.
    pub fn look(&self, buf: &mut [u8]) -> Look
        ensures within { IsLook (length buf.old) result }
        ensures same_room { length buf.new ≡ length buf.old }
    {
        let mut name: Name = [0; 128];
        let mut len = 128;
        let fd = self.socket.as_raw_fd();
        let got = unsafe { recvfrom(fd, buf, MSG_DONTWAIT, &mut name, &mut len) };
        if got < 0 {
            return if self.wait(0) {
                Look::Failed
            } else {
                Look::Empty
            };
        }
        let count = got as usize;
        match address_in(&name) {
            Some(from) => Look::Datagram { from, count },
            None => Look::Other,
        }
    }

    /// Sleeps until there is a datagram to take, some milliseconds at most. A longer one is cut to the
    /// buffer. Nothing says that the socket was empty at its end. Fails where the machine's call does.
    pub fn sleep(&self, buf: &mut [u8]) -> io::Result<Look>
        ensures within { IfOk result (IsLook (length buf.old)) }
        ensures same_room { length buf.new ≡ length buf.old }
    {
        match self.socket.recv_from(buf) {
            Ok((count, SocketAddr::V4(from))) => {
                let (ip, port) = (from.ip().octets(), from.port());
                let from = Address { ip, port };
                Ok(Look::Datagram { from, count })
            }
            Ok((_, SocketAddr::V6(_))) => Ok(Look::Other),
            Err(fault) => match fault.kind() {
                ErrorKind::WouldBlock => Ok(Look::Empty),
                ErrorKind::Interrupted => Ok(Look::Other),
                _ => Err(fault),
            },
        }
    }

    /// Waits until the socket is ready for what is asked, at most `wait_ms` milliseconds. False says that
    /// it wasn't at their end.
    fn wait_for(&self, events: i16, wait_ms: i32) -> bool {
        let mut asked = [pollfd {
            fd: self.socket.as_raw_fd(),
            events,
            revents: 0,
        }];
        poll(&mut asked, wait_ms) != 0
    }

    /// Waits for a datagram, at most `wait_ms` milliseconds. False says that the socket was empty at
    /// their end. True comes where there is something to take, or a signal ended the wait.
    pub fn wait(&self, wait_ms: u16) -> bool {
        self.wait_for(POLLIN, i32::from(wait_ms))
    }

    /// Waits for room for a datagram, 20 ms at most.
    pub fn wait_for_room(&self) {
        self.wait_for(POLLOUT, LONGEST_SEND);
    }

    /// Sends the octets to the address without waiting, and says whether all of them left. They are of a
    /// turn whose clock was read at the moment `read`, if it was, which is at most 20 ms past at the moment
    /// `now`. Both are in nanoseconds.
    pub fn send(&self, read: Option<u64>, now: u64, address: Address, octets: &[u8]) -> bool
        requires { is_late read now ≡ false }
    {
        let name = name_of(address);
        let fd = self.socket.as_raw_fd();
        let flags = MSG_DONTWAIT | MSG_NOSIGNAL;
        let count = unsafe { sendto(fd, octets, flags, &name, 16) };
        count >= 0 && count as usize == octets.len()
    }
}

/// What a socket's call calls an address.
fn socket_address(address: Address) -> SocketAddr {
    let [a, b, c, d] = address.ip;
    SocketAddr::from((Ipv4Addr::new(a, b, c, d), address.port))
}
