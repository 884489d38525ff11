//! A wire over a UDP socket.
ghost use Rattle.std.specs.Prelude.{ℕ, ◌≡◌, ◌≤◌, None, Some, false, length, All, IfOk, IfSome};
ghost use Rattle.dt_machine.specs.Wires.{uncalled};

use crate::intakes::Intake;
use crate::moments::Moments;
use crate::peers::address_of;
use crate::sockets::Socket;
use crate::waits::is_late;
use crate::wire_counts::WireCounts;
use dt_edges::{Address, Failed, Peer, Wire};
use dt_items::NoMemory;
use std::alloc::Global;
use std::marker::Model;
use std::net::Net;
use std::time;

/// How many peers a wire has room for: as many as there are links.
const PEERS: usize = 256;

/// A wire over a UDP socket. It tells how it was opened, how often it was called and how often a call
/// failed, how long the last take was to wait, and nothing of what passes. What it hands over has waited
/// in this machine for at most 20 ms, by the moments at which it found the socket empty; what may have
/// waited longer is dropped, as a link may lose it. So is what is given later than 20 ms after the last
/// reading of the clock.
#[derive(Drop)]
pub struct UdpWire<'a, R> {
    rt: &'a R,
    moments: &'a Moments,
    socket: Option<Socket<'a, R>>,
    intake: Intake,
    local: Option<Address>,
    peers: Vec<Peer>,
    counts: WireCounts,
}

impl<'a, R: Net + time::Clock> UdpWire<'a, R> {
    /// A wire that isn't open. Takes memory at once for 256 peers, and for 262,144 octets and 512
    /// datagrams that wait.
    pub fn new(alloc: Global, rt: &'a R, moments: &'a Moments) -> Result<Self, NoMemory>
        ensures { IfOk result (λ wire. wire ≡ record { opening = None; counts = uncalled }) }
    {
        Ok(UdpWire {
            rt,
            moments,
            socket: None,
            intake: Intake::new(alloc)?,
            local: None,
            peers: Vec::with_capacity(alloc, PEERS)?,
            counts: WireCounts {
                opens: 0,
                last_wait: None,
                takes: 0,
                take_faults: 0,
                gives: 0,
                give_faults: 0,
            },
        })
    }
}

/// A socket that has the address, for peers that a wire has room for.
fn bound<'a, R: Net + time::Clock>(
    rt: &'a R,
    local: Address,
    peers: &[Peer],
) -> Option<Socket<'a, R>>
    ensures room { IfSome result (λ s. length peers.now ≤ 256) }
    ensures links { IfSome result (λ s. All (λ p. p.link ≤ 255) peers.now) }
{
    if peers.len() > PEERS || peers.iter().any(|peer| peer.link > 255) {
        return None;
    }
    Socket::bind(rt, local).ok()
}

/// Sends a datagram, and where it doesn't leave once more, after a wait for room. Whether it left before the
/// last reading was longer past than 20 ms.
fn send_soon<R: Net + time::Clock>(
    socket: &Socket<'_, R>,
    moments: &Moments,
    address: Address,
    octets: &[u8],
) -> bool {
    let (read, now) = (moments.last_read(), socket.now());
    if is_late(read, now) {
        return false;
    }
    if socket.send(read, now, address, octets) {
        return true;
    }
    socket.wait_for_room();
    let now = socket.now();
    !is_late(read, now) && socket.send(read, now, address, octets)
}

impl<'a, R> Model for UdpWire<'a, R> {
    ghost use Rattle.std.specs.Prelude.{◌≤◌, All, vec_capacity};
    ghost use Rattle.std.specs.Option.{option_map};
    ghost use Rattle.dt_machine.specs.Wires.{UdpWireSeen};

    ghost Value = { UdpWireSeen };

    ghost view = { λ w. record {
      opening = option_map (λ local. record { local = local; peers = w.peers.items }) w.local;
      counts = w.counts;
    } };

    ghost invariant = { λ w. record {
      room : 256 ≤ vec_capacity w.peers;
      links : All (λ p. p.link ≤ 255) w.peers.items;
    } };
}

impl<'a, R: Net + time::Clock> Wire for UdpWire<'a, R> {
    ghost use Rattle.std.specs.Prelude.{None, Some};
    ghost use Rattle.std.proofs.Math.Nat.{min-le_right};
    ghost use Rattle.dt_edges.specs.Counts.{as_count, last_count};

    ghost sight = { λ w. record {
      taken = None;
      given = None;
      opening = Some w.opening;
      plan = None;
      takes = as_count w.counts.takes;
      gives = as_count w.counts.gives;
      used = 0;
      take_faults = as_count w.counts.take_faults;
      give_faults = as_count w.counts.give_faults;
      opens = as_count w.counts.opens;
      last_wait = w.counts.last_wait;
    } };

    ghost bounded = { λ w. record {
      takes = min-le_right w.counts.takes last_count;
      gives = min-le_right w.counts.gives last_count;
      take_faults = min-le_right w.counts.take_faults last_count;
      give_faults = min-le_right w.counts.give_faults last_count;
      opens = min-le_right w.counts.opens last_count;
    } };

    /// Binds the address. Fails where the machine refuses it, or where a link isn't 0 to 255; the
    /// wire then stays as it was.
    fn open(&mut self, local: Address, peers: &[Peer]) -> Result<(), Failed> {
        self.counts.opens = self.counts.opens.saturating_add(1);
        let Some(socket) = bound(self.rt, local, peers) else {
            self.counts.take_faults = self.counts.take_faults.saturating_add(1);
            return Err(Failed);
        };
        self.intake.begin(socket.now());
        self.socket = Some(socket);
        self.local = Some(local);
        self.peers.clear();
        match self.peers.extend_from_slice(peers) {
            Ok(()) => Ok(()),
            Err(_) => unreachable!(),
        }
    }

    /// Waits for a datagram. A stranger's ends the wait and gives `None`, and so does a signal, and one
    /// that may have waited in this machine longer than 20 ms. Fails where the wire isn't open, or the
    /// machine's call fails.
    fn take(&mut self, wait_ms: u32, buf: &mut [u8]) -> Result<Option<(u16, usize)>, Failed> {
        self.counts.last_wait = Some(wait_ms);
        self.counts.takes = self.counts.takes.saturating_add(1);
        let taken = match &self.socket {
            Some(socket) => self.intake.take(socket, &self.peers, wait_ms, buf).ok(),
            None => None,
        };
        match taken {
            Some(Some(found)) => {
                self.moments.note_found(found.moment);
                Ok(Some((found.link, found.count)))
            }
            Some(None) => Ok(None),
            None => {
                self.counts.take_faults = self.counts.take_faults.saturating_add(1);
                Err(Failed)
            }
        }
    }

    /// Sends a datagram. Fails where the wire isn't open, the link has no peer, the machine's call fails,
    /// or the last reading of the clock is longer past than 20 ms.
    fn give(&mut self, link: u16, octets: &[u8]) -> Result<(), Failed> {
        self.counts.gives = self.counts.gives.saturating_add(1);
        let sent = match (&self.socket, address_of(&self.peers, link)) {
            (Some(socket), Some(address)) => send_soon(socket, self.moments, address, octets),
            _ => false,
        };
        if sent {
            return Ok(());
        }
        self.counts.give_faults = self.counts.give_faults.saturating_add(1);
        Err(Failed)
    }
}
