//! How datagrams come out of a socket: each has waited at most 20 ms.
ghost use Rattle.std.specs.Prelude.{ℕ, ◌≡◌, ◌≤◌, ◌<◌, [], All, Any, IfOk, IfSome, None, Some, cond, false, length};
ghost use Rattle.dt_machine.specs.Backlogs.{nothing};
ghost use Rattle.dt_machine.specs.Hastes.{first_haste};
ghost use Rattle.dt_machine.specs.Intakes.{FirstIsFresh, FirstIsLate, NextIsFresh};
ghost use Rattle.dt_machine.specs.Looks.{IsLook, is_empty_look};
ghost use Rattle.dt_machine.specs.Waits.{may_have_waited};

use crate::backlogs::Backlog;
use crate::hastes::{Haste, SOON};
use crate::peers::link_of;
use crate::sockets::{Look, Socket};
use crate::waits::may_have_waited;
use dt_edges::Peer;
use dt_items::NoMemory;
use std::alloc::Global;
use std::net::Net;
use std::{io, time};

/// How many nanoseconds a millisecond has.
const MILLISECOND: u64 = 1_000_000;

/// How long the socket may not have been found empty before it is emptied, in nanoseconds: 1 ms.
const PERIOD: u64 = MILLISECOND;

/// The longest single wait for a datagram, in milliseconds: at its end it is known that none came.
const LONGEST_WAIT: u64 = 5;

/// How long a take is at least that begins with a sleep, in nanoseconds: a sleep may last half as long.
const SLEEPY: u64 = 20 * MILLISECOND;

/// How many datagrams are looked at when the socket is emptied, at most.
const MOST_LOOKS: u32 = 1024;

/// How many datagrams that waited too long are passed over at once, at most: all that a backlog has.
const MOST_PASSED: u32 = 512;

/// How many waits and looks a take has, at most.
const MOST_ROUNDS: u32 = 1024;

/// How often a take looks before it waits, at most, also where the machine's clock stands still.
const MOST_SOON: u32 = 1024;

/// When a take began, and until when it waits, in nanoseconds.
#[derive(Clone, Copy)]
pub struct WaitSpan {
    begun: u64,
    until: u64,
}

/// A datagram that is handed over.
#[derive(Clone, Copy)]
pub struct Found {
    /// When it is handed over, in nanoseconds.
    pub moment: u64,
    pub link: u16,
    /// How many of its octets are the first in the buffer.
    pub count: usize,
}

/// What is known of the datagrams of a socket.
#[derive(Drop)]
pub struct Intake {
    /// Those that were taken out of it and not yet handed over.
    backlog: Backlog,
    /// When it was last found empty, in nanoseconds.
    empty: u64,
    /// Whether it is to be emptied before the next look: there were several when it was last emptied, or
    /// one that may have waited too long.
    crowded: bool,
    /// How soon the last ones came.
    haste: Haste,
}

impl Intake {
    /// Of a socket that has no datagrams yet. Takes the memory for its backlog.
    pub fn new(alloc: Global) -> Result<Self, NoMemory>
        ensures empty { IfOk result (λ intake. intake.backlog ≡ nothing) }
        ensures haste { IfOk result (λ intake. intake.haste ≡ first_haste) }
    {
        Ok(Intake {
            backlog: Backlog::new(alloc)?,
            empty: 0,
            crowded: false,
            haste: Haste::new(),
        })
    }

    /// Begins with a new socket, which was made at this moment, in nanoseconds.
    pub fn begin(&mut self, now: u64)
        ensures empty { self.new.backlog ≡ nothing }
        ensures moment { self.new.empty ≡ now }
        ensures haste { self.new.haste ≡ first_haste }
    {
        self.backlog.clear();
        self.empty = now;
        self.crowded = false;
        self.haste = Haste::new();
    }

    /// Hands over the first datagram of the backlog, with the moment `now`, or drops it where it may have
    /// waited longer than 20 ms by then. None where none waits.
    fn first(&mut self, now: u64, buf: &mut [u8]) -> Option<Option<Found>>
        ensures link { IfSome result (λ r. IfSome r (λ d. d.link ≤ 255)) }
        ensures within { IfSome result (λ r. IfSome r (λ d. d.count ≤ length buf.old)) }
        ensures same_room { length buf.new ≡ length buf.old }
        ensures moment { IfSome result (λ r. IfSome r (λ d. d.moment ≡ now)) }
        ensures fresh { IfSome result (λ r. IfSome r (FirstIsFresh now (length buf.old) buf.new self.old.backlog.waiting self.new.backlog.waiting)) }
        ensures late { result ≡ Some None → FirstIsLate now self.old.backlog.waiting self.new.backlog.waiting }
        ensures none { result ≡ None → self.old.backlog.waiting ≡ [] }
        ensures same { (self.new.empty ≡ self.old.empty) × (self.new.haste ≡ self.old.haste) }
    {
        let arrival = self.backlog.next(buf)?;
        if may_have_waited(arrival.empty, now) {
            return Some(None);
        }
        Some(Some(Found {
            moment: now,
            link: arrival.link,
            count: arrival.count,
        }))
    }

    /// The first datagram of the backlog that can't have waited longer than 20 ms by the moment `now`.
    /// Those before it are dropped. With it goes that moment.
    fn fresh(&mut self, now: u64, buf: &mut [u8]) -> Option<Found>
        ensures link { IfSome result (λ d. d.link ≤ 255) }
        ensures within { IfSome result (λ d. d.count ≤ length buf.old) }
        ensures same_room { length buf.new ≡ length buf.old }
        ensures fresh { IfSome result (NextIsFresh now (length buf.old) buf.new self.old.backlog.waiting self.new.backlog.waiting) }
        ensures same { (self.new.empty ≡ self.old.empty) × (self.new.haste ≡ self.old.haste) }
    {
        for _ in 0..MOST_PASSED {
            if let Some(found) = self.first(now, buf)? {
                return Some(found);
            }
        }
        None
    }

    /// Takes all datagrams of the peers out of the socket without waiting, as many as there is room
    /// for. It was called at the moment `now`, in nanoseconds.
    fn empty_socket<R: Net + time::Clock>(
        &mut self,
        socket: &Socket<'_, R>,
        peers: &[Peer],
        now: u64,
        buf: &mut [u8],
    )
        requires { All (λ p. p.link ≤ 255) peers.now }
        ensures same_room { length buf.new ≡ length buf.old }
    {
        let mut is_one = false;
        self.crowded = false;
        for _ in 0..MOST_LOOKS {
            if !self.backlog.has_room(buf.len()) {
                break;
            }
            let look = socket.look(buf);
            self.note_look(look, now);
            match look {
                Look::Datagram { from, count } => {
                    if let Some(link) = link_of(peers, from) {
                        self.backlog.keep(link, &buf[..count], self.empty);
                        self.crowded = is_one;
                        is_one = true;
                    }
                }
                Look::Other | Look::Failed => (),
                Look::Empty => break,
            }
        }
    }

    /// A datagram that is there without waiting: the backlog's, or the socket's where it is emptied.
    fn at_hand<R: Net + time::Clock>(
        &mut self,
        socket: &Socket<'_, R>,
        peers: &[Peer],
        now: u64,
        buf: &mut [u8],
    ) -> Option<Found>
        requires { All (λ p. p.link ≤ 255) peers.now }
        ensures link { IfSome result (λ d. d.link ≤ 255) }
        ensures within { IfSome result (λ d. d.count ≤ length buf.old) }
        ensures same_room { length buf.new ≡ length buf.old }
    {
        if let Some(found) = self.fresh(now, buf) {
            return Some(found);
        }
        if !self.crowded && now.saturating_sub(self.empty) < PERIOD {
            return None;
        }
        self.empty_socket(socket, peers, now, buf);
        self.fresh(socket.now(), buf)
    }

    /// The datagram that a look found, if it did, by the moment `now`. None where it is a stranger's, or
    /// may have waited longer than 20 ms.
    fn judged(&mut self, look: Look, now: u64, peers: &[Peer]) -> Option<Found>
        requires { All (λ p. p.link ≤ 255) peers.now }
        ensures link { IfSome result (λ d. d.link ≤ 255) }
        ensures within { (room : ℕ) → IsLook room look → IfSome result (λ d. d.count ≤ room) }
        ensures moment { IfSome result (λ d. d.moment ≡ now) }
        ensures fresh { IfSome result (λ d. may_have_waited self.old.empty now ≡ false) }
        ensures peer { IfSome result (λ d. Any (λ p. p.link ≡ d.link) peers.now) }
    {
        let Look::Datagram { from, count } = look else {
            return None;
        };
        if may_have_waited(self.empty, now) {
            self.crowded = true;
            return None;
        }
        let link = link_of(peers, from)?;
        Some(Found {
            moment: now,
            link,
            count,
        })
    }

    /// Whether a take may sleep at first: the last datagram came soon, so that one is likely to end the
    /// sleep, and a sleep is far shorter than the take.
    fn may_sleep(&self, span: WaitSpan) -> bool {
        self.haste.came_soon() && span.until.saturating_sub(span.begun) >= SLEEPY
    }

    /// Waits for a datagram until the end of a take. None as of a take.
    fn wait_for<R: Net + time::Clock>(
        &mut self,
        socket: &Socket<'_, R>,
        peers: &[Peer],
        span: WaitSpan,
        buf: &mut [u8],
    ) -> io::Result<Option<Found>>
        requires { All (λ p. p.link ≤ 255) peers.now }
        ensures link { IfOk result (λ t. IfSome t (λ d. d.link ≤ 255)) }
        ensures within { IfOk result (λ t. IfSome t (λ d. d.count ≤ length buf.old)) }
    {
        let mut now = span.begun;
        if self.may_sleep(span) {
            if let Some(found) = self.sleep(socket, peers, now, buf)? {
                return Ok(Some(found));
            }
        }
        for _ in 0..MOST_ROUNDS {
            let rest = span.until.saturating_sub(now).div_ceil(MILLISECOND);
            if rest == 0 {
                return Ok(None);
            }
            let wait = rest.min(LONGEST_WAIT);
            if socket.wait(wait as u16) {
                let look = socket.sleep(buf)?;
                return Ok(self.judged(look, socket.now(), peers));
            }
            self.empty = now.saturating_add(wait * MILLISECOND);
            now = socket.now();
            if let Some(found) = self.at_hand(socket, peers, now, buf) {
                return Ok(Some(found));
            }
        }
        Ok(None)
    }

    /// Sleeps until a datagram comes, some milliseconds at most, where the take began at the moment `begun`.
    /// That is one call of the machine in place of the three of a look, a wait and a look.
    fn sleep<R: Net + time::Clock>(
        &mut self,
        socket: &Socket<'_, R>,
        peers: &[Peer],
        begun: u64,
        buf: &mut [u8],
    ) -> io::Result<Option<Found>>
        requires { All (λ p. p.link ≤ 255) peers.now }
        ensures link { IfOk result (λ t. IfSome t (λ d. d.link ≤ 255)) }
        ensures within { IfOk result (λ t. IfSome t (λ d. d.count ≤ length buf.old)) }
        ensures same_room { length buf.new ≡ length buf.old }
    {
        let look = socket.sleep(buf)?;
        let now = socket.now();
        if look == Look::Empty {
            // (it was empty at the sleep's end, which is later)
            self.empty = begun;
            return Ok(None);
        }
        Ok(self.judged(look, now, peers))
    }

    /// Looks for a datagram, where the take began at the moment `begun`: once, and where the last ones came
    /// soon, until one came or 50 microseconds have passed.
    fn look_soon<R: Net + time::Clock>(
        &mut self,
        socket: &Socket<'_, R>,
        begun: u64,
        buf: &mut [u8],
    ) -> Look
        ensures within { IsLook (length buf.old) result }
        ensures same_room { length buf.new ≡ length buf.old }
    {
        let look = self.look_once(socket, begun, buf);
        if look.is_something() || !self.haste.is_brisk() {
            return look;
        }
        for _ in 0..MOST_SOON {
            let now = socket.now();
            let took = now.saturating_sub(begun);
            if took > SOON {
                break;
            }
            let look = self.look_once(socket, now, buf);
            if look.is_something() {
                self.haste = self.haste.met(took);
                return look;
            }
        }
        self.haste = self.haste.missed();
        Look::Empty
    }

    /// Notes that the socket was empty at the moment `now`, where a look after it says so.
    fn note_look(&mut self, look: Look, now: u64)
        ensures empty { self.new.empty ≡ cond (is_empty_look look) now self.old.empty }
        ensures same { (self.new.backlog ≡ self.old.backlog) × (self.new.haste ≡ self.old.haste) }
    {
        if let Look::Empty = look {
            self.empty = now;
        }
    }

    /// Looks for a datagram once, after the moment `now`.
    fn look_once<R: Net + time::Clock>(
        &mut self,
        socket: &Socket<'_, R>,
        now: u64,
        buf: &mut [u8],
    ) -> Look
        ensures within { IsLook (length buf.old) result }
        ensures same_room { length buf.new ≡ length buf.old }
        ensures empty { self.new.empty ≡ cond (is_empty_look result) now self.old.empty }
        ensures same { self.new.backlog ≡ self.old.backlog }
    {
        let look = socket.look(buf);
        self.note_look(look, now);
        look
    }

    /// Waits for a datagram, `wait_ms` milliseconds, which aren't 0: the moment at which it is handed over,
    /// in nanoseconds, its link, and how many of its octets stand first in the buffer. None where none
    /// came, where a stranger's came, or where all that came may have waited longer than 20 ms. Fails
    /// where the machine's call does.
    pub fn take<R: Net + time::Clock>(
        &mut self,
        socket: &Socket<'_, R>,
        peers: &[Peer],
        wait_ms: u32,
        buf: &mut [u8],
    ) -> io::Result<Option<Found>>
        requires { All (λ p. p.link ≤ 255) peers.now }
        ensures link { IfOk result (λ t. IfSome t (λ d. d.link ≤ 255)) }
        ensures within { IfOk result (λ t. IfSome t (λ d. d.count ≤ length buf.old)) }
    {
        let begun = socket.now();
        if let Some(found) = self.at_hand(socket, peers, begun, buf) {
            return Ok(Some(found));
        }
        let until = begun.saturating_add(u64::from(wait_ms) * MILLISECOND);
        let span = WaitSpan { begun, until };
        if self.haste.is_brisk() || !self.may_sleep(span) {
            let look = self.look_soon(socket, begun, buf);
            if look.is_something() {
                return Ok(self.judged(look, socket.now(), peers));
            }
        }
        let found = self.wait_for(socket, peers, span, buf)?;
        self.haste = match found {
            Some(found) => self.haste.waited(found.moment.saturating_sub(begun)),
            None => self.haste.rested(),
        };
        Ok(found)
    }
}
