//! Datagrams that were taken out of a socket and not yet handed over.
ghost use Rattle.std.specs.Prelude.{◌≡◌, ◌≤◌, ◌<◌, [], cond, length, drop, true, false, IfOk, IfSome, MatchOption, None};
ghost use Rattle.dt_machine.specs.Backlogs.{HandsOver, has_room, kept, nothing};

use dt_items::NoMemory;
use std::alloc::Global;
use std::marker::Model;

/// The most octets of datagrams that wait here.
const BACKLOG_OCTETS: usize = 262_144;

/// The most datagrams that wait here.
const MOST_PLACES: usize = 512;

/// Where a datagram stands among the octets of all.
#[derive(Clone, Copy)]
pub struct Place {
    link: u16,
    start: usize,
    end: usize,
    /// When the socket was last found empty before the datagram was found, in nanoseconds.
    empty: u64,
}

/// A datagram that was handed over.
#[derive(Clone, Copy)]
pub struct ReceivedDatagram {
    pub link: u16,
    /// How many of its octets stand first in the buffer.
    pub count: usize,
    /// When the socket was last found empty before it was found, in nanoseconds.
    pub empty: u64,
}

/// Datagrams that wait, the first of which is handed over first: at most 512, with at most 262,144
/// octets. They are packed one after the other, and the room is free again when all were handed over.
#[derive(Drop)]
pub struct Backlog {
    octets: Vec<u8>,
    places: Vec<Place>,
    /// How many of them were handed over.
    handed: usize,
}

impl Model for Backlog {
    ghost use Rattle.std.specs.Prelude.{◌≤◌, All, map, drop, length, vec_len, vec_capacity};
    ghost use Rattle.dt_machine.specs.Backlogs.{Backlogged, waiting_at, IsPlace};
    ghost use Rattle.dt_machine.specs.declared.backlogs.TheConstants.{BACKLOG_OCTETS, MOST_PLACES};

    ghost Value = { Backlogged };

    ghost view = { λ b. record {
      waiting = map (waiting_at b.octets.items) (drop b.handed b.places.items);
      places = vec_len b.places;
      octets = vec_len b.octets;
    } };

    ghost invariant = { λ b. record {
      octets_fit : vec_len b.octets ≤ BACKLOG_OCTETS;
      octets_room : BACKLOG_OCTETS ≤ vec_capacity b.octets;
      places_fit : vec_len b.places ≤ MOST_PLACES;
      places_room : MOST_PLACES ≤ vec_capacity b.places;
      handed : b.handed ≤ vec_len b.places;
      places : All (IsPlace (length b.octets.items)) b.places.items;
    } };
}

impl Backlog {
    /// One in which nothing waits. Takes memory for all that may wait, and no call takes more.
    pub fn new(alloc: Global) -> Result<Self, NoMemory>
        ensures { IfOk result (λ backlog. backlog ≡ nothing) }
    {
        Ok(Backlog {
            octets: Vec::with_capacity(alloc, BACKLOG_OCTETS)?,
            places: Vec::with_capacity(alloc, MOST_PLACES)?,
            handed: 0,
        })
    }

    /// Whether nothing waits.
    pub fn is_empty(&self) -> bool
        ensures empty { result ≡ true → self.now.waiting ≡ [] }
        ensures some { result ≡ false → 0 < length self.now.waiting }
    {
        self.handed == self.places.len()
    }

    /// Whether there is room for one more datagram of at most `octets` octets.
    pub fn has_room(&self, octets: usize) -> bool
        ensures { result ≡ has_room octets self.now }
    {
        self.places.len() < MOST_PLACES && octets <= BACKLOG_OCTETS - self.octets.len()
    }

    /// Lets a datagram wait after the others, if there is room, and says whether there was. Its socket
    /// was last found empty at the moment `empty`, in nanoseconds.
    pub fn keep(&mut self, link: u16, octets: &[u8], empty: u64) -> bool
        requires { link ≤ 255 }
        ensures room { result ≡ has_room (length octets.now) self.old }
        ensures kept { self.new ≡ cond result (kept (record { link = link; octets = octets.now; empty = empty }) self.old) self.old }
    {
        if self.places.len() >= MOST_PLACES || octets.len() > BACKLOG_OCTETS - self.octets.len() {
            return false;
        }
        let start = self.octets.len();
        match self.octets.extend_from_slice(octets) {
            Ok(()) => (),
            Err(_) => unreachable!(),
        }
        self.places.push_reserved(Place {
            link,
            start,
            end: self.octets.len(),
            empty,
        });
        true
    }

    /// Hands the first datagram over. A longer one is cut to the buffer. None where none waits.
    pub fn next(&mut self, buf: &mut [u8]) -> Option<ReceivedDatagram>
        ensures link { IfSome result (λ a. a.link ≤ 255) }
        ensures within { IfSome result (λ a. a.count ≤ length buf.old) }
        ensures same_room { length buf.new ≡ length buf.old }
        ensures first { MatchOption result (self.old.waiting ≡ []) (λ a. HandsOver a (length buf.old) buf.new self.old.waiting self.new.waiting) }
        ensures unchanged { result ≡ None → self.new ≡ self.old }
    {
        let place = *self.places.get(self.handed)?;
        let octets = &self.octets[place.start..place.end];
        let count = octets.len().min(buf.len());
        buf[..count].copy_from_slice(&octets[..count]);
        self.pass_over();
        Some(ReceivedDatagram {
            link: place.link,
            count,
            empty: place.empty,
        })
    }

    /// Lets the first datagram wait no more.
    fn pass_over(&mut self)
        requires { 0 < length self.old.waiting }
        ensures { self.new.waiting ≡ drop 1 self.old.waiting }
    {
        self.handed += 1;
        if self.is_empty() {
            self.clear();
        }
    }

    /// Drops all that waits.
    pub fn clear(&mut self)
        ensures { self.new ≡ nothing }
    {
        self.octets.clear();
        self.places.clear();
        self.handed = 0;
    }
}
