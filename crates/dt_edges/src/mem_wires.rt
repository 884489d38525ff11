//! The wire in memory.
ghost use Rattle.std.specs.Prelude.{◌≡◌, ◌≢◌, ◌≤◌, ◌<◌, ◌↔◌, ◌||◌, ◌++◌, ◌∷◌, [], None, Some, length, slice_get, AllPairs, IfOk, OnOk, OnErr, IfSome, IsSome, IsErr, IsTrue, MatchOption};
ghost use Rattle.std.specs.Option.{option_map};
ghost use Rattle.dt_edges.specs.Counts.{is_planned, last_count};
ghost use Rattle.dt_edges.specs.Wires.{fresh_wire, handed, cut_to, entry_at, lacks_room, kept_given, opened_after, taken_after, given_after};

use crate::addresses::{Address, Peer};
use crate::failures::Failed;
use crate::mem_inboxes::MemInbox;
use crate::mem_outboxes::MemOutbox;
use crate::planning::fails;
use crate::wires::Wire;
use dt_items::NoMemory;
use std::alloc::Global;
use std::marker::Model;

/// How many peers a wire in memory has room for: as many as there are links.
const PEERS: usize = 256;

/// A wire over memory. Takes find the entries that were added, one after another, and then nothing.
/// Calls fail where they are told to. With a room it keeps and tells what gives have taken, and a give
/// that finds no room fails, too; without one it keeps nothing of them, and tells its plan.
#[derive(Drop)]
pub struct MemWire {
    local: Option<Address>,
    peers: Vec<Peer>,
    /// The last opening had more peers than there is room for.
    overflowed: bool,
    open_fails: bool,
    failing_takes: Vec<u64>,
    failing_gives: Vec<u64>,
    inbox: MemInbox,
    outbox: Option<MemOutbox>,
    takes: u64,
    gives: u64,
    take_faults: u64,
    give_faults: u64,
    opens: u64,
    last_wait: Option<u32>,
}

impl Model for MemWire {
    ghost use Rattle.std.specs.Prelude.{◌<◌, ◌≤◌, vec_capacity, None, Some, IsSome, if◌then◌else◌, nat_lt};
    ghost use Rattle.std.specs.Option.{option_map};
    ghost use Rattle.dt_edges.specs.Counts.{last_count};
    ghost use Rattle.dt_edges.specs.Wires.{WireInMemory, most_told_peers};

    ghost Value = { WireInMemory };

    ghost view = { λ w. record {
      opening = if w.overflowed then None else Some (option_map (λ local. record { local = local; peers = w.peers.items }) w.local);
      open_fails = w.open_fails;
      failing_takes = w.failing_takes.items;
      failing_gives = w.failing_gives.items;
      entries = w.inbox.entries;
      used = w.inbox.used;
      taken = if nat_lt w.takes last_count then w.inbox.taken else None;
      departures = w.outbox;
      takes = w.takes;
      gives = w.gives;
      take_faults = w.take_faults;
      give_faults = w.give_faults;
      opens = w.opens;
      last_wait = w.last_wait;
    } };

    ghost invariant = { λ w. record {
      room : most_told_peers ≤ vec_capacity w.peers;
      counted : w.inbox.answered ≤ w.takes;
      told : w.inbox.answered < last_count → IsSome w.inbox.taken;
    } };
}

impl MemWire {
    /// A wire that isn't open, on which nothing comes. `open_fails` has each open fail; the lists name
    /// the takes and the gives that fail, the first of a kind being number 1. A room is the number of
    /// octets that gives may take in all, and the most datagrams; a give that finds no room fails too.
    /// Takes memory for 256 peers and for the room at once.
    pub fn new(
        alloc: Global,
        open_fails: bool,
        failing_takes: &[u64],
        failing_gives: &[u64],
        room: Option<usize>,
    ) -> Result<Self, NoMemory>
        ensures { IfOk result (λ wire. wire ≡ fresh_wire
            (record { entries = []; failing_takes = failing_takes.now; failing_gives = failing_gives.now; open_fails = open_fails })
            (option_map (λ room. record { room = room; given = [] }) room)) }
    {
        let outbox = match room {
            Some(room) => Some(MemOutbox::with_room(alloc, room)?),
            None => None,
        };
        Ok(MemWire {
            local: None,
            peers: Vec::with_capacity(alloc, PEERS)?,
            overflowed: false,
            open_fails,
            failing_takes: Vec::from_slice(alloc, failing_takes)?,
            failing_gives: Vec::from_slice(alloc, failing_gives)?,
            inbox: MemInbox::new(alloc),
            outbox,
            takes: 0,
            gives: 0,
            take_faults: 0,
            give_faults: 0,
            opens: 0,
            last_wait: None,
        })
    }

    /// Appends an entry to those that the takes find: a datagram of a link, 0 to 255. Each take that
    /// doesn't fail uses the next entry, and hands its datagram over, cut to its buffer. Takes memory;
    /// without it the wire stays as it was.
    pub fn add_take(&mut self, link: u16, bytes: &[u8]) -> Result<(), NoMemory>
        requires { link ≤ 255 }
        ensures added { OnOk result (self.new ≡ record self.old { entries = self.old.entries ++ Some (record { link = link; octets = bytes.now }) ∷ [] }) }
        ensures unchanged { OnErr result (self.new ≡ self.old) }
    {
        self.inbox.add(link, bytes)
    }

    /// Appends an entry to those that the takes find: nothing. Takes memory; without it the wire stays
    /// as it was.
    pub fn add_nothing(&mut self) -> Result<(), NoMemory>
        ensures added { OnOk result (self.new ≡ record self.old { entries = self.old.entries ++ None ∷ [] }) }
        ensures unchanged { OnErr result (self.new ≡ self.old) }
    {
        self.inbox.add_nothing()
    }

    /// The datagram of this number, counted from 0, among those that gives have taken: its link and
    /// its octets. None where there are fewer, or where the wire has no room and keeps none.
    pub fn given(&self, number: usize) -> Option<(u16, &[u8])>
        ensures { MatchOption result (slice_get (kept_given self.now.departures) number ≡ None) (λ d. slice_get (kept_given self.now.departures) number ≡ Some (record { link = d.0; octets = d.1.now })) }
    {
        match &self.outbox {
            Some(outbox) => outbox.get(number),
            None => None,
        }
    }
}

impl Wire for MemWire {
    ghost use Rattle.std.proofs.Math.Nat.{min-le_right};
    ghost use Rattle.dt_edges.specs.Counts.{last_count};
    ghost use Rattle.dt_edges.specs.Wires.{wire_in_memory};

    ghost sight = { wire_in_memory };

    ghost bounded = { λ w. record {
      takes = min-le_right w.takes last_count;
      gives = min-le_right w.gives last_count;
      take_faults = min-le_right w.take_faults last_count;
      give_faults = min-le_right w.give_faults last_count;
      opens = min-le_right w.opens last_count;
    } };

    /// Fails exactly where the wire was told so. It tells the opening of up to 256 peers; an opening
    /// with more isn't told. Takes no memory.
    fn open(&mut self, local: Address, peers: &[Peer]) -> Result<(), Failed>
        requires { AllPairs (λ (p : _) (q : _). p.link ≢ q.link) peers.now }
        ensures planned { IsErr result ↔ IsTrue self.old.open_fails }
        ensures after { self.new ≡ opened_after result (record { local = local; peers = peers.now }) self.old }
    {
        self.opens = self.opens.saturating_add(1);
        if self.open_fails {
            self.take_faults = self.take_faults.saturating_add(1);
            return Err(Failed);
        }
        self.local = Some(local);
        self.peers.clear();
        self.overflowed = peers.len() > PEERS;
        if !self.overflowed {
            match self.peers.extend_from_slice(peers) {
                Ok(()) => (),
                Err(_) => unreachable!(),
            }
        }
        Ok(())
    }

    /// Fails exactly where the number of this call is listed. Else it uses the next entry, and hands
    /// its datagram over, cut to the buffer; `None` comes where that entry is nothing or the entries
    /// are used up. It doesn't wait, and says how long it was to.
    fn take(&mut self, wait_ms: u32, buf: &mut [u8]) -> Result<Option<(u16, usize)>, Failed>
        requires some_wait { 1 ≤ wait_ms }
        requires short_wait { wait_ms ≤ 1000 }
        requires room { 0 < length buf.old }
        ensures planned { IsErr result ↔ IsTrue (is_planned self.old.failing_takes self.new.takes) }
        ensures link { IfOk result (λ t. IfSome t (λ d. d.0 ≤ 255)) }
        ensures within { IfOk result (λ t. IfSome t (λ d. d.1 ≤ length buf.old)) }
        ensures found { IfOk result (λ t. handed t buf.new ≡ cut_to (length buf.old) (entry_at self.old.entries self.old.used)) }
        ensures tells { self.new.takes < last_count → IsSome self.new.taken }
        ensures after { self.new ≡ taken_after result wait_ms (length buf.old) self.old }
    {
        self.last_wait = Some(wait_ms);
        self.takes = self.takes.saturating_add(1);
        if fails(&self.failing_takes, self.takes) {
            self.take_faults = self.take_faults.saturating_add(1);
            return Err(Failed);
        }
        Ok(self.inbox.next(buf))
    }

    /// Fails exactly where the number of this call is listed, or where the wire has a room and the
    /// datagram finds none: its octets with those of all before it are more than the room, or as many
    /// datagrams were taken.
    fn give(&mut self, link: u16, octets: &[u8]) -> Result<(), Failed>
        ensures planned { IsErr result ↔ IsTrue (is_planned self.old.failing_gives self.new.gives || lacks_room self.old.departures (length octets.now)) }
        ensures after { self.new ≡ given_after result (record { link = link; octets = octets.now }) self.old }
    {
        self.gives = self.gives.saturating_add(1);
        let failed = fails(&self.failing_gives, self.gives);
        let kept = match &mut self.outbox {
            Some(outbox) if !failed => outbox.keep(link, octets),
            _ => true,
        };
        if failed || !kept {
            self.give_faults = self.give_faults.saturating_add(1);
            return Err(Failed);
        }
        Ok(())
    }
}
