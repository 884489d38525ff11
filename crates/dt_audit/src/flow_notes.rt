//! What is kept of one flow.
ghost use Rattle.std.specs.Prelude.{◌≡◌, ◌+◌, ◌-◌, ◌<◌, ◌≤◌, ◌^◌, ◌==◌, ◌||◌, ◌&&◌, not, nat_le, nat_lt, max, if◌then◌else◌, IfOk, IfSome};
ghost use Rattle.dt_units.specs.Numbers.{number_after, number_distance};
ghost use Rattle.dt_audit.specs.FlowNotes.{goes_on, in_life, is_reported, no_notes, note, note_accepted, note_acknowledged, note_at, note_given_up, note_sent, notes_after, was_sent};
ghost use Rattle.dt_audit.specs.LogRows.{place_back};
ghost use Rattle.dt_audit.specs.Noting.{NotesTo};

use crate::flaws::{Flaw, Promise};
use crate::flow_facts::{FlowFact, Lives};
use crate::gaps::{Gap, is_among, remember};
use dt_items::NoMemory;
use std::alloc::Global;
use std::marker::Model;

/// What is enough to know of a flow's octets, which are counted by places from 0 on over all lives of
/// its sender. Those of the present life come last. Of them the leftmost have a fate and all others
/// are open, and the leftmost were sent and all others weren't. So a few numbers stand for all of
/// them, and 16 octets of memory for each earlier life in which some weren't sent.
#[derive(Drop)]
pub struct FlowNotes {
    /// The sender's life that was last spoken of.
    life: u32,
    /// How many octets were taken.
    taken: u64,
    /// The place from which on they are open in this life.
    open_from: u64,
    /// The place from which on they weren't sent in this life.
    unsent_from: u64,
    /// The place after the last one that was sent.
    edge: u64,
    /// The sequence number after that of the last one that was sent.
    next: u32,
    /// The place after the last one that was accepted, or 0.
    top: u64,
    /// The receiver's life in which it was accepted.
    given_life: u32,
    /// Which places of earlier lives weren't sent.
    gaps: Vec<Gap>,
}

impl Model for FlowNotes {
    ghost use Rattle.std.specs.Prelude.{◌≤◌, ◌^◌};
    ghost use Rattle.dt_audit.specs.FlowNotes.{Notes, Rise, gaps_end};

    ghost Value = { Notes };

    ghost view = { λ n. record { life = n.life; taken = n.taken; open_from = n.open_from; unsent_from = n.unsent_from; edge = n.edge; next = n.next; top = n.top; given_life = n.given_life; gaps = n.gaps.items } };

    ghost invariant = { λ n. (n.taken ≤ 2 ^ 62) × (n.open_from ≤ n.taken) × (n.unsent_from ≤ n.taken) × (n.edge ≤ n.taken) × Rise 0 n.gaps.items × (gaps_end 0 n.gaps.items ≤ n.unsent_from) };
}

impl FlowNotes {
    /// Nothing was said of the flow. What later calls take is taken of `alloc`.
    pub fn new(alloc: Global) -> FlowNotes
        ensures { result ≡ no_notes }
    {
        FlowNotes {
            life: 0,
            taken: 0,
            open_from: 0,
            unsent_from: 0,
            edge: 0,
            next: 0,
            top: 0,
            given_life: 0,
            gaps: Vec::new(alloc),
        }
    }

    /// The sender is in this life. Where it is another than before, the octets of before are of an
    /// earlier one, and those that weren't sent are remembered, which takes memory.
    fn begin(&mut self, life: u32) -> Result<(), NoMemory>
        ensures life { IfOk result (λ _. self.new ≡ in_life life self.old) }
        ensures taken { self.new.taken ≡ self.old.taken }
    {
        if self.life == life {
            return Ok(());
        }
        remember(&mut self.gaps, self.unsent_from, self.taken)?;
        self.life = life;
        self.open_from = self.taken;
        self.unsent_from = self.taken;
        Ok(())
    }

    /// `count` octets more are taken.
    fn count_taken(&mut self, count: u32)
        requires { self.old.taken + count ≤ 2 ^ 62 }
        ensures { self.new ≡ record self.old { taken = self.old.taken + count } }
    {
        self.taken += u64::from(count);
    }

    /// `length` octets go out for the first time, from this sequence number on.
    fn send(&mut self, number: u32, length: u32) -> Option<Flaw>
        ensures notes { NotesTo (note_sent number length self.old) (Ok result) self.new }
        ensures taken { self.new.taken ≡ self.old.taken }
    {
        if self.taken - self.unsent_from < u64::from(length) {
            return Some(Flaw::Stray);
        }
        self.unsent_from += u64::from(length);
        if length > 0 {
            self.edge = self.unsent_from;
        }
        self.next = number.wrapping_add(length);
        None
    }

    /// `count` octets are given up.
    fn give_up(&mut self, count: u32) -> Option<Flaw>
        ensures notes { NotesTo (note_given_up count self.old) (Ok result) self.new }
        ensures taken { self.new.taken ≡ self.old.taken }
    {
        if self.taken - self.open_from < u64::from(count) {
            return Some(Flaw::Stray);
        }
        self.open_from += u64::from(count);
        None
    }

    /// `count` octets are acknowledged: each of them was accepted.
    fn acknowledge(&mut self, count: u32) -> Option<Flaw>
        ensures notes { NotesTo (note_acknowledged count self.old) (Ok result) self.new }
        ensures taken { self.new.taken ≡ self.old.taken }
    {
        if self.taken - self.open_from < u64::from(count) {
            return Some(Flaw::Stray);
        }
        let end = self.open_from + u64::from(count);
        if count > 0 && end > self.top {
            return Some(Flaw::Breaks(Promise::AcknowledgedIsGiven));
        }
        self.open_from = end;
        None
    }

    /// Whether the octet of a place was sent. The cost grows with the logarithm of the number of gaps.
    fn was_sent(&self, place: u64) -> bool
        ensures { result ≡ was_sent place self.now }
    {
        place < self.unsent_from && !is_among(&self.gaps, place)
    }

    /// The place of a sequence number, counted back from the last octet that was sent. It is `None`
    /// where no octet stands there.
    fn place_of(&self, number: u32) -> Option<u64>
        ensures value { result ≡ place_back self.now.edge (number_distance self.now.next number) }
        ensures within { IfSome result (λ place. place ≤ 2 ^ 62) }
    {
        let back = u64::from(self.next.wrapping_sub(number));
        (back <= self.edge).then(|| self.edge - back)
    }

    /// Whether a place follows the last one that was accepted, in the same life of the receiver.
    fn goes_on(&self, life: u32, place: u64) -> bool
        ensures { result ≡ goes_on life place self.now }
    {
        self.top > 0 && self.top == place && self.given_life == life
    }

    /// `length` octets are accepted, from a place on that was sent.
    fn accept(&mut self, life: u32, run: bool, place: u64, length: u32) -> Option<Flaw>
        requires { place ≤ 2 ^ 62 }
        ensures notes { NotesTo (note_accepted life run place length self.old) (Ok result) self.new }
        ensures taken { self.new.taken ≡ self.old.taken }
    {
        if place < self.top {
            return Some(Flaw::Breaks(Promise::InOrder));
        }
        if !run && !self.goes_on(life, place) {
            return Some(Flaw::Breaks(Promise::RunsUnbroken));
        }
        if place > self.top.max(self.open_from) {
            return Some(Flaw::Breaks(Promise::SkipsReported));
        }
        if length > 0 {
            self.top = place + u64::from(length);
            self.given_life = life;
        }
        None
    }

    /// `length` octets are accepted, the first of them with this sequence number.
    fn accept_number(&mut self, life: u32, number: u32, length: u32, run: bool) -> Option<Flaw>
        ensures notes { NotesTo (note life (FlowFact.Accepted number length run) self.old) (Ok result) self.new }
        ensures taken { self.new.taken ≡ self.old.taken }
    {
        let place = match self.place_of(number) {
            Some(place) => place,
            None => return Some(Flaw::Stray),
        };
        if !self.was_sent(place) || !self.was_sent((place + u64::from(length)).saturating_sub(1)) {
            return Some(Flaw::Stray);
        }
        self.accept(life, run, place, length)
    }

    /// What a line says of the flow, by the lives of its nodes; or the flaw of the line, after which
    /// the notes are of no use. Memory is taken only where the sender is in another life than before.
    pub fn follow(&mut self, lives: Lives, change: FlowFact) -> Result<Option<Flaw>, NoMemory>
        requires room { self.old.taken ≤ 2 ^ 61 }
        ensures notes { NotesTo (notes_after lives change self.old) result self.new }
        ensures grows { self.new.taken ≤ self.old.taken + 4294967295 }
    {
        self.begin(lives.sender)?;
        match change {
            FlowFact::Took { count } => {
                self.count_taken(count);
                Ok(None)
            }
            FlowFact::Sent { number, length } => Ok(self.send(number, length)),
            FlowFact::Settled { count } => Ok(self.acknowledge(count)),
            FlowFact::Uncertain { count } => Ok(self.give_up(count)),
            FlowFact::Accepted {
                number,
                length,
                run,
            } => { Ok(self.accept_number(lives.receiver, number, length, run)) }
        }
    }
}
