//! The open calls of a caller.
ghost use Rattle.std.specs.Prelude.{ℕ, ◌≡◌, ◌+◌, ◌-◌, ◌++◌, ◌∷◌, ◌&&◌, ◌==◌, ◌^◌, ◌<◌, [], IfOk, OnErr, OnOk, Some, count_by, filter, filter_map, is_some, length, map, not, set};
ghost use Rattle.std.specs.List.{list_any, position};
ghost use Rattle.dt_world_model.specs.Host.{one_if};
ghost use Rattle.dt_world_model.specs.Tables.{earliest};
ghost use Rattle.dt_table.specs.Places.{present, slot};
ghost use Rattle.dt_service_model.specs.declared.calls.OpenCall.{OpenCall};
ghost use Rattle.dt_service_model.specs.Ends.{is_kept, judged_call, unsure_of};
ghost use Rattle.dt_service_model.specs.Hearing.{with_fates};
ghost use Rattle.dt_service_model.specs.Turns.{deadline_of};
ghost use Rattle.dt_service_model.specs.Whole.{is_waiting_call, waits_anywhere};
ghost use Rattle.dt_open_calls.specs.Slots.{AreDue, Each, IsNoLater, block_of, due_at, ended_in, ended_slot, first_of, rest_of, slot_is};

use crate::call_index::CallIndex;
use crate::fates::{Fate, is_done, settle_fates, touch_slot};
use crate::judging;
use crate::search::{find_waiting, waits_in};
use crate::slots::{self, count_taken, next_taken, take_at, waits_with};
use crate::spans::{forget_number, narrow_flow};
use dt_items::NoMemory;
use dt_service_model::{CallNumber, Happening, OpenCall};
use dt_units::Flow;
use std::alloc::Global;
use std::collections::VecDeque;
use std::marker::Model;

/// The calls that wait, and those that ended with octets that have no fate yet. A contract sees their list, in
/// the order of making.
///
/// Each is in a place of its own, and one that goes leaves its place empty. A call is found by its number and
/// by its flow at a cost that doesn't grow, while numbers are distinct and the calls of a flow that wait for a
/// fate are near one another. What is due is sought in blocks of 64 places, of which one is passed over by a
/// look at one moment.
#[derive(Drop)]
pub struct OpenCalls {
    alloc: Global,
    slots: Vec<Option<OpenCall>>,
    waiting: usize,
    /// With so many places it is looked whether half of them are empty.
    full: usize,
    index: CallIndex,
}

impl Model for OpenCalls {
    ghost use Rattle.std.specs.Prelude.{List};
    ghost use Rattle.dt_service_model.specs.declared.calls.OpenCall.{OpenCall};
    ghost use Rattle.dt_table.specs.Places.{present};
    ghost use Rattle.dt_open_calls.specs.Slots.{AreKept};

    ghost Value = { List OpenCall };

    ghost view = { λ o. present o.slots.items };

    ghost invariant = { λ o. AreKept o.waiting o.index.first o.index.dues.items o.index.numbers.entries o.index.flows.entries o.slots.items };
}

/// The fewest places at which it is looked whether half of them are empty.
const FEW: usize = 64;

/// One call more waits, if it does.
fn with_one(waiting: usize, call: &OpenCall) -> usize
    requires { waiting < 2 ^ 63 }
    ensures { result ≡ waiting + one_if call.now.waits }
{
    if call.waits { waiting + 1 } else { waiting }
}

/// One call less waits, if it did.
fn without_one(waiting: usize, call: &OpenCall) -> usize
    ensures { result ≡ waiting - one_if call.now.waits }
{
    if call.waits {
        waiting.saturating_sub(1)
    } else {
        waiting
    }
}

fn end_slot(slot: &mut Option<OpenCall>)
    ensures { slot.new ≡ ended_slot slot.old }
{
    if let Some(call) = slot {
        call.waits = false;
    }
}

/// The call in a place has its end.
fn end_at(place: usize, slots: &mut Vec<Option<OpenCall>>, dues: &mut Vec<u64>)
    requires within { place < length slots.old.items }
    requires due { AreDue dues.old.items slots.old.items }
    ensures slots { slots.new.items ≡ set slots.old.items place (ended_slot (slot slots.old.items place)) }
    ensures due { AreDue dues.new.items slots.new.items }
{
    end_slot(&mut slots[place]);
    touch_slot(dues, place, &slots[place]);
}

/// What is in a place comes after all others.
fn add_slot(packed: &mut OpenCalls, slot: &Option<OpenCall>) -> Result<(), NoMemory>
    ensures { OnOk result (packed.new ≡ packed.old ++ present (slot.now ∷ [])) }
{
    match slot {
        Some(call) => packed.add(*call),
        None => Ok(()),
    }
}

/// The calls in these places, without empty ones.
fn packed(alloc: Global, slots: &[Option<OpenCall>]) -> Result<OpenCalls, NoMemory>
    ensures { IfOk result (λ packed. packed ≡ present slots.now) }
{
    let mut packed = OpenCalls::new(alloc);
    for place in 0..slots.len() {
        add_slot(&mut packed, &slots[place])?;
    }
    packed.full = packed.slots.len().saturating_mul(2).max(FEW);
    Ok(packed)
}

impl OpenCalls {
    /// No calls. It takes no memory; what later calls take is taken of `alloc`.
    pub fn new(alloc: Global) -> OpenCalls
        ensures { result ≡ [] }
    {
        OpenCalls {
            alloc,
            slots: Vec::new(alloc),
            waiting: 0,
            full: FEW,
            index: CallIndex::new(alloc),
        }
    }

    /// A call comes after all others. `NoMemory` leaves all as it was.
    pub fn push(&mut self, call: OpenCall) -> Result<(), NoMemory>
        ensures made { OnOk result (self.new ≡ self.old ++ call ∷ []) }
        ensures same { OnErr result (self.new ≡ self.old) }
    {
        self.close_up();
        self.add(call)
    }

    fn add(&mut self, call: OpenCall) -> Result<(), NoMemory>
        ensures made { OnOk result (self.new ≡ self.old ++ call ∷ []) }
        ensures same { OnErr result (self.new ≡ self.old) }
    {
        let place = self.slots.len();
        self.index.add(place, &call)?;
        self.slots.push(Some(call))?;
        self.waiting = with_one(self.waiting, &call);
        Ok(())
    }

    /// Where half of the places are empty or more, the calls close up, if there is memory. It is looked when
    /// there are twice as many places as there were calls before.
    fn close_up(&mut self)
        ensures { self.new ≡ self.old }
    {
        let places = self.slots.len();
        if places < self.full {
            return;
        }
        self.full = places.saturating_mul(2);
        if count_taken(&self.slots) > places / 2 {
            return;
        }
        if let Ok(packed) = packed(self.alloc, &self.slots) {
            *self = packed;
        }
    }

    /// How many of them wait.
    pub fn waiting(&self) -> usize
        ensures { result ≡ count_by (λ (call : OpenCall). call.waits) self.now }
    {
        self.waiting
    }

    /// Whether there are none.
    pub fn is_empty(&self) -> bool
        ensures { result ≡ not (is_some (first_of self.now)) }
    {
        next_taken(self.index.first, &self.slots) >= self.slots.len()
    }

    /// Whether a call with this life waits. The cost is a look at each.
    pub fn is_life_in_use(&self, life: u32) -> bool
        ensures { result ≡ list_any (λ (call : OpenCall). call.waits && (call.number.life == life)) self.now }
    {
        waits_with(life, &self.slots)
    }

    /// Whether a call of this number waits.
    pub fn waits_anywhere(&self, number: CallNumber) -> bool
        ensures { result ≡ waits_anywhere number self.now }
    {
        match self.index.numbers.get(&number.to_u64()) {
            Some(span) => waits_in(number, *span, &self.slots),
            None => false,
        }
    }

    /// The first call of this number that waits on this flow has its end. Answers whether there is one.
    pub fn end_waiting(&mut self, flow: &Flow, number: CallNumber) -> bool
        ensures found { result ≡ is_some (position (is_waiting_call flow.now number) self.old) }
        ensures ended { self.new ≡ ended_in (position (is_waiting_call flow.now number) self.old) self.old }
    {
        let Some(span) = self.index.numbers.get(&number.to_u64()).copied() else {
            return false;
        };
        let Some(place) = find_waiting(flow, number, span, &self.slots) else {
            return false;
        };
        end_at(place, &mut self.slots, &mut self.index.dues);
        self.waiting = self.waiting.saturating_sub(1);
        forget_number(&mut self.index.numbers, number.to_u64(), span, place);
        true
    }

    /// So many octets of a flow have their fate, the leftmost first.
    pub fn with_fates(&mut self, given_up: bool, flow: &Flow, count: u32)
        ensures { self.new ≡ with_fates given_up flow.now count self.old }
    {
        let Some(span) = self.index.flows.get(flow).copied() else {
            return;
        };
        let fate = Fate {
            given_up,
            flow: *flow,
            count,
        };
        let first = settle_fates(&fate, span, &mut self.slots, &mut self.index.dues);
        let done = is_done(flow, first, span.last, &self.slots);
        narrow_flow(&mut self.index.flows, flow, first, done);
    }

    /// Each call is judged at a moment: those that are unsure are reported, in the order of making, and what
    /// has come to its end is kept no more. `NoMemory` leaves all as it was.
    pub fn judge(&mut self, now: u64, happenings: &mut VecDeque<Happening>) -> Result<(), NoMemory>
        ensures calls { OnOk result (self.new ≡ filter is_kept (map (judged_call now) self.old)) }
        ensures told { OnOk result (happenings.new.items ≡ happenings.old.items ++ filter_map (unsure_of now) self.old) }
        ensures same_calls { OnErr result (self.new ≡ self.old) }
        ensures same_told { OnErr result (happenings.new.items ≡ happenings.old.items) }
    {
        happenings.reserve(self.waiting)?;
        let before = happenings.len();
        judging::judge_slots(now, &self.index.dues, &mut self.slots, happenings);
        judging::renew_dues(now, &self.slots, &mut self.index.dues);
        let unsure = happenings.len().saturating_sub(before);
        self.waiting = self.waiting.saturating_sub(unsure);
        Ok(())
    }

    /// The least deadline of those that wait.
    pub fn deadline(&self) -> Option<u64>
        ensures { result ≡ earliest deadline_of self.now }
    {
        judging::deadline(&self.index.dues, &self.slots)
    }

    /// The calls that wait are kept. It takes no memory, and its cost is a look at each.
    pub fn keep_waiting(&mut self)
        ensures { self.new ≡ filter (λ (call : OpenCall). call.waits) self.old }
    {
        slots::keep_waiting(&mut self.slots);
        self.index.first = next_taken(self.index.first, &self.slots);
    }

    /// Takes the first of them.
    pub fn pop(&mut self) -> Option<OpenCall>
        ensures first { result ≡ first_of self.old }
        ensures others { self.new ≡ rest_of self.old }
    {
        let place = next_taken(self.index.first, &self.slots);
        let Some(call) = take_at(place, &mut self.slots) else {
            return None;
        };
        self.waiting = without_one(self.waiting, &call);
        self.index.first = next_taken(self.index.first, &self.slots);
        Some(call)
    }
}
