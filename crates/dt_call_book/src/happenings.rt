//! What happened at a node and wasn't taken.
ghost use Rattle.std.specs.Prelude.{◌≡◌, ◌<◌, ◌^◌, ◌++◌, ◌∷◌, [], IfOk, MatchOption, OnErr, OnOk, count_by, filter, filter_map, if◌then◌else◌, is_some, length, map, option_copied, slice_get};
ghost use Rattle.std.specs.List.{list_any, position};
ghost use Rattle.dt_service_model.specs.declared.happenings.Happening.TheVariants.{Answered};
ghost use Rattle.dt_service_model.specs.Whole.{is_waiting_call};
ghost use Rattle.dt_open_calls.specs.Slots.{ended_in};
ghost use Rattle.dt_service_model.specs.CallBook.{is_end, is_request};
ghost use Rattle.dt_service_model.specs.Hearing.{is_uncertain};
ghost use Rattle.dt_service_model.specs.Ends.{is_kept, judged_call, unsure_of};

use dt_items::NoMemory;
use dt_open_calls::OpenCalls;
use dt_service_model::{CallNumber, Happening, Payload};
use dt_units::Flow;
use std::alloc::Global;
use std::collections::VecDeque;
use std::marker::Model;

/// What happened and wasn't taken, the first in front. A contract sees the list of it. It is known how many
/// of it are requests, and how many are ends of calls.
#[derive(Drop)]
pub struct Happenings {
    queue: VecDeque<Happening>,
    requests: usize,
    ends: usize,
}

impl Model for Happenings {
    ghost use Rattle.std.specs.Prelude.{◌≡◌, List, count_by};
    ghost use Rattle.dt_service_model.specs.declared.happenings.Happening.{Happening};
    ghost use Rattle.dt_service_model.specs.CallBook.{is_end, is_request};

    ghost Value = { List Happening };

    ghost view = { λ h. h.queue.items };

    ghost invariant = { λ h. (h.requests ≡ count_by is_request h.queue.items) × (h.ends ≡ count_by is_end h.queue.items) };
}

fn is_request(happening: &Happening) -> bool
    ensures { result ≡ is_request happening.now }
{
    match happening {
        Happening::Request { .. } => true,
        Happening::Answered { .. } | Happening::Unsure { .. } | Happening::ReplyUncertain { .. } =>
            false,
    }
}

fn is_end(happening: &Happening) -> bool
    ensures { result ≡ is_end happening.now }
{
    match happening {
        Happening::Answered { .. } | Happening::Unsure { .. } => true,
        Happening::Request { .. } | Happening::ReplyUncertain { .. } => false,
    }
}

fn is_uncertain(flow: &Flow, happening: &Happening) -> bool
    ensures { result ≡ is_uncertain flow.now happening.now }
{
    match happening {
        Happening::ReplyUncertain { flow: other } => *other == *flow,
        Happening::Request { .. } | Happening::Answered { .. } | Happening::Unsure { .. } => false,
    }
}

/// Whether it is among these that replies to requests of a flow are uncertain.
fn is_told(flow: &Flow, happenings: &VecDeque<Happening>) -> bool
    ensures { result ≡ list_any (is_uncertain flow.now) happenings.now.items }
{
    happenings.iter().any(|h| is_uncertain(flow, h))
}

impl Happenings {
    /// Nothing happened.
    pub fn new(alloc: Global) -> Happenings
        ensures { result ≡ [] }
    {
        Happenings {
            queue: VecDeque::new(alloc),
            requests: 0,
            ends: 0,
        }
    }

    /// How many requests wait to be taken.
    pub fn requests(&self) -> usize
        ensures { result ≡ count_by is_request self.now }
    {
        self.requests
    }

    /// How many ends of calls wait to be taken.
    pub fn ends(&self) -> usize
        ensures ends { result ≡ count_by is_end self.now }
        ensures small { result < 2 ^ 63 }
    {
        self.ends
    }

    /// What is in front of all.
    pub fn front(&self) -> Option<&Happening>
        ensures { option_copied result ≡ slice_get self.now 0 }
    {
        self.queue.front()
    }

    /// Whether it waits to be taken that replies to requests of a flow are uncertain. The cost is a look at
    /// each happening, where there are others than requests and ends of calls.
    pub fn tells_uncertain(&self, flow: &Flow) -> bool
        ensures { result ≡ list_any (is_uncertain flow.now) self.now }
    {
        if self.queue.len() <= self.requests + self.ends {
            return false;
        }
        is_told(flow, &self.queue)
    }

    /// It happened. `NoMemory` leaves all as it was.
    pub fn push(&mut self, happening: Happening) -> Result<(), NoMemory>
        ensures told { OnOk result (self.new ≡ self.old ++ happening ∷ []) }
        ensures same { OnErr result (self.new ≡ self.old) }
    {
        let (is_request, is_end) = (is_request(&happening), is_end(&happening));
        self.queue.push_back(happening)?;
        self.requests += usize::from(is_request);
        self.ends += usize::from(is_end);
        Ok(())
    }

    /// What is in front of all is taken.
    pub fn pop(&mut self) -> Option<Happening>
        ensures { MatchOption result ((self.old ≡ []) × (self.new ≡ [])) (λ first. self.old ≡ first ∷ self.new) }
    {
        let happening = self.queue.pop_front()?;
        self.requests -= usize::from(is_request(&happening));
        self.ends -= usize::from(is_end(&happening));
        Some(happening)
    }

    /// The first call of this number that waits on a flow has its end, with this answer. Answers whether there is
    /// one. `NoMemory` leaves all as it was.
    pub fn answer(
        &mut self,
        calls: &mut OpenCalls,
        flow: &Flow,
        call: CallNumber,
        answer: Payload,
    ) -> Result<bool, NoMemory>
        ensures ended { IfOk result (λ is_ended. is_ended ≡ is_some (position (is_waiting_call flow.now call) calls.old)) }
        ensures calls { OnOk result (calls.new ≡ ended_in (position (is_waiting_call flow.now call) calls.old) calls.old) }
        ensures told { IfOk result (λ is_ended. self.new ≡ (if is_ended then self.old ++ Answered call answer ∷ [] else self.old)) }
        ensures same_calls { OnErr result (calls.new ≡ calls.old) }
        ensures same_told { OnErr result (self.new ≡ self.old) }
    {
        self.queue.reserve(1)?;
        if !calls.end_waiting(flow, call) {
            return Ok(false);
        }
        self.queue
            .push_back_reserved(Happening::Answered { call, answer });
        self.ends += 1;
        Ok(true)
    }

    /// Each call is judged at a moment: those that are unsure are reported, and what has come to its end is
    /// kept no more. `NoMemory` leaves all as it was.
    pub fn judge(&mut self, now: u64, calls: &mut OpenCalls) -> Result<(), NoMemory>
        ensures calls { OnOk result (calls.new ≡ filter is_kept (map (judged_call now) calls.old)) }
        ensures told { OnOk result (self.new ≡ self.old ++ filter_map (unsure_of now) calls.old) }
        ensures same_calls { OnErr result (calls.new ≡ calls.old) }
        ensures same_told { OnErr result (self.new ≡ self.old) }
    {
        let before = self.queue.len();
        calls.judge(now, &mut self.queue)?;
        self.ends += self.queue.len() - before;
        Ok(())
    }
}
