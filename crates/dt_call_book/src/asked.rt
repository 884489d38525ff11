//! What is asked of a call book.
ghost use Rattle.std.specs.Prelude.{◌≡◌, ◌<◌, ◌≤◌, ◌^◌, IfOk, MatchOption, OnErr, OnOk, nat_lt, not};
ghost use Rattle.dt_service_model.specs.Asked.{forgotten, is_life_in_use, next_number, raised, with_call};
ghost use Rattle.dt_service_model.specs.Carrying.{carried_by, next_size};
ghost use Rattle.dt_service_model.specs.Ends.{next};
ghost use Rattle.dt_service_model.specs.CallBook.{calls_held};
ghost use Rattle.dt_service_model.specs.Turns.{done_with};
ghost use Rattle.dt_service_model.specs.Whole.{is_open};

use crate::call_book::CallBook;
use dt_items::NoMemory;
use dt_service_model::{CallCounts, CallNumber, Cause, Happening, OpenCall, Token};
use dt_units::Flow;
use std::alloc::Global;

/// What a happening carries: the payload of a request, or an answer.
pub fn carried(happening: &Happening) -> &[u8]
    ensures { result.now ≡ carried_by happening.now }
{
    match happening {
        Happening::Request { payload, .. } => payload.octets.as_slice(),
        Happening::Answered { answer, .. } => answer.octets.as_slice(),
        Happening::Unsure { .. } | Happening::ReplyUncertain { .. } => &[],
    }
}

impl CallBook {
    /// The number of the next call, or none where each number of this life was used: a life is to be
    /// raised then.
    pub fn next_number(&self) -> Option<CallNumber>
        ensures { MatchOption result (2 ^ 32 ≤ self.now.count) (λ number. (self.now.count < 2 ^ 32) × (number ≡ next_number self.now)) }
    {
        if self.count >= 4_294_967_296 {
            return None;
        }
        Some(CallNumber {
            life: self.life,
            count: self.count as u32,
        })
    }

    /// Whether one call more may wait, beside those that wait and the ends that weren't taken.
    pub fn has_room_for_call(&self) -> bool
        ensures { result ≡ nat_lt (calls_held self.now) self.now.most.calls }
    {
        self.calls.waiting().saturating_add(self.happenings.ends()) < self.most.calls as usize
    }

    /// A call is made whose request of so many octets was taken. It waits until the deadline, a moment in
    /// milliseconds. `NoMemory` leaves all as it was.
    pub fn add_call(&mut self, flow: Flow, count: u32, deadline: u64) -> Result<(), NoMemory>
        requires { self.old.count < 2 ^ 32 }
        ensures made { OnOk result (self.new ≡ with_call flow count deadline self.old) }
        ensures same { OnErr result (self.new ≡ self.old) }
    {
        let number = CallNumber {
            life: self.life,
            count: self.count as u32,
        };
        self.calls.push(OpenCall {
            number,
            flow,
            deadline,
            left: count,
            waits: true,
            has_given_up: false,
        })?;
        self.count += 1;
        Ok(())
    }

    /// Whether a request of this name was handed out and has no reply yet.
    pub fn is_open(&self, token: &Token) -> bool
        ensures { result ≡ is_open token.now self.now }
    {
        self.tokens.contains(token)
    }

    /// The token is open no more.
    pub fn forget(&mut self, token: &Token)
        ensures { self.new ≡ forgotten token.now self.old }
    {
        self.tokens.remove(token);
    }

    /// A life is raised, and calls are counted from 0 again. Nothing changes where it is the life of the
    /// node, or of a call that waits; what waits goes on waiting by its own number.
    pub fn raise(&mut self, life: u32) -> bool
        ensures raised { self.new ≡ raised life self.old }
        ensures answer { result ≡ not (is_life_in_use life self.old) }
    {
        if life == self.life || self.calls.is_life_in_use(life) {
            return false;
        }
        self.life = life;
        self.count = 0;
        true
    }

    /// The flows at which something may be unread, in the order in which they came in. The cost is that of
    /// a copy.
    pub fn unread(&self, alloc: Global) -> Result<Vec<Flow>, NoMemory>
        ensures { IfOk result (λ flows. flows.items ≡ self.now.unread) }
    {
        self.unread.to_vec(alloc)
    }

    /// Nothing of a flow is unread.
    pub fn done_with(&mut self, flow: &Flow)
        ensures { self.new ≡ done_with flow.now self.old }
    {
        self.unread.remove(flow);
    }

    /// What was reported first of all that wasn't taken. It is taken with this. Once all is, a closed node
    /// hands out that each call that waited is unsure.
    pub fn next_happening(&mut self) -> Option<Happening>
        ensures first { result ≡ (next self.old).0 }
        ensures others { self.new ≡ (next self.old).1 }
    {
        if let Some(happening) = self.happenings.pop() {
            return Some(happening);
        }
        if !self.closed {
            return None;
        }
        let call = self.calls.pop()?.number;
        let cause = Cause::Closed;
        Some(Happening::Unsure { call, cause })
    }

    /// How many octets what [`CallBook::next_happening`] would take carries, or none where it would take
    /// nothing.
    pub fn next_size(&self) -> Option<usize>
        ensures { result ≡ next_size self.now }
    {
        match self.happenings.front() {
            Some(happening) => Some(carried(happening).len()),
            None if self.closed && !self.calls.is_empty() => Some(0),
            None => None,
        }
    }

    /// How many messages were dropped, by cause.
    pub fn counts(&self) -> CallCounts
        ensures { result ≡ self.now.counts }
    {
        self.counts
    }
}
