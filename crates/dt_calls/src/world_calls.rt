//! The calls of a world.
ghost use Rattle.std.specs.Prelude.{◌≡◌, ◌<◌, ◌≤◌, false, length, IfOk};
ghost use Rattle.dt_notes.specs.Events.{event_of};
ghost use Rattle.dt_calls_laws.specs.Grown.{IsNoSendOrRead};
ghost use Rattle.dt_calls_model.specs.Calls.{call_at, new_calls};
ghost use Rattle.dt_calls_model.specs.CallRuns.{totals_of};
ghost use Rattle.dt_calls_model.specs.CallStep.{Happens, Makes};
ghost use Rattle.dt_calls_model.specs.Promises.{AreServedOnce};
ghost use Rattle.dt_calls.specs.CallOutcomes.{Answers, IsNew, MayCome, call_event};
ghost use Rattle.dt_call_parts.specs.Totals.{totals_seen};

use crate::call_courses::CallCourse;
use crate::call_events::CallEvent;
use dt_call_parts::{CallLines, CallTotals, Due, Handler, totals_of};
use dt_calls_model::CallState;
use dt_items::NoMemory;
use dt_notes::Event;
use dt_reports::StepFault;
use dt_units::Flow;
use dt_world::World;
use std::alloc::Global;
use std::marker::Model;

/// Calls over a world. Between two steps nothing is unread at a flow with a call, and its stations have
/// done what is due. A contract sees the definition's calls, who answers them, and whether they are
/// spent.
#[derive(Drop)]
pub struct Calls<H: Handler> {
    course: CallCourse<H>,
}

impl<H: Handler> Model for Calls<H> {
    ghost use Rattle.std.specs.Prelude.{◌≡◌, false};
    ghost use Rattle.dt_calls_model.specs.CallFacts.{CallFacts};
    ghost use Rattle.dt_calls.specs.CallCourses.{calls_value};
    ghost use Rattle.dt_calls.specs.CallOutcomes.{CallsValue};

    ghost Value = { CallsValue H };

    ghost view = { λ c. calls_value c.course };

    ghost invariant = { λ c. c.course.spent ≡ false → CallFacts (H.answer c.course.handler) c.course.calls };
}

impl<H: Handler> Calls<H> {
    /// No calls yet, over a world that has made no step. `NoMemory` where there is none.
    pub fn new(alloc: Global, world: World, handler: H) -> Result<Calls<H>, NoMemory>
        requires new { IsNew world.state }
        requires unspent { world.spent ≡ false }
        ensures { IfOk result (λ calls. calls ≡ record { calls = new_calls world.state; handler = handler; spent = false }) }
    {
        Ok(Calls {
            course: CallCourse::new(alloc, world, handler),
        })
    }

    /// A call is made, or an event of the world comes; then all messages are read, and the calls that
    /// wait are judged. The payload has 1 to 65,528 octets.
    ///
    /// Refused, and then nothing is reported or changed: `BadFlow`, a call whose flow begins where it ends,
    /// or goes on the way of an earlier call's replies; then `NoStation`, of a call the flow's first
    /// station isn't there, or else its last; and what the world refuses. `NoMemory` comes for want of
    /// memory, and where a count would pass its end. Then the first of the lines were reported, and the
    /// calls are used no more; each was still served at most once.
    ///
    /// The cost is that of the world's events, the octets that are read, and the octets of the calls
    /// that wait; after a `Pass` also two reads of each flow with a call, after a restart all
    /// flows.
    pub fn step<L: CallLines>(
        &mut self,
        event: &CallEvent<'_>,
        lines: &mut L,
    ) -> Result<(), StepFault>
        requires unspent { self.old.spent ≡ false }
        requires may { MayCome (call_event event.now) }
        ensures { Answers L.tells H.answer self.old (call_event event.now) lines.old lines.new self.new result }
    {
        match *event {
            CallEvent::Call { flow, payload } => self.step_call(flow, payload, lines),
            CallEvent::World(event) => self.step_world(&event, lines),
        }
    }

    /// A call is made, unless it is refused, and then what is due is read.
    fn step_call<L: CallLines>(
        &mut self,
        flow: Flow,
        payload: &[u8],
        lines: &mut L,
    ) -> Result<(), StepFault>
        requires unspent { self.old.spent ≡ false }
        requires few { length payload.now ≤ 65528 }
        ensures { Answers L.tells H.answer self.old (Makes flow payload.now) lines.old lines.new self.new result }
    {
        if let Some(fault) = self.course.refusal(flow) {
            return Err(fault);
        }
        self.course.make(flow, payload, lines)?;
        self.course.finish(Due::Flow(flow), lines)?;
        Ok(())
    }

    /// An event of the world comes, and then what is due is read.
    fn step_world<L: CallLines>(
        &mut self,
        event: &Event<'_>,
        lines: &mut L,
    ) -> Result<(), StepFault>
        requires unspent { self.old.spent ≡ false }
        requires may { IsNoSendOrRead (event_of event.now) }
        ensures { Answers L.tells H.answer self.old (Happens (event_of event.now)) lines.old lines.new self.new result }
    {
        let due = self.course.advance_world(event)?;
        self.course.finish(due, lines)?;
        Ok(())
    }

    /// How many calls were made.
    pub fn calls(&self) -> u64
        ensures count { result ≡ length self.now.calls.calls }
        ensures once { AreServedOnce self.now.calls }
    {
        self.course.calls().len() as u64
    }

    /// How often the call of this number, which is below their count, was served.
    pub fn served_at(&self, i: u64) -> u32
        requires { i < length self.now.calls.calls }
        ensures served { result ≡ (call_at self.now.calls i).served }
        ensures at_most_once { result ≤ 1 }
    {
        self.course.calls()[i as usize].served
    }

    /// What is known of the call of this number, which is below their count.
    pub fn outcome_at(&self, i: u64) -> CallState
        requires { i < length self.now.calls.calls }
        ensures { result ≡ (call_at self.now.calls i).state }
    {
        self.course.calls()[i as usize].state
    }

    /// Whether a step found no memory. Then the calls are used no more.
    pub fn is_spent(&self) -> bool
        ensures { result ≡ self.now.spent }
    {
        self.course.is_spent()
    }

    /// How many calls there are in each state. The cost is their count.
    pub fn totals(&self) -> CallTotals
        ensures { totals_seen result ≡ totals_of self.now.calls }
    {
        totals_of(self.course.calls())
    }

    /// The moment of the world, in ms.
    pub fn now(&self) -> u64
        ensures { result ≡ self.now.calls.world.now }
    {
        self.course.now()
    }
}
