//! The calls of a world in the course of a step.
ghost use Rattle.std.specs.Prelude.{◌≡◌, ◌<◌, ◌^◌, [], false, is_err, length, OnErr};
ghost use Rattle.std.specs.List.{list_any};
ghost use Rattle.dt_notes.specs.Events.{event_of};
ghost use Rattle.dt_world_model.specs.Tables.{same_flow};
ghost use Rattle.dt_world_model.specs.WorldStep.{first_refusal};
ghost use Rattle.dt_units.specs.Flows.{IsFlow};
ghost use Rattle.dt_calls_laws.specs.Grown.{IsNoSendOrRead};
ghost use Rattle.dt_calls_model.specs.Calls.{new_calls};
ghost use Rattle.dt_calls_model.specs.CallStep.{call_refusals, finish};
ghost use Rattle.dt_calls_model.specs.Messages.{reversed};
ghost use Rattle.dt_calls_model.specs.Promises.{AreServedOnce};
ghost use Rattle.dt_calls.specs.CallOutcomes.{IsNew, lacks_memory};
ghost use Rattle.dt_call_parts.specs.Courses.{GoesOn};
ghost use Rattle.dt_call_parts.specs.Dues.{IsDue};
ghost use Rattle.dt_calls.specs.Going.{WorldGoesOn};
ghost use Rattle.dt_call_parts.specs.declared.dues.Due.TheVariants as due;

use dt_call_parts::{CallLines, Due, Flows, Handler, Heard, drop_begun, due_after_event};
use dt_calls_model::Call;
use dt_items::NoMemory;
use dt_messages::reversed;
use dt_notes::Event;
use dt_reports::StepFault;
use dt_units::Flow;
use dt_world::World;
use indexmap::IndexMap;
use std::alloc::Global;
use std::marker::Model;

/// What the calls of a world are made of.
#[derive(Drop)]
pub struct CallsParts<H> {
    pub world: World,
    pub handler: H,
    /// By their numbers.
    pub calls: Vec<Call>,
    /// The numbers of those that wait are among these, in their order: a step judges no others.
    pub waiting: Vec<usize>,
    pub flows: Flows,
    pub heard: Heard,
    /// Room for a message that is handed in, and for an answer.
    pub message: Vec<u8>,
    pub answer: Vec<u8>,
}

/// Calls over a world in the course of a step. Each part of a step takes them from where nothing has
/// failed to where nothing has. One that finds no memory leaves them spent; each call was still served at
/// most once. A contract sees the definition's calls, the numbers of those that are judged next, who
/// answers them, and whether they are spent.
#[derive(Drop)]
pub struct CallCourse<H: Handler> {
    pub(crate) parts: CallsParts<H>,
    /// Whether memory ran out. It is set while a part of a step changes them, so that they are spent
    /// wherever that stops.
    pub(crate) spent: bool,
}

impl<H: Handler> Model for CallCourse<H> {
    ghost use Rattle.dt_calls.specs.CallCourses.{CourseValue, IsKeptCourse, course_seen};

    ghost Value = { CourseValue H };

    ghost view = { λ c. course_seen c.parts c.spent };

    ghost invariant = { λ c. IsKeptCourse (H.answer c.parts.handler) c.spent c.parts };
}

impl<H: Handler> CallCourse<H> {
    /// No calls yet, over a world that has made no step.
    pub fn new(alloc: Global, world: World, handler: H) -> CallCourse<H>
        requires new { IsNew world.state }
        requires unspent { world.spent ≡ false }
        ensures { result ≡ record { calls = new_calls world.state; waiting = []; handler = handler; spent = false } }
    {
        CallCourse {
            parts: CallsParts {
                world,
                handler,
                calls: Vec::new(alloc),
                waiting: Vec::new(alloc),
                flows: IndexMap::new(alloc),
                heard: Heard::new(alloc),
                message: Vec::new(alloc),
                answer: Vec::new(alloc),
            },
            spent: false,
        }
    }

    /// The calls, by their numbers.
    pub fn calls(&self) -> &[Call]
        ensures calls { result.now ≡ self.now.calls.calls }
        ensures once { AreServedOnce self.now.calls }
    {
        &self.parts.calls
    }

    /// Whether memory ran out.
    pub fn is_spent(&self) -> bool
        ensures { result ≡ self.now.spent }
    {
        self.spent
    }

    /// The moment of the world, in ms.
    pub fn now(&self) -> u64
        ensures { result ≡ self.now.calls.world.now }
    {
        self.parts.world.now()
    }

    /// The fault with which a call is refused, if it is.
    pub fn refusal(&self, flow: Flow) -> Option<StepFault>
        requires unspent { self.now.spent ≡ false }
        ensures refusal { result ≡ first_refusal (call_refusals self.now.calls flow) }
        ensures range { IsFlow flow }
        ensures few { length self.now.calls.calls < 2 ^ 64 }
    {
        let world = &self.parts.world;
        if flow.from == flow.to || self.is_way_of_replies(flow) {
            return Some(StepFault::BadFlow);
        }
        if !world.has_station(flow.from) {
            return Some(StepFault::NoStation { n: flow.from.0 });
        }
        if !world.has_station(flow.to) {
            return Some(StepFault::NoStation { n: flow.to.0 });
        }
        None
    }

    /// Whether replies of an earlier call go along this flow: then the reversed flow has a call.
    fn is_way_of_replies(&self, flow: Flow) -> bool
        requires unspent { self.now.spent ≡ false }
        ensures { result ≡ list_any (λ call. same_flow call.flow (reversed flow)) self.now.calls.calls }
    {
        self.parts.flows.contains_key(&reversed(flow))
    }

    /// An event of the world. Answers what must be read after it.
    pub fn advance_world(&mut self, event: &Event<'_>) -> Result<Due, StepFault>
        requires unspent { self.old.spent ≡ false }
        requires rest { IsDue due.Nothing self.old.calls.world self.old.calls.flows }
        requires may { IsNoSendOrRead (event_of event.now) }
        ensures goes { WorldGoesOn (event_of event.now) self.old self.new result }
        ensures once { OnErr result (AreServedOnce self.new.calls) }
        ensures handler { self.new.handler ≡ self.old.handler }
        ensures spent { self.new.spent ≡ lacks_memory result }
        ensures few { length self.old.calls.calls < 2 ^ 64 }
    {
        self.parts.heard.begin_event();
        let answer = self.parts.world.step(event, &mut self.parts.heard);
        self.spent = lacks_memory(answer);
        answer?;
        self.spent = self.parts.heard.has_failed();
        if self.spent {
            return Err(StepFault::NoMemory);
        }
        drop_begun(&mut self.parts.flows, event);
        Ok(due_after_event(event, &self.parts.flows, &self.parts.heard))
    }

    /// What is due is read, and then the calls that wait are judged.
    pub fn finish<L: CallLines>(&mut self, due: Due, lines: &mut L) -> Result<(), NoMemory>
        requires unspent { self.old.spent ≡ false }
        requires due { IsDue due self.old.calls.world self.old.calls.flows }
        ensures goes { GoesOn L.tells (finish (H.answer self.old.handler)) self.old.calls lines.old lines.new result self.new.calls }
        ensures once { OnErr result (AreServedOnce self.new.calls) }
        ensures handler { self.new.handler ≡ self.old.handler }
        ensures spent { self.new.spent ≡ is_err result }
    {
        self.read_due(due, lines)?;
        self.mark_unsure(lines);
        Ok(())
    }
}

/// Whether a step that answered so found no memory.
fn lacks_memory(answer: Result<(), StepFault>) -> bool
    ensures { result ≡ lacks_memory answer }
{
    matches!(answer, Err(StepFault::NoMemory))
}
