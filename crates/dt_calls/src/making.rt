//! Calls are made.
ghost use Rattle.std.specs.Prelude.{◌≡◌, ◌≤◌, None, false, is_err, length, OnErr, OnOk};
ghost use Rattle.dt_world_model.specs.WorldStep.{first_refusal};
ghost use Rattle.dt_units.specs.Flows.{IsFlow};
ghost use Rattle.dt_calls_model.specs.Calls.{with_flow};
ghost use Rattle.dt_calls_model.specs.CallStep.{call_refusals, make, make_with, state_of};
ghost use Rattle.dt_calls_model.specs.Promises.{AreServedOnce};
ghost use Rattle.dt_call_parts.specs.Courses.{GoesOn};
ghost use Rattle.dt_call_parts.specs.Dues.{IsDue};
ghost use Rattle.dt_call_parts.specs.Flows.{flows_seen};
ghost use Rattle.dt_calls.specs.Going.{then_made};
ghost use Rattle.dt_call_parts.specs.Kept.{AreShort, IsShort};
ghost use Rattle.dt_calls.specs.Parts.{calls_seen};
ghost use Rattle.dt_call_parts.specs.Telling.{TellsCalls};
ghost use Rattle.dt_call_parts.specs.Waiting.{Covers};
ghost use Rattle.dt_call_parts.specs.declared.dues.Due.TheVariants as due;

use crate::call_courses::{CallCourse, CallsParts};
use crate::reading::post;
use dt_call_parts::{CallLine, CallLines, Handler, add_flow};
use dt_calls_model::{Call, CallState, Posted};
use dt_items::NoMemory;
use dt_messages::write_message;
use dt_units::Flow;

impl<H: Handler> CallCourse<H> {
    /// A call is made, which isn't refused: its request is handed in.
    pub fn make<L: CallLines>(
        &mut self,
        flow: Flow,
        payload: &[u8],
        lines: &mut L,
    ) -> Result<(), NoMemory>
        requires unspent { self.old.spent ≡ false }
        requires rest { IsDue due.Nothing self.old.calls.world self.old.calls.flows }
        requires fine { first_refusal (call_refusals self.old.calls flow) ≡ None }
        requires few { length payload.now ≤ 65528 }
        ensures goes { GoesOn L.tells (λ c. then_made c (make flow payload.now c.calls)) self.old.calls lines.old lines.new result self.new.calls }
        ensures once { OnErr result (AreServedOnce self.new.calls) }
        ensures due { OnOk result (IsDue (due.Flow flow) self.new.calls.world self.new.calls.flows) }
        ensures handler { self.new.handler ≡ self.old.handler }
        ensures spent { self.new.spent ≡ is_err result }
    {
        self.spent = true;
        let call = self.parts.calls.len() as u64;
        let count = payload.len() as u32;
        write_message(call, payload, &mut self.parts.message)?;
        let request = post(&mut self.parts, flow)?;
        add_call(&mut self.parts, flow, count, request, lines)?;
        self.spent = false;
        Ok(())
    }
}

/// A call whose request was handed in, and came to this, is reported, and gets its number, and its flow an
/// entry.
fn add_call<H, L: CallLines>(
    parts: &mut CallsParts<H>,
    flow: Flow,
    count: u32,
    request: Posted,
    lines: &mut L,
) -> Result<(), NoMemory>
    ensures goes { GoesOn L.tells (λ c. then_made c (make_with flow count (request, c.calls.world) c.calls)) (calls_seen parts.old) lines.old lines.new result (calls_seen parts.new) }
    ensures once { AreServedOnce (calls_seen parts.old) → AreServedOnce (calls_seen parts.new) }
    ensures flows { OnOk result (flows_seen parts.new.flows.entries ≡ with_flow flow (flows_seen parts.old.flows.entries)) }
    ensures waiting { OnOk result (Covers 0 parts.old.waiting.items parts.old.calls.items → Covers 0 parts.new.waiting.items parts.new.calls.items) }
    ensures requests { OnOk result (IsShort request → AreShort parts.old.calls.items → AreShort parts.new.calls.items) }
    ensures same { parts.new ≡ record parts.old { calls = parts.new.calls; waiting = parts.new.waiting; flows = parts.new.flows } }
    ensures range { IsFlow flow }
{
    tell_made(parts, flow, count, request, lines);
    parts.waiting.push(parts.calls.len())?;
    parts.calls.push(Call {
        flow,
        state: state_of(request),
        served: 0,
        request,
        reply: None,
    })?;
    add_flow(&mut parts.flows, flow)
}

/// A call that is made is reported, and that it is declined where its request was refused.
fn tell_made<H, L: CallLines>(
    parts: &CallsParts<H>,
    flow: Flow,
    count: u32,
    request: Posted,
    lines: &mut L,
)
    ensures { TellsCalls L.tells (make_with flow count (request, parts.now.world.state) (calls_seen parts.now)).told lines.old lines.new }
{
    let call = parts.calls.len() as u64;
    let moment = parts.world.now();
    lines.line(moment, &CallLine::Call { call, flow, count });
    match request {
        Posted::Taken { .. } => {}
        Posted::Refused => lines.line(moment, &CallLine::Declined { call }),
    }
}

/// What a call is whose request came to this.
fn state_of(request: Posted) -> CallState
    ensures { result ≡ state_of request }
{
    match request {
        Posted::Taken { .. } => CallState::Waiting,
        Posted::Refused => CallState::Declined,
    }
}
