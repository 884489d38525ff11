//! At the end of a step the calls that wait become unsure whose answers may never come.
ghost use Rattle.std.specs.Prelude.{◌≡◌, false};
ghost use Rattle.dt_calls_model.specs.CallStep.{becomes_unsure, judge_all, is_in_vain, is_posted_in_vain, is_replied_in_vain};
ghost use Rattle.dt_calls_model.specs.Messages.{reversed};
ghost use Rattle.dt_call_parts.specs.Courses.{HasGoneOn};
ghost use Rattle.dt_calls.specs.Parts.{calls_seen};
ghost use Rattle.dt_call_parts.specs.Waiting.{Covers, waiting_from};

use crate::call_courses::{CallCourse, CallsParts};
use dt_call_parts::{CallLine, CallLines, Handler, is_waiting};
use dt_calls_model::{Call, CallState, Posted};
use dt_flow_model::{Fate, Taken};
use dt_messages::reversed;
use dt_units::Flow;
use dt_world::World;

impl<H: Handler> CallCourse<H> {
    /// The calls that wait and whose answers may never come become unsure, in their order. The cost is
    /// the calls that waited after the step before or were made in this one, and the octets of the
    /// messages of those that wait.
    pub fn mark_unsure<L: CallLines>(&mut self, lines: &mut L)
        requires unspent { self.old.spent ≡ false }
        ensures goes { HasGoneOn L.tells judge_all self.old.calls lines.old lines.new self.new.calls }
        ensures left { self.new.waiting ≡ waiting_from 0 self.new.calls.calls }
        ensures same { self.new ≡ record self.old { calls = self.new.calls; waiting = self.new.waiting } }
    {
        mark_waiting_unsure(&mut self.parts, lines);
        drop_settled(&mut self.parts.waiting, &self.parts.calls);
    }
}

/// The calls become unsure.
fn mark_waiting_unsure<H, L: CallLines>(parts: &mut CallsParts<H>, lines: &mut L)
    requires { Covers 0 parts.old.waiting.items parts.old.calls.items }
    ensures goes { HasGoneOn L.tells judge_all (calls_seen parts.old) lines.old lines.new (calls_seen parts.new) }
    ensures covers { Covers 0 parts.old.waiting.items parts.new.calls.items }
    ensures same { parts.new ≡ record parts.old { calls = parts.new.calls } }
{
    let moment = parts.world.now();
    for place in 0..parts.waiting.len() {
        let number = parts.waiting[place];
        if becomes_unsure(&parts.world, &parts.calls[number]) {
            parts.calls[number].state = CallState::Unsure;
            let call = number as u64;
            lines.line(moment, &CallLine::Unsure { call });
        }
    }
}

/// The numbers of calls that wait no more are dropped.
fn drop_settled(waiting: &mut Vec<usize>, calls: &[Call])
    requires { Covers 0 waiting.old.items calls.now }
    ensures covers { Covers 0 waiting.new.items calls.now }
    ensures left { waiting.new.items ≡ waiting_from 0 calls.now }
{
    let mut kept = 0;
    for place in 0..waiting.len() {
        let number = waiting[place];
        if is_waiting(calls[number].state) {
            waiting[kept] = number;
            kept += 1;
        }
    }
    waiting.truncate(kept);
}

/// Whether the call waits, and its answer may never come.
fn becomes_unsure(world: &World, call: &Call) -> bool
    ensures { result ≡ becomes_unsure world.now.state call.now }
{
    is_waiting(call.state)
        && (is_posted_in_vain(world, &call.flow, call.request)
            || is_replied_in_vain(world, &call.flow, call.reply))
}

/// The same of the reply of a call on this flow, if there is one.
fn is_replied_in_vain(world: &World, flow: &Flow, reply: Option<Posted>) -> bool
    ensures { result ≡ is_replied_in_vain world.now.state (reversed flow.now) reply }
{
    match reply {
        Some(reply) => is_posted_in_vain(world, &reversed(*flow), reply),
        None => false,
    }
}

/// Whether a message was refused, or an octet of it is uncertain or of an earlier life of its sender.
fn is_posted_in_vain(world: &World, flow: &Flow, posted: Posted) -> bool
    ensures { result ≡ is_posted_in_vain world.now.state flow.now posted }
{
    let Posted::Taken { place, count } = posted else {
        return true;
    };
    let life = world.life(flow.from);
    let ledger = world.ledger();
    let end = place
        .saturating_add(u64::from(count))
        .min(ledger.taken_count(flow));
    for at in place..end {
        if is_in_vain(life, &ledger.taken_at(flow, at)) {
            return true;
        }
    }
    false
}

fn is_in_vain(life: u32, row: &Taken) -> bool
    ensures { result ≡ is_in_vain life row.now }
{
    match row.fate {
        Fate::Uncertain => true,
        Fate::Open | Fate::Acked => row.life < life,
    }
}
