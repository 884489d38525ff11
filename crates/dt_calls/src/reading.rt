//! Messages are handed in, and read out of the world.
ghost use Rattle.std.specs.Prelude.{◌≡◌, ◌≢◌, ◌<◌, ◌≤◌, true, false, is_err, length, IfOk, IsSome, MatchOption, MatchResult, OnErr, OnOk, Some, option_map, slice_get, vec_len};
ghost use Rattle.dt_units.specs.Flows.{IsFlow};
ghost use Rattle.dt_notes.specs.Events.{MayStep, event_of};
ghost use Rattle.dt_world_model.specs.Tables.{has_key, same_flow};
ghost use Rattle.dt_calls_laws.specs.Told.{IsOn};
ghost use Rattle.dt_calls_model.specs.Calls.{Server, call_in, is_call_in};
ghost use Rattle.dt_calls_model.specs.Messages.{carried_in, message_of, reversed};
ghost use Rattle.dt_calls_model.specs.Promises.{AreServedOnce};
ghost use Rattle.dt_calls_model.specs.Reads as reads;
ghost use Rattle.dt_calls_model.specs.Reads.{answered_if, read_all, read_side, read_sides, serve_call, take_whole};
ghost use Rattle.dt_call_parts.specs.Courses.{GoesOn, HasGoneOn, from_calls};
ghost use Rattle.dt_call_parts.specs.Dues.{IsDue};
ghost use Rattle.dt_call_parts.specs.Flows.{flows_seen};
ghost use Rattle.dt_calls.specs.Happening.{Happens, ended};
ghost use Rattle.dt_call_parts.specs.Kept.{keys_in};
ghost use Rattle.dt_calls.specs.Parts.{HasJoined, Posts, calls_seen};
ghost use Rattle.dt_call_parts.specs.Sides.{side_seen};
ghost use Rattle.dt_call_parts.specs.declared.dues.Due.TheVariants as due;
ghost use Rattle.dt_call_parts.specs.declared.dues.Due.TheVariants.{Nothing};

use crate::call_courses::{CallCourse, CallsParts};
use dt_call_parts::{CallLine, CallLines, Due, Handler, Heard, Side, is_waiting, join_piece};
use dt_calls_model::{Call, CallState, Posted};
use dt_items::NoMemory;
use dt_messages::{read_message, reversed, write_message};
use dt_notes::Event;
use dt_reports::StepFault;
use dt_units::Flow;
use dt_units::limits::MOST_OCTETS;
use dt_world::World;

/// An event of the world within a step. Where it is refused, nothing happens.
pub fn try_event(world: &mut World, heard: &mut Heard, event: &Event<'_>) -> Result<(), NoMemory>
    requires unspent { world.old.spent ≡ false }
    requires may { MayStep (event_of event.now) }
    ensures { Happens result (event_of event.now) world.old heard.old world.new heard.new }
{
    heard.begin_event();
    let answer = world.step(event, heard);
    ended(answer, heard.has_failed())
}

/// What an event says whose step answered so.
fn ended(answer: Result<(), StepFault>, failed: bool) -> Result<(), NoMemory>
    ensures { result ≡ ended answer failed }
{
    if failed {
        return Err(NoMemory);
    }
    match answer {
        Err(StepFault::NoMemory) => Err(NoMemory),
        Ok(()) | Err(_) => Ok(()),
    }
}

/// Hands in the message that stands ready, along the flow.
pub fn post<H>(parts: &mut CallsParts<H>, flow: Flow) -> Result<Posted, NoMemory>
    requires unspent { parts.old.world.spent ≡ false }
    requires heard { parts.old.heard.failed ≡ false }
    requires some { 1 ≤ vec_len parts.old.message }
    requires few { vec_len parts.old.message ≤ 65536 }
    ensures { Posts result flow parts.old parts.new }
{
    let place = parts.world.ledger().taken_count(&flow);
    let count = parts.message.len() as u32;
    let event = Event::Send {
        flow,
        octets: &parts.message,
        begin: true,
        end: true,
    };
    try_event(&mut parts.world, &mut parts.heard, &event)?;
    if parts.heard.is_refused() {
        return Ok(Posted::Refused);
    }
    Ok(Posted::Taken { place, count })
}

impl<H: Handler> CallCourse<H> {
    /// The server's sides are read of the flows that are due, in the order of first calls, and then the
    /// clients'.
    pub fn read_due<L: CallLines>(&mut self, due: Due, lines: &mut L) -> Result<(), NoMemory>
        requires unspent { self.old.spent ≡ false }
        requires due { IsDue due self.old.calls.world self.old.calls.flows }
        ensures goes { GoesOn L.tells (read_all (H.answer self.old.handler)) self.old.calls lines.old lines.new result self.new.calls }
        ensures once { OnErr result (AreServedOnce self.new.calls) }
        ensures memory { OnErr result (due ≢ Nothing) }
        ensures handler { self.new.handler ≡ self.old.handler }
        ensures spent { self.new.spent ≡ is_err result }
    {
        match due {
            Due::Nothing => Ok(()),
            Due::Flow(flow) => self.read_both(&flow, lines),
            Due::All => {
                self.read_sides(Side::Server, lines)?;
                self.read_sides(Side::Client, lines)
            }
        }
    }

    /// Both sides are read of the one flow that is due.
    fn read_both<L: CallLines>(&mut self, flow: &Flow, lines: &mut L) -> Result<(), NoMemory>
        requires unspent { self.old.spent ≡ false }
        requires due { IsDue (due.Flow flow.now) self.old.calls.world self.old.calls.flows }
        ensures goes { GoesOn L.tells (read_all (H.answer self.old.handler)) self.old.calls lines.old lines.new result self.new.calls }
        ensures once { OnErr result (AreServedOnce self.new.calls) }
        ensures handler { self.new.handler ≡ self.old.handler }
        ensures spent { self.new.spent ≡ is_err result }
    {
        self.read_side(flow, Side::Server, lines)?;
        self.read_side(flow, Side::Client, lines)
    }

    /// One of the sides is read of all flows with a call.
    fn read_sides<L: CallLines>(&mut self, side: Side, lines: &mut L) -> Result<(), NoMemory>
        requires unspent { self.old.spent ≡ false }
        ensures goes { GoesOn L.tells (read_sides (H.answer self.old.handler) (side_seen side)) self.old.calls lines.old lines.new result self.new.calls }
        ensures once { OnErr result (AreServedOnce self.new.calls) }
        ensures keys { OnOk result (keys_in self.new.calls.flows ≡ keys_in self.old.calls.flows) }
        ensures handler { self.new.handler ≡ self.old.handler }
        ensures spent { self.new.spent ≡ is_err result }
    {
        for place in 0..self.flow_count() {
            let flow = self.flow_at(place);
            self.read_side(&flow, side, lines)?;
        }
        Ok(())
    }

    /// How many flows have a call.
    fn flow_count(&self) -> usize
        ensures { result ≡ length (keys_in self.now.calls.flows) }
    {
        self.parts.flows.len()
    }

    /// The flow with this place, which is below their count.
    fn flow_at(&self, place: usize) -> Flow
        requires { place < length (keys_in self.now.calls.flows) }
        ensures at { slice_get (keys_in self.now.calls.flows) place ≡ Some result }
        ensures there { has_key same_flow result self.now.calls.flows ≡ true }
    {
        match self.parts.flows.get_index(place) {
            Some((flow, _)) => *flow,
            None => unreachable!(),
        }
    }

    /// Reads a side of the flow until nothing is there, and takes each message that becomes whole right
    /// after the read that completes it.
    fn read_side<L: CallLines>(
        &mut self,
        flow: &Flow,
        side: Side,
        lines: &mut L,
    ) -> Result<(), NoMemory>
        requires unspent { self.old.spent ≡ false }
        requires there { has_key same_flow flow.now self.old.calls.flows ≡ true }
        ensures goes { GoesOn L.tells (λ c. read_side (H.answer self.old.handler) (side_seen side) c flow.now) self.old.calls lines.old lines.new result self.new.calls }
        // What is kept of the calls that it was given, for whoever reads both sides.
        ensures on { IsOn (H.answer self.old.handler) (from_calls self.old.calls) }
        ensures once { OnErr result (AreServedOnce self.new.calls) }
        ensures keys { OnOk result (keys_in self.new.calls.flows ≡ keys_in self.old.calls.flows) }
        ensures handler { self.new.handler ≡ self.old.handler }
        ensures spent { self.new.spent ≡ is_err result }
    {
        self.spent = true;
        let read = Event::Read {
            flow: side.flow_read(*flow),
            max: MOST_OCTETS,
        };
        loop {
            try_event(&mut self.parts.world, &mut self.parts.heard, &read)?;
            if self.parts.heard.piece().is_none() {
                self.spent = false;
                return Ok(());
            }
            if let Some(message) = join(&mut self.parts, flow, side)? {
                take_message(&mut self.parts, flow, side, &message, lines)?;
            }
        }
    }
}

/// The piece that was read goes on what the side has begun. Answers the message that it makes whole.
fn join<H>(parts: &mut CallsParts<H>, flow: &Flow, side: Side) -> Result<Option<Vec<u8>>, NoMemory>
    requires piece { IsSome parts.old.heard.piece }
    requires there { has_key same_flow flow.now (flows_seen parts.old.flows.entries) ≡ true }
    ensures joined { MatchResult result (λ whole. HasJoined (side_seen side) flow.now parts.old (option_map (λ message. message.items) whole) parts.new) (λ _. parts.new ≡ record parts.old { flows = parts.new.flows }) }
{
    let Some((marks, octets)) = parts.heard.piece() else {
        unreachable!();
    };
    join_piece(&mut parts.flows, flow, side, marks, octets)
}

/// A whole message of a call of the flow is taken. What a request carries is no longer than a handler takes.
fn take_message<H: Handler, L: CallLines>(
    parts: &mut CallsParts<H>,
    flow: &Flow,
    side: Side,
    message: &[u8],
    lines: &mut L,
) -> Result<(), NoMemory>
    requires unspent { parts.old.world.spent ≡ false }
    requires heard { parts.old.heard.failed ≡ false }
    requires served { AreServedOnce (calls_seen parts.old) }
    requires short { side_seen side ≡ Server → length (carried_in message.now) ≤ 65528 }
    ensures goes { GoesOn L.tells (take_whole (H.answer parts.old.handler) (side_seen side) flow.now (Some message.now)) (calls_seen parts.old) lines.old lines.new result (calls_seen parts.new) }
    ensures stays { OnErr result (parts.new.calls.items ≡ parts.old.calls.items) }
    ensures unspent { OnOk result (parts.new.world.spent ≡ false) }
    ensures heard { OnOk result (parts.new.heard.failed ≡ false) }
    ensures waiting { parts.new.waiting ≡ parts.old.waiting }
    ensures flows { parts.new.flows ≡ parts.old.flows }
    ensures memory { OnErr result (side_seen side ≡ Server) }
    ensures handler { parts.new.handler ≡ parts.old.handler }
{
    let Some((number, carried)) = read_message(message) else {
        return Ok(());
    };
    let Some(call) = call_on(&parts.calls, number, flow) else {
        return Ok(());
    };
    match side {
        Side::Server => serve(parts, flow, call, carried, lines),
        Side::Client => {
            answer(parts, call, carried, lines);
            Ok(())
        }
    }
}

/// The place of the call of this number, where there is one, and on this flow.
fn call_on(calls: &[Call], number: u64, flow: &Flow) -> Option<usize>
    ensures { MatchOption result (is_call_in calls.now flow.now number ≡ false) (λ place. (place ≡ number) × (is_call_in calls.now flow.now number ≡ true)) }
{
    if number >= calls.len() as u64 {
        return None;
    }
    let place = number as usize;
    (calls[place].flow == *flow).then_some(place)
}

/// A request is served: its answer goes back with its number.
fn serve<H: Handler, L: CallLines>(
    parts: &mut CallsParts<H>,
    flow: &Flow,
    call: usize,
    payload: &[u8],
    lines: &mut L,
) -> Result<(), NoMemory>
    requires call { call < vec_len parts.old.calls }
    requires served { AreServedOnce (calls_seen parts.old) }
    requires few { length payload.now ≤ 65528 }
    requires unspent { parts.old.world.spent ≡ false }
    requires heard { parts.old.heard.failed ≡ false }
    ensures goes { GoesOn L.tells (serve_call (H.answer parts.old.handler) flow.now call payload.now) (calls_seen parts.old) lines.old lines.new result (calls_seen parts.new) }
    ensures stays { OnErr result (parts.new.calls.items ≡ parts.old.calls.items) }
    ensures unspent { OnOk result (parts.new.world.spent ≡ false) }
    ensures heard { OnOk result (parts.new.heard.failed ≡ false) }
    ensures waiting { parts.new.waiting ≡ parts.old.waiting }
    ensures flows { parts.new.flows ≡ parts.old.flows }
    ensures handler { parts.new.handler ≡ parts.old.handler }
{
    let number = call as u64;
    lines.line(parts.world.now(), &CallLine::Served { call: number });
    let reply = reply(parts, flow, number, payload)?;
    let served = &mut parts.calls[call];
    served.served += 1;
    served.reply = Some(reply);
    Ok(())
}

/// The answer to a payload is handed in on the way of the replies, with the number of its call. `NoMemory`
/// comes for want of memory alone: each reply takes that of its octets.
fn reply<H: Handler>(
    parts: &mut CallsParts<H>,
    flow: &Flow,
    number: u64,
    payload: &[u8],
) -> Result<Posted, NoMemory>
    requires few { length payload.now ≤ 65528 }
    requires unspent { parts.old.world.spent ≡ false }
    requires heard { parts.old.heard.failed ≡ false }
    ensures posts { IfOk result (λ posted. reads.post (reversed flow.now) (message_of number (H.answer parts.old.handler payload.now)) parts.old.world.state ≡ (posted, parts.new.world.state)) }
    ensures unspent { OnOk result (parts.new.world.spent ≡ false) }
    ensures heard { OnOk result (parts.new.heard.failed ≡ false) }
    ensures calls { parts.new.calls ≡ parts.old.calls }
    ensures waiting { parts.new.waiting ≡ parts.old.waiting }
    ensures flows { parts.new.flows ≡ parts.old.flows }
    ensures handler { parts.new.handler ≡ parts.old.handler }
{
    parts.handler.serve(payload, &mut parts.answer)?;
    write_message(number, &parts.answer, &mut parts.message)?;
    post(parts, reversed(*flow))
}

/// A reply answers its call, if that waits.
fn answer<H, L: CallLines>(parts: &mut CallsParts<H>, call: usize, octets: &[u8], lines: &mut L)
    requires { call < vec_len parts.old.calls }
    ensures goes { HasGoneOn L.tells (answered_if (call_in parts.old.calls.items call).state call octets.now) (calls_seen parts.old) lines.old lines.new (calls_seen parts.new) }
    ensures same { parts.new ≡ record parts.old { calls = parts.new.calls } }
{
    if !is_waiting(parts.calls[call].state) {
        return;
    }
    let line = CallLine::Answered {
        call: call as u64,
        payload: octets,
    };
    lines.line(parts.world.now(), &line);
    parts.calls[call].state = CallState::Answered;
}
