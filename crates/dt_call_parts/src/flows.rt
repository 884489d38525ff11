//! The flows with a call.
ghost use Rattle.std.specs.Prelude.{◌≡◌, ◌<◌, true, length, map, set, slice_index_or, IfOk, OnErr, OnOk, option_map};
ghost use Rattle.dt_world_model.specs.Tables.{has_key, same_flow};
ghost use Rattle.dt_calls_model.specs.Calls.{begun_at, with_begun, with_flow};
ghost use Rattle.dt_calls_model.specs.CallStep.{flows_after, without_reader};
ghost use Rattle.dt_calls_model.specs.Messages.{begun_with, whole_with};
ghost use Rattle.dt_notes.specs.Events.{event_of};
ghost use Rattle.dt_call_parts.specs.Flows.{begun_in, flows_seen, no_entry, with_sides_in};
ghost use Rattle.dt_messages.specs.Joining.{piece_with};
ghost use Rattle.dt_call_parts.specs.Sides.{side_seen};

use crate::flow_sides::{FlowSides, Side};
use dt_items::NoMemory;
use dt_messages::Marks;
use dt_notes::Event;
use dt_units::{Flow, NodeId};
use indexmap::IndexMap;

/// The flows with a call, in the order of first calls, each with what its sides have begun to read.
pub type Flows = IndexMap<Flow, FlowSides>;

/// A flow gets its entry with its first call. `NoMemory` leaves the flows as they were.
pub fn add_flow(flows: &mut Flows, flow: Flow) -> Result<(), NoMemory>
    ensures added { OnOk result (flows_seen flows.new.entries ≡ with_flow flow (flows_seen flows.old.entries)) }
    ensures same { OnErr result (flows_seen flows.new.entries ≡ flows_seen flows.old.entries) }
{
    if flows.contains_key(&flow) {
        return Ok(());
    }
    flows.insert(flow, FlowSides::new())?;
    Ok(())
}

/// A piece goes on what a side of the flow, which is there, has begun. Answers the message that it makes
/// whole, if it does. `NoMemory` leaves the flows as they were. The cost is the piece.
pub fn join_piece(
    flows: &mut Flows,
    flow: &Flow,
    side: Side,
    marks: Marks,
    octets: &[u8],
) -> Result<Option<Vec<u8>>, NoMemory>
    requires there { has_key same_flow flow.now (flows_seen flows.old.entries) ≡ true }
    ensures whole { let before = begun_in flow.now (flows_seen flows.old.entries) in
        IfOk result (λ whole. option_map (λ message. message.items) whole ≡ whole_with (begun_at (side_seen side) before) (piece_with marks octets.now)) }
    ensures begun { let before = begun_in flow.now (flows_seen flows.old.entries) in
        IfOk result (λ _. flows_seen flows.new.entries ≡ with_sides_in flow.now (with_begun (side_seen side) (begun_with (begun_at (side_seen side) before) (piece_with marks octets.now)) before) (flows_seen flows.old.entries)) }
    ensures same { OnErr result (flows_seen flows.new.entries ≡ flows_seen flows.old.entries) }
{
    let alloc = *flows.allocator();
    match flows.get_mut(flow) {
        Some(sides) => sides.join(side, alloc, marks, octets),
        None => unreachable!(),
    }
}

/// What an event of the world leaves of what was begun. The cost of a restart is all flows.
pub fn drop_begun(flows: &mut Flows, event: &Event<'_>)
    ensures { flows_seen flows.new.entries ≡ flows_after (event_of event.now) (flows_seen flows.old.entries) }
{
    match *event {
        Event::Restart { station } => restart(flows, station),
        Event::Pass { .. }
        | Event::Send { .. }
        | Event::Read { .. }
        | Event::Tick { .. }
        | Event::Arrive { .. }
        | Event::Lose { .. } => {}
    }
}

/// A station started again: what was begun where it reads is dropped.
fn restart(flows: &mut Flows, station: NodeId)
    ensures { flows_seen flows.new.entries ≡ map (without_reader station.0) (flows_seen flows.old.entries) }
{
    for place in 0..flows.len() {
        restart_at(flows, place, station);
    }
}

/// The same at the flow with this place.
fn restart_at(flows: &mut Flows, place: usize, station: NodeId)
    requires there { place < length flows.old.entries }
    ensures { let before = flows_seen flows.old.entries in
        flows_seen flows.new.entries ≡ set before place (without_reader station.0 (slice_index_or before place no_entry)) }
{
    let Some((flow, _)) = flows.get_index(place) else {
        unreachable!();
    };
    let flow = *flow;
    let Some(sides) = flows.get_index_mut(place) else {
        unreachable!();
    };
    sides.drop_at(&flow, station);
}
