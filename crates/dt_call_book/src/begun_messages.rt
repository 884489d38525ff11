//! What was read of messages that aren't whole yet.
ghost use Rattle.std.specs.Prelude.{◌≡◌, IfOk, OnOk, filter, option_map};
ghost use Rattle.std.specs.List.{position};
ghost use Rattle.dt_calls_model.specs.Messages.{joined};
ghost use Rattle.dt_messages.specs.Joining.{piece_with};
ghost use Rattle.dt_service_model.specs.Turns.{has_receiver};
ghost use Rattle.dt_service_model.specs.Whole.{begun_at, is_of, with_begun, without_begun};

use dt_endpoint::Endpoint;
use dt_items::NoMemory;
use dt_messages::Marks;
use dt_units::Flow;
use std::alloc::Global;
use std::marker::Model;

/// The octets that were read of a flow's message.
#[derive(Drop)]
pub struct BegunMessage {
    flow: Flow,
    octets: Vec<u8>,
}

impl Model for BegunMessage {
    ghost use Rattle.std.specs.Prelude.{ℕ, List};
    ghost use Rattle.dt_units.specs.declared.endpoints.Flow.{Flow};

    ghost Value = { Flow × List ℕ };

    ghost view = { λ b. (b.flow, b.octets.items) };
}

fn is_of(begun: &BegunMessage, flow: &Flow) -> bool
    ensures { result ≡ is_of flow.now begun.now }
{
    begun.flow == *flow
}

/// Takes out what was begun of a flow.
pub fn take_begun(table: &mut Vec<BegunMessage>, flow: &Flow) -> Option<Vec<u8>>
    ensures begun { option_map (λ o. o.items) result ≡ begun_at (position (is_of flow.now) table.old.items) table.old.items }
    ensures others { table.new.items ≡ without_begun (position (is_of flow.now) table.old.items) table.old.items }
{
    let place = place_of(table, flow)?;
    let BegunMessage { octets, .. } = table.remove(place);
    Some(octets)
}

fn place_of(table: &[BegunMessage], flow: &Flow) -> Option<usize>
    ensures { result ≡ position (is_of flow.now) table.now }
{
    table.iter().position(|begun| is_of(begun, flow))
}

fn has_receiver(endpoint: &Endpoint, begun: &BegunMessage) -> bool
    ensures { result ≡ has_receiver endpoint.now.state.host begun.now }
{
    endpoint.has_receiver(&begun.flow)
}

/// What was begun of a flow of which the endpoint has no receiver goes.
pub fn keep_received(endpoint: &Endpoint, table: &mut Vec<BegunMessage>)
    ensures { table.new.items ≡ filter (has_receiver endpoint.now.state.host) table.old.items }
{
    table.retain(|begun| has_receiver(endpoint, begun));
}

/// Puts it back as it is then, if anything is begun.
pub fn put_begun(
    table: &mut Vec<BegunMessage>,
    flow: Flow,
    octets: Option<Vec<u8>>,
) -> Result<(), NoMemory>
    ensures { OnOk result (table.new.items ≡ with_begun flow (option_map (λ o. o.items) octets) table.old.items) }
{
    if let Some(octets) = octets {
        table.push(BegunMessage { flow, octets })?;
    }
    Ok(())
}

/// A piece goes on what was begun, by the definition of messages.
pub fn joined(
    alloc: Global,
    begun: Option<Vec<u8>>,
    marks: Marks,
    octets: &[u8],
) -> Result<Option<Vec<u8>>, NoMemory>
    ensures { IfOk result (λ r. option_map (λ o. o.items) r ≡ joined (option_map (λ o. o.items) begun) (piece_with marks octets.now)) }
{
    if marks.begin {
        return Ok(Some(Vec::from_slice(alloc, octets)?));
    }
    if marks.run {
        return Ok(None);
    }
    let Some(mut begun) = begun else {
        return Ok(None);
    };
    begun.extend_from_slice(octets)?;
    Ok(Some(begun))
}
