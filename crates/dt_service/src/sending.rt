//! One event of an endpoint, by what it answers.
ghost use Rattle.std.specs.Prelude.{◌≡◌, true, IfOk, None, OnErr, OnOk};
ghost use Rattle.dt_world_model.specs.Station.{Tick};
ghost use Rattle.dt_endpoint.specs.Calls.{arrive_event, arrive_refusal, send_answer};
ghost use Rattle.dt_endpoint.specs.Endpoints.{Breaks, after_event};
ghost use Rattle.dt_service_model.specs.Asked.{message_event};
ghost use Rattle.dt_service.specs.Nodes.{IsCutOff, came_to};

use dt_endpoint::{Endpoint, Received, Sent, Ticked};
use dt_items::NoMemory;
use dt_reports::Refusal;
use dt_units::Flow;

/// Sends a message, and answers why it wasn't taken.
pub fn send_message(
    endpoint: &mut Endpoint,
    now: u64,
    flow: Flow,
    message: &[u8],
) -> Result<Option<Refusal>, NoMemory>
    ensures refused { IfOk result (λ refused. refused ≡ send_answer now flow message.now true true endpoint.old) }
    ensures after { OnOk result (endpoint.new ≡ after_event now (message_event flow message.now) endpoint.old) }
    ensures cut { OnErr result (IsCutOff now (message_event flow message.now) endpoint.old endpoint.new) }
{
    match endpoint.send(now, flow, message, true, true) {
        Sent::Done => Ok(None),
        Sent::Quiet { until } => Ok(Some(Refusal::Quiet { until })),
        Sent::Full { free } => Ok(Some(Refusal::Full { free })),
        Sent::NoMemory | Sent::Spent | Sent::BadFlow | Sent::Empty | Sent::TooMany => Err(NoMemory),
    }
}

/// What is due is done.
pub fn pass(endpoint: &mut Endpoint, now: u64) -> Result<(), NoMemory>
    ensures after { OnOk result (endpoint.new ≡ after_event now Tick endpoint.old) }
    ensures cut { OnErr result (IsCutOff now Tick endpoint.old endpoint.new) }
{
    match endpoint.tick(now) {
        Ticked::Done => Ok(()),
        Ticked::NoMemory | Ticked::Spent => Err(NoMemory),
    }
}

/// A datagram comes, or it is answered why it is refused.
pub fn receive(
    endpoint: &mut Endpoint,
    now: u64,
    link: u16,
    datagram: &[u8],
    waited: u32,
) -> Result<Option<Received>, NoMemory>
    ensures refused { IfOk result (λ refused. refused ≡ arrive_refusal link datagram.now waited endpoint.old) }
    ensures after { IfOk result (λ refused. endpoint.new ≡ came_to refused now link datagram.now waited endpoint.old) }
    ensures unrefused { OnErr result (arrive_refusal link datagram.now waited endpoint.old ≡ None) }
    ensures cut { OnErr result (Breaks now (arrive_event link datagram.now waited) endpoint.old endpoint.new) }
{
    match endpoint.arrive(now, link, datagram, waited) {
        Received::Done => Ok(None),
        Received::NoMemory => Err(NoMemory),
        Received::Spent => Ok(Some(Received::Spent)),
        Received::NoLink => Ok(Some(Received::NoLink)),
        Received::Bad { fault } => Ok(Some(Received::Bad { fault })),
        Received::Stale => Ok(Some(Received::Stale)),
    }
}
