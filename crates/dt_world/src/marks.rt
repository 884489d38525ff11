//! The mark of a frame that a host made.
ghost use Rattle.std.specs.Prelude.{◌≡◌, ◌≢◌, ◌↔◌, IfSome, IsNone};
ghost use Rattle.dt_layout.specs.Reading.{gram_in, packet_read};
ghost use Rattle.dt_layout.specs.Spelling.{packet_of};
ghost use Rattle.dt_flow_model.specs.Flow.{ack_place};
ghost use Rattle.dt_flow_model.specs.Ledger.{top};
ghost use Rattle.dt_world_model.specs.Host.{receiver_at, sender_at};
ghost use Rattle.dt_world_model.specs.Ledgers.{ledger_of, mark_of, place_for, place_sent};
ghost use Rattle.dt_ledger.specs.Flows.{ledger_in};
ghost use Rattle.dt_world.specs.Marks.{IsForeign, LacksMark};
ghost use Rattle.dt_notes.specs.Notes.{ledgers_seen};
ghost use Rattle.dt_notes.specs.Occasions.{occasion_seen};

use dt_host::{Host, flow_of_packet};
use dt_layout::{GramOctets, Packet, read_packet};
use dt_ledger::Ledger;
use dt_notes::{EventContext, Mark, Notes};
use dt_units::{Flow, NodeId};

/// The mark of a frame that the host made: it is born now, and its place is known from the ledger and
/// from the host after the act or the reply that made it. None comes exactly where the frame carries no
/// packet, or one that a sender made, of a host whose numbers begin elsewhere than the event's.
pub fn mark_of(
    notes: &Notes,
    context: &EventContext<'_>,
    host: &Host,
    gram: GramOctets<'_>,
) -> Option<Mark>
    ensures mark { IfSome result (λ mark. mark ≡ mark_of (occasion_seen context.entry.now) (ledgers_seen notes.now) host.now.state gram.entry.octets.now) }
    ensures none { IsNone result ↔ LacksMark context.entry.now.rules.now host.now.rules (packet_read (gram_in gram.entry.octets.now)) }
{
    let gram = gram.deltagram();
    let packet = match read_packet(&gram) {
        Ok(packet) => packet,
        Err(_) => return None,
    };
    let flow = flow_of_packet(NodeId(gram.from), NodeId(gram.to), &packet);
    match place_of(notes, context, host, &flow, &packet) {
        Some(place) => Some(Mark::new(context.now, place)),
        None => None,
    }
}

/// The place of a packet of the flow. None comes exactly where a sender made it, of a host whose numbers
/// begin elsewhere than the event's.
fn place_of(
    notes: &Notes,
    context: &EventContext<'_>,
    host: &Host,
    flow: &Flow,
    packet: &Packet<'_>,
) -> Option<u64>
    ensures place { IfSome result (λ place. place ≡ place_for (occasion_seen context.entry.now) (ledger_of (ledgers_seen notes.now) flow.now) host.now.state flow.now (packet_of packet.now)) }
    ensures none { IsNone result ↔ IsForeign context.entry.now.rules.now host.now.rules (packet_of packet.now) }
{
    match *packet {
        Packet::Data { number, .. } => sent_place(notes, context, host, flow, number),
        Packet::Meet { number, .. } => sent_place(notes, context, host, flow, number),
        Packet::Ack { number, .. } => {
            Some(acknowledged_place(notes, context, host, flow, number))
        }
        Packet::Close { .. } => Some(0),
    }
}

/// The place of a number that the flow's sender sent: the count taken, less the count waiting, less how
/// far the number is before the next one. None comes exactly where the host's numbers begin elsewhere.
fn sent_place(
    notes: &Notes,
    context: &EventContext<'_>,
    host: &Host,
    flow: &Flow,
    number: u32,
) -> Option<u64>
    ensures place { IfSome result (λ place. place ≡ place_sent context.entry.now.rules.now (ledger_of (ledgers_seen notes.now) flow.now) number (sender_at host.now.state flow.now)) }
    ensures none { IsNone result ↔ (host.now.rules.start ≢ context.entry.now.rules.now.start) }
{
    if host.rules().params().start != context.rules.params().start {
        return None;
    }
    let Some(next) = host.next_number(flow) else {
        return Some(0);
    };
    let taken = notes.ledger.taken_count(flow);
    let waiting = u64::from(host.waiting(flow));
    let ahead = u64::from(next.wrapping_sub(number));
    Some(taken.saturating_sub(waiting).saturating_sub(ahead))
}

/// The place of an acknowledgement of the flow: the one after the last given where its number is the
/// expected one, else that of the packet that it answers.
fn acknowledged_place(
    notes: &Notes,
    context: &EventContext<'_>,
    host: &Host,
    flow: &Flow,
    number: u32,
) -> u64
    ensures { result ≡ ack_place (receiver_at host.now.state flow.now).standing (ledger_of (ledgers_seen notes.now) flow.now).given number context.entry.now.brought.place }
{
    match host.expected(flow) {
        Some(expected) => {
            if number == expected {
                after_given(&notes.ledger, flow)
            } else {
                context.brought.place
            }
        }
        None => context.brought.place,
    }
}

/// The place after the last one that was given to the flow's receiver, at most 2^62.
fn after_given(ledger: &Ledger, flow: &Flow) -> u64
    ensures { result ≡ top (ledger_in ledger.now flow.now).given }
{
    match ledger.last_given(flow) {
        Some(place) => place + 1,
        None => 0,
    }
}
