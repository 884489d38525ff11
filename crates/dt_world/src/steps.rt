//! What happens to a world in an event that isn't refused.
ghost use Rattle.std.specs.Prelude.{◌≡◌, ◌+◌, ◌<◌, ◌↔◌, IsTrue, length, None};
ghost use Rattle.dt_flow_model.specs.Keeping.{octets_below};
ghost use Rattle.dt_world_model.specs.Ledgers.{ledger_of};
ghost use Rattle.dt_units.specs.Flows.{IsFlow};
ghost use Rattle.dt_world_model.specs.WorldStep.{first_refusal, refusals};
ghost use Rattle.dt_world.specs.Applying.{IsApplied};
ghost use Rattle.dt_notes.specs.Events.{MayStep, event_of, most_read};
ghost use Rattle.dt_world.specs.Worlds.{IsWhole, world_seen};

use crate::doing;
use crate::world_parts::WorldParts;
use dt_items::{MarkedOctets, NoMemory};
use dt_layout::Frame;
use dt_notes::{Event, Lines, stays_below};
use dt_units::Flow;

/// The event happens. `NoMemory` comes also where a count would pass its end: 2^62 octets of a flow,
/// 2^32 lives of a station, a moment of 2^61 ms.
pub fn apply_event<L: Lines>(
    parts: &mut WorldParts,
    event: &Event<'_>,
    buf: &mut [u8],
    frame: &mut Frame,
    lines: &mut L,
) -> Result<(), NoMemory>
    requires whole { IsWhole parts.old }
    requires begun { first_refusal (refusals (world_seen parts.old) (event_of event.now)) ≡ None }
    requires may { MayStep (event_of event.now) }
    requires room { length buf.old ≡ most_read }
    ensures { IsApplied L.tells result parts.old (event_of event.now) lines.old lines.new parts.new }
{
    match *event {
        Event::Pass { by } => doing::pass(parts, by),
        Event::Send {
            flow,
            octets,
            begin,
            end,
        } => {
            if !can_take(parts, flow, octets.len() as u64) {
                return Err(NoMemory);
            }
            let sent = MarkedOctets { octets, begin, end };
            doing::send(parts, flow, sent, lines)
        }
        Event::Read { flow, max } => doing::read(parts, flow, &mut buf[..max as usize], lines),
        Event::Tick { station } => doing::tick(parts, station.0, lines),
        Event::Arrive { copy } => doing::arrive(parts, copy, buf, frame, lines),
        Event::Lose { copy } => {
            doing::lose(parts, copy, lines);
            Ok(())
        }
        Event::Restart { station } => doing::restart(parts, station.0, lines),
    }
}

/// Whether the flow can take `count` octets more.
fn can_take(parts: &WorldParts, flow: Flow, count: u64) -> bool
    ensures can { IsTrue result ↔ (length (ledger_of (world_seen parts.entry.now).ledgers flow).taken + count < octets_below) }
    ensures flow { IsFlow flow }
{
    stays_below(parts.notes.ledger.taken_count(&flow), count)
}
