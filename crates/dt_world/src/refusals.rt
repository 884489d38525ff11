//! Why an event of a world is refused: the first of its tests that holds.
ghost use Rattle.std.specs.Prelude.{◌≡◌, ◌==◌, [], ◌∷◌};
ghost use Rattle.dt_world_model.specs.Tables.{has_key};
ghost use Rattle.dt_world_model.specs.WorldStep.{first_refusal, is_late_copy, is_lost, is_own, lacks_copy, lacks_station, link_in, refusals};
ghost use Rattle.dt_notes.specs.Setups.{AreNumbered};
ghost use Rattle.dt_notes.specs.Events.{event_of};
ghost use Rattle.dt_world.specs.Worlds.{world_seen};

use crate::world_parts::WorldParts;
use dt_notes::Event;
use dt_reports::StepFault;
use dt_units::Flow;
use dt_world_model::Link;

/// The fault with which the event is refused, if it is.
pub fn refusal(parts: &WorldParts, event: &Event<'_>) -> Option<StepFault>
    requires numbers { AreNumbered parts.now.links.entries }
    ensures { result ≡ first_refusal (refusals (world_seen parts.entry.now) (event_of event.now)) }
{
    match *event {
        Event::Pass { .. } => None,
        Event::Send { flow, .. } => flow_refusal(parts, &flow, flow.from.0),
        Event::Read { flow, .. } => flow_refusal(parts, &flow, flow.to.0),
        Event::Tick { station } => station_refusal(parts, station.0),
        Event::Arrive { copy } => arrival_refusal(parts, copy),
        Event::Lose { copy } => loss_refusal(parts, copy),
        Event::Restart { station } => station_refusal(parts, station.0),
    }
}

fn station_refusal(parts: &WorldParts, n: u32) -> Option<StepFault>
    ensures { result ≡ first_refusal (lacks_station (world_seen parts.entry.now) n ∷ []) }
{
    if !has_station(parts, n) {
        return Some(StepFault::NoStation { n });
    }
    None
}

fn flow_refusal(parts: &WorldParts, flow: &Flow, n: u32) -> Option<StepFault>
    ensures { result ≡ first_refusal (is_own flow.now ∷ lacks_station (world_seen parts.entry.now) n ∷ []) }
{
    if flow.from.0 == flow.to.0 {
        return Some(StepFault::BadFlow);
    }
    if !has_station(parts, n) {
        return Some(StepFault::NoStation { n });
    }
    None
}

fn loss_refusal(parts: &WorldParts, copy: u32) -> Option<StepFault>
    ensures { let w = world_seen parts.entry.now in
        result ≡ first_refusal (lacks_copy w copy ∷ is_lost w copy ∷ []) }
{
    match parts.notes.copies.get(u64::from(copy)) {
        None => Some(StepFault::NoCopy { n: copy }),
        Some(seen) => {
            if seen.lost {
                return Some(StepFault::Lost { n: copy });
            }
            None
        }
    }
}

fn arrival_refusal(parts: &WorldParts, copy: u32) -> Option<StepFault>
    requires numbers { AreNumbered parts.now.links.entries }
    ensures { let w = world_seen parts.entry.now in
        result ≡ first_refusal (lacks_copy w copy ∷ is_lost w copy ∷ is_late_copy w copy ∷ []) }
{
    match parts.notes.copies.get(u64::from(copy)) {
        None => Some(StepFault::NoCopy { n: copy }),
        Some(seen) => {
            if seen.lost {
                return Some(StepFault::Lost { n: copy });
            }
            let held = parts.now.saturating_sub(seen.put);
            let charge = link_of(parts, seen.link).charge;
            if u64::from(charge) < held {
                return Some(StepFault::TooLate { held, charge });
            }
            None
        }
    }
}

/// Whether the station is there.
pub fn has_station(parts: &WorldParts, n: u32) -> bool
    ensures { result ≡ has_key ◌==◌ n (world_seen parts.entry.now).stations }
{
    parts.stations.contains_key(&n)
}

/// The link of that number. Where there is none, which no copy meets, it is a link of node 0.
pub fn link_of(parts: &WorldParts, number: u16) -> Link
    requires numbers { AreNumbered parts.now.links.entries }
    ensures { result ≡ link_in number (world_seen parts.entry.now).links }
{
    match parts.links.get(&number) {
        Some(link) => *link,
        None => Link {
            link: 0,
            from: 0,
            to: 0,
            charge: 0,
            pace: 0,
        },
    }
}
