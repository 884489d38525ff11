//! The parts of a world, and what happens to them.
ghost use Rattle.std.specs.Prelude.{◌≡◌, ◌+◌, ◌==◌, OnOk, Some};
ghost use Rattle.dt_world_model.specs.Tables.{AllEntries, look};
ghost use Rattle.dt_world_model.specs.World.{Placed};
ghost use Rattle.dt_world_model.specs.WorldFacts.{IsPossible};
ghost use Rattle.dt_world_model.specs.WorldStep.{at_station};
ghost use Rattle.dt_world.specs.PlacedEvents.{MayCome, event_seen};
ghost use Rattle.dt_world.specs.Steps.{Brings};
ghost use Rattle.dt_world.specs.Stopping.{ComesAt};
ghost use Rattle.dt_world.specs.Outcomes.{Happens};
ghost use Rattle.dt_world.specs.Worlds.{IsStationOf, IsWhole, world_seen};

use crate::placed_events::PlacedEvent;
use crate::placed_stations::{PlacedStation, deliver_to_station};
use dt_items::NoMemory;
use dt_notes::{Brought, EventContext, Lines, Notes};
use dt_units::Rules;
use dt_world_model::Link;
use indexmap::IndexMap;

/// The parts of a world.
#[derive(Drop)]
pub struct WorldParts {
    pub rules: Rules,
    /// The moment, in ms, at most 2^61.
    pub now: u64,
    /// The stations by their nodes' numbers, in the order of the setup.
    pub stations: IndexMap<u32, PlacedStation>,
    /// The links by their numbers, in the order of the setup.
    pub links: IndexMap<u16, Link>,
    pub notes: Notes,
}

/// An event at a station. One that isn't there does nothing.
pub fn event_at<L: Lines>(
    parts: &mut WorldParts,
    node: u32,
    event: &mut PlacedEvent<'_>,
    brought: Brought<'_>,
    lines: &mut L,
) -> Result<(), NoMemory>
    requires whole { IsWhole parts.old }
    requires possible { (at : Placed) → look ◌==◌ node (world_seen parts.old).stations ≡ Some at
        → IsPossible (world_seen parts.old) node (event_seen event.old) }
    requires brings { Brings (world_seen parts.old) node (event_seen event.old) brought }
    requires may { (s : PlacedStation) → look ◌==◌ node parts.old.stations.entries ≡ Some s
        → MayCome parts.old.rules (parts.old.now + s.zero) s.station.state event.old }
    ensures happens { let w = world_seen parts.old in
        Happens L.tells result w (ComesAt w node (event_seen event.old)) (at_station w node (event_seen event.old)) lines.old lines.new (world_seen parts.new) }
    ensures stations { OnOk result (AllEntries (IsStationOf parts.old.rules parts.old.now) parts.new.stations.entries) }
    ensures rules { parts.new.rules ≡ parts.old.rules }
    ensures now { parts.new.now ≡ parts.old.now }
    ensures links { parts.new.links ≡ parts.old.links }
{
    match parts.stations.get_mut(&node) {
        None => Ok(()),
        Some(placed) => {
            let context = EventContext {
                rules: &parts.rules,
                now: parts.now,
                node,
                life: placed.life,
                brought,
            };
            deliver_to_station(placed, event, context, &mut parts.notes, lines)
        }
    }
}
