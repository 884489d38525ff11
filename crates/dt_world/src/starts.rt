//! The stations of a world that begins.
ghost use Rattle.std.specs.Prelude.{◌≡◌, IfOk};
ghost use Rattle.dt_world_model.specs.Setup.{ins_of, new_world, outs_of, placed_first, routes_of};
ghost use Rattle.dt_world_model.specs.Tables.{AllEntries};
ghost use Rattle.dt_notes.specs.Setups.{links_of, stated_routes};
ghost use Rattle.dt_world.specs.Starts.{begun_stations};
ghost use Rattle.dt_world.specs.Worlds.{IsStationOf, IsWhole, placed_seen, stations_seen, world_seen};

use crate::placed_stations::{PlacedStation, Plan, start_first};
use crate::world_parts::WorldParts;
use dt_items::NoMemory;
use dt_ledger::Ledger;
use dt_notes::{Copies, Notes, Setup};
use dt_station::{InLink, OutLink, Route};
use dt_world_model::Link;
use indexmap::IndexMap;
use std::alloc::Global;

/// The parts of the world of a setup in which nothing has happened. They stand apart from the world's
/// buffer and frame, so that few values are dropped wherever memory runs out.
pub fn first_parts(alloc: Global, setup: &Setup) -> Result<Box<WorldParts>, NoMemory>
    ensures whole { IfOk result (λ parts. IsWhole parts.value) }
    ensures seen { IfOk result (λ parts. world_seen parts.value ≡ new_world setup.now) }
{
    let rules = *setup.rules();
    let stated = setup.links();
    let stations = first_stations(alloc, setup)?;
    let links = same_links(alloc, stated)?;
    let notes = Notes {
        ledger: Ledger::new(alloc),
        runs: IndexMap::new(alloc),
        copies: Copies::new(alloc),
    };
    let parts = WorldParts {
        rules,
        now: 0,
        stations,
        links,
        notes,
    };
    Ok(Box::new(alloc, parts)?)
}

/// All stations of a setup, each with its links and routes, in the order of the setup. The cost is that
/// of all links and routes for each station.
pub fn first_stations(
    alloc: Global,
    setup: &Setup,
) -> Result<IndexMap<u32, PlacedStation>, NoMemory>
    ensures seen { IfOk result (λ stations. stations_seen stations.entries ≡ begun_stations setup.now setup.now.stations) }
    ensures all { IfOk result (λ stations. AllEntries (IsStationOf setup.now.params 0) stations.entries) }
{
    let zeros = setup.zeros();
    let mut stations = IndexMap::new(alloc);
    for (node, zero) in zeros.iter() {
        let placed = first_station(alloc, setup, *node, *zero)?;
        stations.insert(*node, placed)?;
    }
    Ok(stations)
}

/// The same links in a table of its own.
pub fn same_links(
    alloc: Global,
    links: &IndexMap<u16, Link>,
) -> Result<IndexMap<u16, Link>, NoMemory>
    ensures { IfOk result (λ same. same.entries ≡ links.now.entries) }
{
    let mut same = IndexMap::new(alloc);
    for (number, link) in links.iter() {
        same.insert(*number, *link)?;
    }
    Ok(same)
}

/// A station of a setup, which starts for the first time.
fn first_station(
    alloc: Global,
    setup: &Setup,
    node: u32,
    zero: u32,
) -> Result<PlacedStation, NoMemory>
    ensures seen { IfOk result (λ placed. placed_seen placed ≡ placed_first setup.now node zero) }
    ensures station { IfOk result (IsStationOf setup.now.params 0 node) }
{
    let plan = Plan {
        outs: outs_of(alloc, setup.links(), node)?,
        ins: ins_of(alloc, setup.links(), node)?,
        routes: routes_of(alloc, setup.ways(), node)?,
    };
    let station = start_first(alloc, setup.rules(), node, &plan)?;
    Ok(PlacedStation {
        zero,
        life: 0,
        plan,
        station,
    })
}

/// The links that leave a station.
fn outs_of(alloc: Global, links: &IndexMap<u16, Link>, node: u32) -> Result<Vec<OutLink>, NoMemory>
    ensures { IfOk result (λ outs. outs.items ≡ outs_of node (links_of links.now.entries)) }
{
    let mut outs = Vec::new(alloc);
    for (_, link) in links.iter() {
        if link.from == node {
            outs.push(OutLink {
                link: link.link,
                pace: link.pace,
            })?;
        }
    }
    Ok(outs)
}

/// The links that come to a station.
fn ins_of(alloc: Global, links: &IndexMap<u16, Link>, node: u32) -> Result<Vec<InLink>, NoMemory>
    ensures { IfOk result (λ ins. ins.items ≡ ins_of node (links_of links.now.entries)) }
{
    let mut ins = Vec::new(alloc);
    for (_, link) in links.iter() {
        if link.to == node {
            ins.push(InLink {
                link: link.link,
                charge: link.charge,
            })?;
        }
    }
    Ok(ins)
}

/// The routes of a station.
fn routes_of(
    alloc: Global,
    ways: &IndexMap<(u32, u32), u16>,
    node: u32,
) -> Result<Vec<Route>, NoMemory>
    ensures { IfOk result (λ routes. routes.items ≡ routes_of node (stated_routes ways.now.entries)) }
{
    let mut routes = Vec::new(alloc);
    for (way, link) in ways.iter() {
        if way.0 == node {
            routes.push(Route {
                to: way.1,
                link: *link,
            })?;
        }
    }
    Ok(routes)
}
