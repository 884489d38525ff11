//! The setup of a world.
ghost use Rattle.std.specs.Prelude.{◌≡◌, ◌==◌, IfErr, OnErr, OnOk, is_some, Ok};
ghost use Rattle.std.specs.Option.{option_copied};
ghost use Rattle.dt_units.specs.Limits.{IsWithinLimits};
ghost use Rattle.dt_world_model.specs.Relay.{route_to};
ghost use Rattle.dt_world_model.specs.Setup.{AddLink, AddRoute, AddStation, new_setup, routes_of, setup_call, setup_refusals};
ghost use Rattle.dt_world_model.specs.Tables.{has_key, look};
ghost use Rattle.dt_world_model.specs.WorldStep.{first_refusal, numbered};
ghost use Rattle.dt_notes.specs.Setups.{AreNumbered, IsFaultOf, links_of, stated_routes};

use dt_reports::SetupFault;
use dt_units::{NodeId, Rules};
use dt_world_model::{Link, Route};
use indexmap::IndexMap;
use std::alloc::Global;
use std::marker::Model;

/// The stations, links and routes of a world that is to begin, in the order of their adding.
///
/// A station, a link and a route are looked up by their numbers, at a cost that doesn't grow. Zeros,
/// charges and paces are milliseconds. A call that isn't Ok leaves the setup as it was.
#[derive(Drop)]
pub struct Setup {
    rules: Rules,
    /// How far each station's clock is ahead of the world's moment.
    zeros: IndexMap<u32, u32>,
    links: IndexMap<u16, Link>,
    /// The link of each route, by the station that has it and the node that it leads to.
    ways: IndexMap<(u32, u32), u16>,
}

impl Model for Setup {
    ghost use Rattle.dt_world_model.specs.Setup.{Setup as SetupValue};
    ghost use Rattle.dt_notes.specs.Setups.{AreNumbered, links_of, stated_routes};

    ghost Value = { SetupValue };

    ghost view = { λ s. record { params = s.rules; stations = s.zeros.entries; links = links_of s.links.entries; routes = stated_routes s.ways.entries } };

    ghost invariant = { λ s. AreNumbered s.links.entries };
}

impl Setup {
    /// A setup with nothing in it. What later calls take is taken of `alloc`.
    pub fn new(alloc: Global, rules: Rules) -> Setup
        ensures { result ≡ new_setup rules }
    {
        Setup {
            rules,
            zeros: IndexMap::new(alloc),
            links: IndexMap::new(alloc),
            ways: IndexMap::new(alloc),
        }
    }

    /// Adds a station whose clock is `zero` ms ahead of the world's moment.
    ///
    /// - `Twice`: the station stands already.
    /// - `NoMemory`: there was none.
    pub fn add_station(&mut self, station: NodeId, zero: u32) -> Result<(), SetupFault>
        ensures ok { OnOk result (setup_call self.old (AddStation station.0 zero) ≡ Ok self.new) }
        ensures fault { IfErr result (IsFaultOf (setup_call self.old (AddStation station.0 zero))) }
        ensures same { OnErr result (self.new ≡ self.old) }
    {
        if let Some(fault) = self.station_fault(station, zero) {
            return Err(fault);
        }
        match self.zeros.insert(station.0, zero) {
            Ok(_) => Ok(()),
            Err(_) => Err(SetupFault::NoMemory),
        }
    }

    /// Adds a link from one station to another: what comes over it pays `charge` ms of its life, which
    /// is also the longest time that a copy may be on it, and packets leave on it `pace` ms apart.
    ///
    /// They are tested in this order:
    ///
    /// - `Twice`: the link stands already.
    /// - `Unknown`: `from`, or then `to`, isn't a station.
    /// - `Stray`: `from` is `to`.
    /// - `NoMemory`: there was none.
    pub fn add_link(
        &mut self,
        link: u16,
        from: NodeId,
        to: NodeId,
        charge: u32,
        pace: u32,
    ) -> Result<(), SetupFault>
        ensures ok { let call = AddLink record { link = link; from = from.0; to = to.0; charge = charge; pace = pace } in
            OnOk result (setup_call self.old call ≡ Ok self.new) }
        ensures fault { let call = AddLink record { link = link; from = from.0; to = to.0; charge = charge; pace = pace } in
            IfErr result (IsFaultOf (setup_call self.old call)) }
        ensures same { OnErr result (self.new ≡ self.old) }
    {
        let added = Link {
            link,
            from: from.0,
            to: to.0,
            charge,
            pace,
        };
        if let Some(fault) = self.link_fault(&added) {
            return Err(fault);
        }
        match self.links.insert(link, added) {
            Ok(_) => Ok(()),
            Err(_) => Err(SetupFault::NoMemory),
        }
    }

    /// Adds a route of a station: its packets to the node `to`, which need not be a station, leave on
    /// the link.
    ///
    /// They are tested in this order:
    ///
    /// - `Unknown`: `at` isn't a station, or then the link isn't there.
    /// - `Stray`: the link doesn't begin at `at`, or `to` is `at`.
    /// - `Twice`: `at` has a route to `to` already.
    /// - `NoMemory`: there was none.
    pub fn add_route(&mut self, at: NodeId, to: NodeId, link: u16) -> Result<(), SetupFault>
        ensures ok { OnOk result (setup_call self.old (AddRoute at.0 record { to = to.0; link = link }) ≡ Ok self.new) }
        ensures fault { IfErr result (IsFaultOf (setup_call self.old (AddRoute at.0 record { to = to.0; link = link }))) }
        ensures same { OnErr result (self.new ≡ self.old) }
    {
        let added = Route { to: to.0, link };
        if let Some(fault) = self.route_fault(at, added) {
            return Err(fault);
        }
        match self.ways.insert((at.0, to.0), link) {
            Ok(_) => Ok(()),
            Err(_) => Err(SetupFault::NoMemory),
        }
    }

    /// The parameters, each in its range.
    pub fn rules(&self) -> &Rules
        ensures same { result.now ≡ self.now.params }
        ensures within { IsWithinLimits self.now.params }
    {
        // Its contract is where checked parameters are said to be in their ranges.
        let _ = self.rules.params();
        &self.rules
    }

    /// How far each station's clock is ahead, in the order of the stations' adding.
    pub fn zeros(&self) -> &IndexMap<u32, u32>
        ensures { result.now.entries ≡ self.now.stations }
    {
        &self.zeros
    }

    /// The links by their numbers, in the order of their adding.
    pub fn links(&self) -> &IndexMap<u16, Link>
        ensures links { links_of result.now.entries ≡ self.now.links }
        ensures numbers { AreNumbered result.now.entries }
    {
        &self.links
    }

    /// The link of each route, by the station that has it and the node that it leads to, in the order of
    /// the routes' adding.
    pub fn ways(&self) -> &IndexMap<(u32, u32), u16>
        ensures { stated_routes result.now.entries ≡ self.now.routes }
    {
        &self.ways
    }

    fn station_fault(&self, station: NodeId, zero: u32) -> Option<SetupFault>
        ensures { result ≡ first_refusal (setup_refusals self.now (AddStation station.0 zero)) }
    {
        if self.has_station(station.0) {
            return Some(SetupFault::Twice { n: station.0 });
        }
        None
    }

    fn link_fault(&self, added: &Link) -> Option<SetupFault>
        ensures { result ≡ first_refusal (setup_refusals self.now (AddLink added.now)) }
    {
        let n = u32::from(added.link);
        if self.link(added.link).is_some() {
            return Some(SetupFault::Twice { n });
        }
        if !self.has_station(added.from) {
            return Some(SetupFault::Unknown { n: added.from });
        }
        if !self.has_station(added.to) {
            return Some(SetupFault::Unknown { n: added.to });
        }
        if added.from == added.to {
            return Some(SetupFault::Stray { n });
        }
        None
    }

    fn route_fault(&self, at: NodeId, added: Route) -> Option<SetupFault>
        ensures { result ≡ first_refusal (setup_refusals self.now (AddRoute at.0 added)) }
    {
        let n = u32::from(added.link);
        if !self.has_station(at.0) {
            return Some(SetupFault::Unknown { n: at.0 });
        }
        let Some(link) = self.link(added.link) else {
            return Some(SetupFault::Unknown { n });
        };
        if link.from != at.0 || added.to == at.0 {
            return Some(SetupFault::Stray { n });
        }
        if self.has_route(at.0, added.to) {
            return Some(SetupFault::Twice { n: added.to });
        }
        None
    }

    fn has_station(&self, station: u32) -> bool
        ensures { result ≡ has_key ◌==◌ station self.now.stations }
    {
        self.zeros.contains_key(&station)
    }

    fn link(&self, number: u16) -> Option<&Link>
        ensures { option_copied result ≡ look ◌==◌ number (numbered self.now.links) }
    {
        self.links.get(&number)
    }

    fn has_route(&self, at: u32, to: u32) -> bool
        ensures { result ≡ is_some (route_to to (routes_of at self.now.routes)) }
    {
        self.ways.contains_key(&(at, to))
    }
}
