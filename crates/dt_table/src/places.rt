//! `Places`, a table in which each flow has at most one place, found in constant time.
ghost use Rattle.std.specs.Prelude.{ℕ, ◌≡◌, ◌≢◌, ◌<◌, ◌≤◌, [], length, set, OnErr, OnOk, Some, None};
ghost use Rattle.dt_table.specs.Places.{StandOnce, place_in, present, slot};

use dt_items::NoMemory;
use dt_units::Flow;
use indexmap::IndexMap;
use std::alloc::Global;
use std::marker::Model;

/// The places of flows, each of which is empty or one flow's. A flow stands in one place at most. A
/// contract sees the list of the places. The place of a flow is found in constant time.
#[derive(Drop)]
pub struct Places {
    index: IndexMap<Flow, usize>,
    flows: Vec<Option<Flow>>,
}

impl Model for Places {
    ghost use Rattle.std.specs.Prelude.{List, Option};
    ghost use Rattle.dt_units.specs.declared.endpoints.Flow.{Flow};
    ghost use Rattle.dt_table.specs.Places.{AreIndexed};

    ghost Value = { List (Option Flow) };

    ghost view = { λ p. p.flows.items };

    ghost invariant = { λ p. AreIndexed p.index.entries p.flows.items };
}

impl Places {
    /// No places. It takes no memory; what later calls take is taken of `alloc`.
    pub fn new(alloc: Global) -> Places
        ensures { result ≡ [] }
    {
        Places {
            index: IndexMap::new(alloc),
            flows: Vec::new(alloc),
        }
    }

    /// The place of a flow.
    pub fn find(&self, flow: &Flow) -> Option<usize>
        ensures place { result ≡ place_in flow.now self.now }
        ensures once { StandOnce self.now }
    {
        self.index.get(flow).copied()
    }

    /// How many places are a flow's.
    pub fn count(&self) -> usize
        ensures count { result ≡ length (present self.now) }
        ensures once { StandOnce self.now }
    {
        self.index.len()
    }

    /// Sees to it that there are more places than `count`, where there are `count` at least. One that is
    /// made is empty. `NoMemory` leaves all as it was.
    pub fn hold(&mut self, count: usize) -> Result<(), NoMemory>
        requires { count ≤ length self.old }
        ensures ok { OnOk result (count < length self.new) }
        ensures room { length self.old ≤ length self.new }
        ensures same { (i : ℕ) → slot self.new i ≡ slot self.old i }
        ensures err { OnErr result (self.new ≡ self.old) }
    {
        if count == self.flows.len() {
            self.flows.push(None)?;
        }
        Ok(())
    }

    /// A flow that stands nowhere takes an empty place. `NoMemory` leaves all as it was.
    pub fn assign(&mut self, place: usize, flow: &Flow) -> Result<(), NoMemory>
        requires within { place < length self.old }
        requires empty { slot self.old place ≡ None }
        requires new { place_in flow.now self.old ≡ None }
        ensures ok { OnOk result (self.new ≡ set self.old place (Some flow.now)) }
        ensures err { OnErr result (self.new ≡ self.old) }
    {
        self.index.insert(*flow, place)?;
        self.flows[place] = Some(*flow);
        Ok(())
    }

    /// A flow leaves its place.
    pub fn leave(&mut self, place: usize, flow: &Flow)
        requires { place_in flow.now self.old ≡ Some place }
        ensures { self.new ≡ set self.old place None }
    {
        self.index.swap_remove(flow);
        self.flows[place] = None;
    }

    /// The flow of a place moves to an empty one, or stays where it is.
    pub fn shift(&mut self, flow: &Flow, from: usize, to: usize)
        requires here { place_in flow.now self.old ≡ Some from }
        requires within { to < length self.old }
        requires empty { to ≢ from → slot self.old to ≡ None }
        ensures { self.new ≡ set (set self.old from None) to (Some flow.now) }
    {
        if to == from {
            return;
        }
        let Some(place) = self.index.get_mut(flow) else {
            unreachable!();
        };
        *place = to;
        self.flows[from] = None;
        self.flows[to] = Some(*flow);
    }
}
