//! Flows in the order in which they came.
ghost use Rattle.std.specs.Prelude.{◌≡◌, ◌++◌, ◌∷◌, [], IfOk, OnErr, OnOk, false, filter, not};
ghost use Rattle.std.specs.List.{list_any};
ghost use Rattle.dt_world_model.specs.Tables.{same_flow};

use dt_items::NoMemory;
use dt_ordered::OrderedMap;
use dt_units::Flow;
use std::alloc::Global;
use std::marker::Model;

/// Flows, each once, in the order in which they came. A contract sees the list of them. A flow is found,
/// comes in and goes at a cost that doesn't grow with their number.
#[derive(Drop)]
pub struct Flows {
    flows: OrderedMap<Flow, ()>,
}

impl Model for Flows {
    ghost use Rattle.std.specs.Prelude.{List};
    ghost use Rattle.dt_units.specs.declared.endpoints.Flow.{Flow};
    ghost use Rattle.dt_tokens.specs.Keys.{keys_in};

    ghost Value = { List Flow };

    ghost view = { λ s. keys_in s.flows };
}

impl Flows {
    /// No flows.
    pub fn new(alloc: Global) -> Result<Flows, NoMemory>
        ensures { IfOk result (λ flows. flows ≡ []) }
    {
        Ok(Flows {
            flows: OrderedMap::new(alloc)?,
        })
    }

    /// Whether a flow is among these.
    pub fn contains(&self, flow: &Flow) -> bool
        ensures { result ≡ list_any (λ g. same_flow g flow.now) self.now }
    {
        self.flows.contains(flow)
    }

    /// A flow that isn't among these comes last. `NoMemory` leaves all as it was.
    pub fn push(&mut self, flow: Flow) -> Result<(), NoMemory>
        requires { list_any (λ g. same_flow g flow) self.old ≡ false }
        ensures ok { OnOk result (self.new ≡ self.old ++ flow ∷ []) }
        ensures same { OnErr result (self.new ≡ self.old) }
    {
        self.flows.push(flow, ())
    }

    /// A flow is among these no more.
    pub fn remove(&mut self, flow: &Flow)
        ensures { self.new ≡ filter (λ g. not (same_flow g flow.now)) self.old }
    {
        self.flows.remove(flow);
    }

    /// No flow is among these any more.
    pub fn clear(&mut self)
        ensures { self.new ≡ [] }
    {
        self.flows.clear();
    }

    /// All of them. The cost is that of a copy.
    pub fn to_vec(&self, alloc: Global) -> Result<Vec<Flow>, NoMemory>
        ensures { IfOk result (λ flows. flows.items ≡ self.now) }
    {
        self.flows.keys(alloc)
    }
}
