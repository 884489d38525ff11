//! The names of the requests that are open.
ghost use Rattle.std.specs.Prelude.{◌≡◌, ◌++◌, ◌∷◌, [], IfOk, OnErr, OnOk, count_by, false, length};
ghost use Rattle.std.specs.List.{list_any};
ghost use Rattle.dt_world_model.specs.Tables.{same_flow};
ghost use Rattle.dt_service_model.specs.declared.names.Token.{Token};
ghost use Rattle.dt_service_model.specs.Names.{same_token};
ghost use Rattle.dt_service_model.specs.Whole.{without_token};

use crate::flow_counts::{count_of, one_less, one_more};
use dt_items::NoMemory;
use dt_ordered::OrderedMap;
use dt_service_model::Token;
use dt_units::Flow;
use indexmap::IndexMap;
use std::alloc::Global;
use std::marker::Model;

/// A token as a key.
#[derive(Clone, Copy, PartialEq, Eq, Hash)]
pub struct Name {
    flow: Flow,
    life: u32,
    count: u32,
}

/// The names of the requests that were handed out and have no reply yet, in the order of that. A contract
/// sees the list of them. A name is found, comes in and goes, and those of a flow are counted, at a cost
/// that doesn't grow with their number.
#[derive(Drop)]
pub struct Tokens {
    names: OrderedMap<Name, ()>,
    of_flows: IndexMap<Flow, usize>,
}

impl Model for Tokens {
    ghost use Rattle.std.specs.Prelude.{List};
    ghost use Rattle.dt_service_model.specs.declared.names.Token.{Token};
    ghost use Rattle.dt_tokens.specs.Tokens.{AreCounted, tokens_in};

    ghost Value = { List Token };

    ghost view = { λ t. tokens_in t.names };

    ghost invariant = { λ t. AreCounted t.of_flows.entries (tokens_in t.names) };
}

impl Tokens {
    ghost use Rattle.dt_tokens.specs.Tokens.{name_of};

    fn name(token: &Token) -> Name
        ensures { result ≡ name_of token.now }
    {
        Name {
            flow: token.flow,
            life: token.number.life,
            count: token.number.count,
        }
    }

    /// No request is open.
    pub fn new(alloc: Global) -> Result<Tokens, NoMemory>
        ensures { IfOk result (λ tokens. tokens ≡ []) }
    {
        Ok(Tokens {
            names: OrderedMap::new(alloc)?,
            of_flows: IndexMap::new(alloc),
        })
    }

    /// How many there are.
    pub fn len(&self) -> usize
        ensures { result ≡ length self.now }
    {
        self.names.len()
    }

    /// How many there are of a flow.
    pub fn of(&self, flow: &Flow) -> usize
        ensures { result ≡ count_by (λ (token : Token). same_flow token.flow flow.now) self.now }
    {
        count_of(flow, &self.of_flows)
    }

    /// Whether a name is among these.
    pub fn contains(&self, token: &Token) -> bool
        ensures { result ≡ list_any (same_token token.now) self.now }
    {
        self.names.contains(&Tokens::name(token))
    }

    /// A name that isn't among these comes last. `NoMemory` leaves all as it was.
    pub fn push(&mut self, token: Token) -> Result<(), NoMemory>
        requires { list_any (same_token token) self.old ≡ false }
        ensures ok { OnOk result (self.new ≡ self.old ++ token ∷ []) }
        ensures same { OnErr result (self.new ≡ self.old) }
    {
        let _count = self.names.len();
        one_more(token.flow, &mut self.of_flows)?;
        if let Err(no_memory) = self.names.push(Tokens::name(&token), ()) {
            one_less(&token.flow, &mut self.of_flows);
            return Err(no_memory);
        }
        Ok(())
    }

    /// The name is among these no more.
    pub fn remove(&mut self, token: &Token)
        ensures { self.new ≡ without_token token.now self.old }
    {
        if self.names.remove(&Tokens::name(token)).is_some() {
            one_less(&token.flow, &mut self.of_flows);
        }
    }

    /// No request is open any more.
    pub fn clear(&mut self)
        ensures { self.new ≡ [] }
    {
        self.names.clear();
        self.of_flows.clear();
    }
}
