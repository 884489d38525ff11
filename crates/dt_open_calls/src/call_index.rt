//! What finds a call.
ghost use Rattle.std.specs.Prelude.{ℕ, ◌≡◌, ◌≤◌, ◌/◌, [], nat_eq, OnErr, OnOk};
ghost use Rattle.std.specs.Map.{lookup};
ghost use Rattle.dt_table.specs.Places.{equal_flows};
ghost use Rattle.dt_service_model.specs.declared.calls.OpenCall.{OpenCall};
ghost use Rattle.dt_service_model.specs.Names.{to_u64};
ghost use Rattle.dt_open_calls.specs.Slots.{AreDue, IsFound, IsNoLater, block_of, due_at};

use crate::ends::due_of;
use crate::spans::{Span, widen_flow, widen_number};
use dt_items::NoMemory;
use dt_service_model::OpenCall;
use dt_units::Flow;
use indexmap::IndexMap;
use std::alloc::Global;

/// How many places are a block.
pub const BLOCK: usize = 64;

/// Where calls are: by number, by flow, and by the moment at which something is due of them.
#[derive(Drop)]
pub struct CallIndex {
    /// The places before this one are empty.
    pub first: usize,
    /// For each block of places a moment before which nothing is due of its calls.
    pub dues: Vec<u64>,
    /// For each number the places from the first to the last of the calls with this number that wait.
    pub numbers: IndexMap<u64, Span>,
    /// For each flow the places from the first to the last of its calls that have octets without a fate.
    pub flows: IndexMap<Flow, Span>,
}

/// The moment before which nothing is due in a block.
pub fn due_in(dues: &[u64], block: usize) -> u64
    ensures { result ≡ due_at dues.now block }
{
    match dues.get(block) {
        Some(due) => *due,
        None => 0,
    }
}

/// What is due of a call that is in this place now is noted of its block.
pub fn touch(dues: &mut Vec<u64>, place: usize, call: &OpenCall)
    ensures earlier { (block : ℕ) → due_at dues.new.items block ≤ due_at dues.old.items block }
    ensures here { IsNoLater (due_at dues.new.items (block_of place)) call.now }
{
    let block = place / BLOCK;
    let due = due_of(call);
    if block < dues.len() && due < dues[block] {
        dues[block] = due;
    }
}

/// Sees to it that a block has a moment, where the one before it has one.
fn hold_block(dues: &mut Vec<u64>, block: usize) -> Result<(), NoMemory>
    ensures { (b : ℕ) → due_at dues.new.items b ≡ due_at dues.old.items b }
{
    if dues.len() == block {
        dues.push(0)?;
    }
    Ok(())
}

impl CallIndex {
    /// Nothing is found. It takes no memory.
    pub fn new(alloc: Global) -> CallIndex
        ensures { result.first ≡ 0 }
    {
        CallIndex {
            first: 0,
            dues: Vec::new(alloc),
            numbers: IndexMap::new(alloc),
            flows: IndexMap::new(alloc),
        }
    }

    /// A call comes to a place after those of all others. Whether there is memory for it or not, all others
    /// are found as before.
    pub fn add(&mut self, place: usize, call: &OpenCall) -> Result<(), NoMemory>
        requires { self.old.first ≤ place }
        ensures here { OnOk result (IsFound self.new.first self.new.dues.items self.new.numbers.entries self.new.flows.entries place call.now) }
        ensures others { (i : ℕ) (c : OpenCall) → i ≤ place → IsFound self.old.first self.old.dues.items self.old.numbers.entries self.old.flows.entries i c → IsFound self.new.first self.new.dues.items self.new.numbers.entries self.new.flows.entries i c }
        ensures first { self.new.first ≡ self.old.first }
    {
        hold_block(&mut self.dues, place / BLOCK)?;
        widen_number(&mut self.numbers, call.number.to_u64(), place)?;
        widen_flow(&mut self.flows, &call.flow, place)?;
        touch(&mut self.dues, place, call);
        Ok(())
    }
}
