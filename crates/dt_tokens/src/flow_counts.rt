//! Counts of flows.
ghost use Rattle.std.specs.Prelude.{◌≡◌, ◌+◌, ◌-◌, ◌<◌, ◌^◌, OnErr, OnOk, if◌then◌else◌};
ghost use Rattle.dt_units.specs.declared.endpoints.Flow.{Flow};
ghost use Rattle.dt_world_model.specs.Tables.{same_flow};
ghost use Rattle.dt_tokens.specs.Counts.{count_of};

use dt_items::NoMemory;
use dt_units::Flow;
use indexmap::IndexMap;

/// The count of a flow, 0 where it has none.
pub fn count_of(flow: &Flow, counts: &IndexMap<Flow, usize>) -> usize
    ensures { result ≡ count_of counts.now.entries flow.now }
{
    counts.get(flow).copied().unwrap_or(0)
}

/// One more is counted of a flow. `NoMemory` leaves all counts as they were.
pub fn one_more(flow: Flow, counts: &mut IndexMap<Flow, usize>) -> Result<(), NoMemory>
    requires { count_of counts.old.entries flow < 2 ^ 63 }
    ensures more { OnOk result ((f : Flow) → count_of counts.new.entries f ≡ count_of counts.old.entries f + (if same_flow flow f then 1 else 0)) }
    ensures same { OnErr result ((f : Flow) → count_of counts.new.entries f ≡ count_of counts.old.entries f) }
{
    let count = count_of(&flow, counts);
    counts.insert(flow, count + 1)?;
    Ok(())
}

/// One less is counted of a flow.
pub fn one_less(flow: &Flow, counts: &mut IndexMap<Flow, usize>)
    requires { 0 < count_of counts.old.entries flow.now }
    ensures { (f : Flow) → count_of counts.new.entries f ≡ count_of counts.old.entries f - (if same_flow flow.now f then 1 else 0) }
{
    let count = count_of(flow, counts);
    if count == 1 {
        counts.swap_remove(flow);
    } else if let Some(counted) = counts.get_mut(flow) {
        *counted = count - 1;
    }
}
