//! From where to where the calls of one number, or of one flow, are.
ghost use Rattle.std.specs.Prelude.{ℕ, ◌≡◌, ◌≢◌, ◌≤◌, false, nat_eq, OnErr, OnOk, Some};
ghost use Rattle.std.specs.Map.{lookup};
ghost use Rattle.dt_units.specs.declared.endpoints.Flow.{Flow};
ghost use Rattle.dt_world_model.specs.Tables.{same_flow};
ghost use Rattle.dt_table.specs.Places.{equal_flows};
ghost use Rattle.dt_open_calls.specs.Slots.{IsInSpan};

use dt_items::NoMemory;
use dt_units::Flow;
use indexmap::IndexMap;

/// A first and a last place.
#[derive(Clone, Copy)]
pub struct Span {
    pub first: usize,
    pub last: usize,
}

/// A place is in a span, and so is what was.
fn widened(span: Option<Span>, place: usize) -> Span
    ensures here { IsInSpan (Some result) place }
    ensures others { (i : ℕ) → i ≤ place → IsInSpan span i → IsInSpan (Some result) i }
{
    match span {
        Some(span) => Span {
            first: span.first.min(place),
            last: place,
        },
        None => Span {
            first: place,
            last: place,
        },
    }
}

/// A place that comes after those of all calls is in the span of a number.
pub fn widen_number(
    numbers: &mut IndexMap<u64, Span>,
    number: u64,
    place: usize,
) -> Result<(), NoMemory>
    ensures here { OnOk result (IsInSpan (lookup (nat_eq number) numbers.new.entries) place) }
    ensures others { (n i : ℕ) → i ≤ place → IsInSpan (lookup (nat_eq n) numbers.old.entries) i → IsInSpan (lookup (nat_eq n) numbers.new.entries) i }
{
    let span = widened(numbers.get(&number).copied(), place);
    numbers.insert(number, span)?;
    Ok(())
}

/// A place that comes after those of all calls is in the span of a flow.
pub fn widen_flow(
    flows: &mut IndexMap<Flow, Span>,
    flow: &Flow,
    place: usize,
) -> Result<(), NoMemory>
    ensures here { OnOk result (IsInSpan (lookup (equal_flows flow.now) flows.new.entries) place) }
    ensures others { (f : Flow) (i : ℕ) → i ≤ place → IsInSpan (lookup (equal_flows f) flows.old.entries) i → IsInSpan (lookup (equal_flows f) flows.new.entries) i }
{
    let span = widened(flows.get(flow).copied(), place);
    flows.insert(*flow, span)?;
    Ok(())
}

/// The call in a place is sought by its number no more.
pub fn forget_number(numbers: &mut IndexMap<u64, Span>, number: u64, span: Span, place: usize)
    requires span { lookup (nat_eq number) numbers.old.entries ≡ Some span }
    requires place { (span.first ≤ place) × (place ≤ span.last) }
    ensures { (n i : ℕ) → (n ≡ number → i ≢ place) → IsInSpan (lookup (nat_eq n) numbers.old.entries) i → IsInSpan (lookup (nat_eq n) numbers.new.entries) i }
{
    if span.first == span.last {
        numbers.swap_remove(&number);
    }
}

/// The calls of a flow that have octets without a fate begin at this place, or there is none.
pub fn narrow_flow(flows: &mut IndexMap<Flow, Span>, flow: &Flow, first: usize, is_done: bool)
    ensures same { (f : Flow) → same_flow f flow.now ≡ false → lookup (equal_flows f) flows.new.entries ≡ lookup (equal_flows f) flows.old.entries }
    ensures here { (i : ℕ) → is_done ≡ false → first ≤ i → IsInSpan (lookup (equal_flows flow.now) flows.old.entries) i → IsInSpan (lookup (equal_flows flow.now) flows.new.entries) i }
{
    if is_done {
        flows.swap_remove(flow);
    } else if let Some(span) = flows.get_mut(flow) {
        span.first = first;
    }
}
