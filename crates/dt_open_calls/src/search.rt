//! How the call of a number is found.
ghost use Rattle.std.specs.Prelude.{ℕ, ◌≡◌, ◌≤◌, ◌<◌, ◌&&◌, length, IfSome, IfNone, IsTrue, IsFalse, true, false};
ghost use Rattle.dt_table.specs.Places.{slot};
ghost use Rattle.dt_service_model.specs.declared.calls.OpenCall.{OpenCall};
ghost use Rattle.dt_service_model.specs.Names.{same_number};
ghost use Rattle.dt_service_model.specs.Whole.{is_waiting_call};
ghost use Rattle.dt_open_calls.specs.Slots.{slot_is};

use crate::spans::Span;
use dt_service_model::{CallNumber, OpenCall};
use dt_units::Flow;

fn is_waiting_call(flow: &Flow, number: CallNumber, slot: &Option<OpenCall>) -> bool
    ensures { result ≡ slot_is (is_waiting_call flow.now number) slot.now }
{
    match slot {
        Some(call) => call.waits && call.number == number && call.flow == *flow,
        None => false,
    }
}

/// The first place of a span whose call has this number and waits on this flow.
pub fn find_waiting(
    flow: &Flow,
    number: CallNumber,
    span: Span,
    slots: &Vec<Option<OpenCall>>,
) -> Option<usize>
    ensures within { IfSome result (λ place. place < length slots.now.items) }
    ensures here { IfSome result (λ place. slot_is (is_waiting_call flow.now number) (slot slots.now.items place) ≡ true) }
    ensures before { IfSome result (λ place. (i : ℕ) → span.first ≤ i → i < place → slot_is (is_waiting_call flow.now number) (slot slots.now.items i) ≡ false) }
    ensures none { IfNone result ((i : ℕ) → span.first ≤ i → i ≤ span.last → slot_is (is_waiting_call flow.now number) (slot slots.now.items i) ≡ false) }
{
    let end = slots.len().min(span.last.saturating_add(1));
    for place in span.first..end {
        if is_waiting_call(flow, number, &slots[place]) {
            return Some(place);
        }
    }
    None
}

fn is_waiting_with(number: CallNumber, slot: &Option<OpenCall>) -> bool
    ensures { result ≡ slot_is (λ (call : OpenCall). call.waits && same_number call.number number) slot.now }
{
    match slot {
        Some(call) => call.waits && call.number == number,
        None => false,
    }
}

/// Whether a call in a span has this number and waits.
pub fn waits_in(number: CallNumber, span: Span, slots: &Vec<Option<OpenCall>>) -> bool
    ensures yes { IsTrue result → (i : ℕ) × (slot_is (λ (call : OpenCall). call.waits && same_number call.number number) (slot slots.now.items i) ≡ true) }
    ensures no { IsFalse result → (i : ℕ) → span.first ≤ i → i ≤ span.last → slot_is (λ (call : OpenCall). call.waits && same_number call.number number) (slot slots.now.items i) ≡ false }
{
    let end = slots.len().min(span.last.saturating_add(1));
    for place in span.first..end {
        if is_waiting_with(number, &slots[place]) {
            return true;
        }
    }
    false
}
