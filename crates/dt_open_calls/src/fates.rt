//! How octets of calls have their fate.
ghost use Rattle.std.specs.Prelude.{ℕ, ◌≡◌, ◌≤◌, ◌&&◌, false, nat_lt, true};
ghost use Rattle.dt_world_model.specs.Tables.{same_flow};
ghost use Rattle.dt_table.specs.Places.{slot};
ghost use Rattle.dt_service_model.specs.declared.calls.OpenCall.{OpenCall};
ghost use Rattle.dt_service_model.specs.Hearing.{with_fate};
ghost use Rattle.dt_open_calls.specs.Slots.{AreDue, Each, IsNoLater, block_of, count_past, due_at, fated, fated_slot, has_octets_on, slot_is};

use crate::call_index::touch;
use crate::spans::Span;
use dt_service_model::OpenCall;
use dt_units::Flow;

/// So many octets of a flow were settled or given up.
#[derive(Clone, Copy)]
pub struct Fate {
    pub given_up: bool,
    pub flow: Flow,
    pub count: u32,
}

fn is_on(call: &OpenCall, flow: &Flow) -> bool
    ensures { result ≡ same_flow call.now.flow flow.now }
{
    call.flow == *flow
}

/// So many octets of a call have their fate, or as many as have none.
fn with_fate(given_up: bool, count: u32, call: &mut OpenCall)
    ensures { call.new ≡ with_fate given_up count call.old }
{
    call.has_given_up = call.has_given_up || (given_up && count > 0 && call.left > 0);
    call.left = call.left.saturating_sub(count);
}

/// Octets of the call in a place have their fate, where it is of this flow. Answers how many are left of them.
fn settle_slot(fate: &Fate, count: u32, slot: &mut Option<OpenCall>) -> u32
    ensures slot { slot.new ≡ fated_slot fate.now.given_up fate.now.flow count slot.old }
    ensures count { result ≡ count_past fate.now.flow count slot.old }
{
    let Some(call) = slot else {
        return count;
    };
    if !is_on(call, &fate.flow) {
        return count;
    }
    let left = call.left;
    with_fate(fate.given_up, count, call);
    count.saturating_sub(left)
}

/// What is due of what is in a place now is noted of its block.
pub fn touch_slot(dues: &mut Vec<u64>, place: usize, slot: &Option<OpenCall>)
    ensures earlier { (block : ℕ) → due_at dues.new.items block ≤ due_at dues.old.items block }
    ensures here { (call : OpenCall) → slot.now ≡ Some call → IsNoLater (due_at dues.new.items (block_of place)) call }
{
    if let Some(call) = slot {
        touch(dues, place, call);
    }
}

/// Octets of a flow have their fate, the leftmost first. Answers a place before which no call of the flow has
/// octets without one.
pub fn settle_fates(
    fate: &Fate,
    span: Span,
    slots: &mut Vec<Option<OpenCall>>,
    dues: &mut Vec<u64>,
) -> usize
    requires due { AreDue dues.old.items slots.old.items }
    requires span { Each (λ i call. has_octets_on fate.now.flow call ≡ true → (span.first ≤ i) × (i ≤ span.last)) slots.old.items }
    ensures slots { slots.new.items ≡ fated fate.now.given_up fate.now.flow fate.now.count slots.old.items }
    ensures due { AreDue dues.new.items slots.new.items }
    ensures reached { Each (λ i call. has_octets_on fate.now.flow call ≡ true → (result ≤ i) × (i ≤ span.last)) slots.new.items }
{
    let mut reached = span.first;
    let mut rest = fate.count;
    for place in span.first..slots.len().min(span.last.saturating_add(1)) {
        if rest == 0 {
            return reached;
        }
        rest = settle_slot(fate, rest, &mut slots[place]);
        touch_slot(dues, place, &slots[place]);
        reached = place;
    }
    reached
}

/// Whether a place has a call of this flow with octets that have no fate.
fn has_octets_on(flow: &Flow, slot: &Option<OpenCall>) -> bool
    ensures { result ≡ slot_is (has_octets_on flow.now) slot.now }
{
    match slot {
        Some(call) => is_on(call, flow) && call.left > 0,
        None => false,
    }
}

/// Whether this place is the last of a span, and has no octets of its flow.
pub fn is_done(flow: &Flow, place: usize, last: usize, slots: &Vec<Option<OpenCall>>) -> bool
    ensures { result ≡ true → (last ≤ place) × (slot_is (has_octets_on flow.now) (slot slots.now.items place) ≡ false) }
{
    place < slots.len() && last <= place && !has_octets_on(flow, &slots[place])
}
