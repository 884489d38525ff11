//! What is asked of all places.
ghost use Rattle.std.specs.Prelude.{ℕ, ◌≡◌, ◌≤◌, ◌<◌, ◌&&◌, ◌==◌, false, is_some, length, map, set, true, None};
ghost use Rattle.std.specs.List.{list_any};
ghost use Rattle.dt_table.specs.Places.{present, slot};
ghost use Rattle.dt_service_model.specs.declared.calls.OpenCall.{OpenCall};
ghost use Rattle.dt_open_calls.specs.Slots.{slot_is, waiting_slot};

use dt_service_model::OpenCall;

fn is_in_use(life: u32, slot: &Option<OpenCall>) -> bool
    ensures { result ≡ slot_is (λ (call : OpenCall). call.waits && (call.number.life == life)) slot.now }
{
    match slot {
        Some(call) => call.waits && call.number.life == life,
        None => false,
    }
}

/// Whether a call with this life waits.
pub fn waits_with(life: u32, slots: &[Option<OpenCall>]) -> bool
    ensures { result ≡ list_any (slot_is (λ (call : OpenCall). call.waits && (call.number.life == life))) slots.now }
{
    slots.iter().any(|slot| is_in_use(life, slot))
}

/// The first place from this one on that isn't empty, or one after all.
pub fn next_taken(from: usize, slots: &[Option<OpenCall>]) -> usize
    ensures from { from ≤ result }
    ensures within { from ≤ length slots.now → result ≤ length slots.now }
    ensures empty { (i : ℕ) → from ≤ i → i < result → is_some (slot slots.now i) ≡ false }
    ensures taken { result < length slots.now → is_some (slot slots.now result) ≡ true }
{
    for place in from..slots.len() {
        if slots[place].is_some() {
            return place;
        }
    }
    from.max(slots.len())
}

/// How many places aren't empty.
pub fn count_taken(slots: &[Option<OpenCall>]) -> usize {
    slots.iter().filter(|slot| slot.is_some()).count()
}

/// A place with a call that doesn't wait is emptied.
fn keep_if_waiting(slot: &mut Option<OpenCall>)
    ensures { slot.new ≡ waiting_slot slot.old }
{
    if let Some(call) = slot {
        if !call.waits {
            *slot = None;
        }
    }
}

/// The calls that wait are kept.
pub fn keep_waiting(slots: &mut Vec<Option<OpenCall>>)
    ensures { slots.new.items ≡ map waiting_slot slots.old.items }
{
    for place in 0..slots.len() {
        keep_if_waiting(&mut slots[place]);
    }
}

/// Takes the call out of a place, or answers none where it is empty or after all.
pub fn take_at(place: usize, slots: &mut Vec<Option<OpenCall>>) -> Option<OpenCall>
    ensures call { result ≡ slot slots.old.items place }
    ensures slots { slots.new.items ≡ set slots.old.items place None }
{
    if place < slots.len() {
        slots[place].take()
    } else {
        None
    }
}
