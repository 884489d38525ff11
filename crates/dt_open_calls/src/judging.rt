//! How calls end without an answer.
ghost use Rattle.std.specs.Prelude.{ℕ, ◌≡◌, ◌+◌, ◌*◌, ◌/◌, ◌%◌, ◌<◌, ◌≤◌, ◌++◌, ◌∷◌, [], IsTrue, Some, filter_map, length, map};
ghost use Rattle.std.specs.VecDeque.{deque_len, deque_capacity};
ghost use Rattle.dt_world_model.specs.Tables.{earliest};
ghost use Rattle.dt_service_model.specs.declared.calls.OpenCall.{OpenCall};
ghost use Rattle.dt_open_calls.specs.Slots.{AreDue, Each, IsNoLater, block_of, deadline_slot, due_at, judged_slot, unsure_slot};

use crate::call_index::{BLOCK, due_in};
use crate::ends::{cause_of, deadline_of, due_of, is_kept, judge_call};
use dt_service_model::{Happening, OpenCall};
use dt_units::earlier;
use std::collections::VecDeque;

/// The call in a place is judged: one that is unsure is reported, and one of which nothing is left goes. There
/// is room for the report.
fn judge_slot(now: u64, slot: &mut Option<OpenCall>, happenings: &mut VecDeque<Happening>)
    requires { deque_len happenings.old + length (filter_map (unsure_slot now) (slot.old ∷ [])) ≤ deque_capacity happenings.old }
    ensures slot { slot.new ≡ judged_slot now slot.old }
    ensures told { happenings.new.items ≡ happenings.old.items ++ filter_map (unsure_slot now) (slot.old ∷ []) }
    ensures count { deque_len happenings.new ≡ deque_len happenings.old + length (filter_map (unsure_slot now) (slot.old ∷ [])) }
    ensures room { deque_capacity happenings.old ≤ deque_capacity happenings.new }
{
    let Some(call) = slot else {
        return;
    };
    if let Some(cause) = cause_of(now, call) {
        let call = call.number;
        happenings.push_back_reserved(Happening::Unsure { call, cause });
    }
    judge_call(now, call);
    if !is_kept(call) {
        *slot = None;
    }
}

/// Whether a block begins here in which nothing is due at this moment.
fn is_calm(now: u64, dues: &[u64], place: usize) -> bool
    ensures { IsTrue result → (place % 64 ≡ 0) × (now < due_at dues.now (place / 64)) }
{
    place % BLOCK == 0 && now < due_in(dues, place / BLOCK)
}

/// Each call is judged, in the order of making. Blocks in which nothing is due are passed over. There is room
/// for what is reported.
pub fn judge_slots(
    now: u64,
    dues: &[u64],
    slots: &mut Vec<Option<OpenCall>>,
    happenings: &mut VecDeque<Happening>,
)
    requires due { AreDue dues.now slots.old.items }
    requires room { deque_len happenings.old + length (filter_map (unsure_slot now) slots.old.items) ≤ deque_capacity happenings.old }
    ensures slots { slots.new.items ≡ map (judged_slot now) slots.old.items }
    ensures told { happenings.new.items ≡ happenings.old.items ++ filter_map (unsure_slot now) slots.old.items }
{
    let mut place = 0;
    while place < slots.len() {
        if is_calm(now, dues, place) {
            place += BLOCK;
        } else {
            judge_slot(now, &mut slots[place], happenings);
            place += 1;
        }
    }
}

fn due_in_slot(slot: &Option<OpenCall>) -> u64
    ensures { (call : OpenCall) → slot.now ≡ Some call → IsNoLater result call }
{
    match slot {
        Some(call) => due_of(call),
        None => u64::MAX,
    }
}

/// A moment before which nothing is due in a block.
fn least_due(block: usize, slots: &[Option<OpenCall>]) -> u64
    requires { block * 64 ≤ length slots.now }
    ensures { Each (λ i call. block_of i ≡ block → IsNoLater result call) slots.now }
{
    let begin = block * BLOCK;
    let mut least = u64::MAX;
    for place in begin..slots.len().min(begin + BLOCK) {
        least = least.min(due_in_slot(&slots[place]));
    }
    least
}

/// A block whose moment is over gets its own anew.
fn renew_due(now: u64, block: usize, slots: &[Option<OpenCall>], dues: &mut Vec<u64>)
    requires due { AreDue dues.old.items slots.now }
    requires block { block * 64 ≤ length slots.now }
    ensures { AreDue dues.new.items slots.now }
{
    if block >= dues.len() || dues[block] > now {
        return;
    }
    dues[block] = least_due(block, slots);
}

/// Blocks whose moment is over get their own anew.
pub fn renew_dues(now: u64, slots: &[Option<OpenCall>], dues: &mut Vec<u64>)
    requires { AreDue dues.old.items slots.now }
    ensures { AreDue dues.new.items slots.now }
{
    for block in 0..slots.len() / BLOCK + 1 {
        renew_due(now, block, slots, dues);
    }
}

fn deadline_in(slot: &Option<OpenCall>) -> Option<u64>
    ensures { result ≡ deadline_slot slot.now }
{
    match slot {
        Some(call) => deadline_of(call),
        None => None,
    }
}

/// Whether a block begins here in which nothing is due before this moment.
fn is_late(least: Option<u64>, dues: &[u64], place: usize) -> bool
    ensures { IsTrue result → (m : ℕ) × (least ≡ Some m) × (place % 64 ≡ 0) × (m ≤ due_at dues.now (place / 64)) }
{
    match least {
        Some(least) => place % BLOCK == 0 && least <= due_in(dues, place / BLOCK),
        None => false,
    }
}

/// The least deadline of those that wait. Blocks in which none is less are passed over.
pub fn deadline(dues: &[u64], slots: &[Option<OpenCall>]) -> Option<u64>
    requires { AreDue dues.now slots.now }
    ensures { result ≡ earliest deadline_slot slots.now }
{
    let mut least = None;
    let mut place = 0;
    while place < slots.len() {
        if is_late(least, dues, place) {
            place += BLOCK;
        } else {
            least = earlier(least, deadline_in(&slots[place]));
            place += 1;
        }
    }
    least
}
