//! How a call ends, and when.
ghost use Rattle.std.specs.Prelude.{◌≡◌};
ghost use Rattle.dt_service_model.specs.Ends.{cause_of, is_kept, judged_call};
ghost use Rattle.dt_service_model.specs.Turns.{deadline_of};
ghost use Rattle.dt_open_calls.specs.Slots.{IsNoLater};

use dt_service_model::{Cause, OpenCall};

/// Why a call is unsure at a moment, if it is.
pub fn cause_of(now: u64, call: &OpenCall) -> Option<Cause>
    ensures { result ≡ cause_of now call.now }
{
    if call.waits && call.has_given_up {
        Some(Cause::GivenUp)
    } else if call.waits && call.deadline <= now {
        Some(Cause::Patience)
    } else {
        None
    }
}

/// A call is judged.
pub fn judge_call(now: u64, call: &mut OpenCall)
    ensures { call.new ≡ judged_call now call.old }
{
    if cause_of(now, call).is_some() {
        call.waits = false;
    }
    call.has_given_up = false;
}

/// Whether anything is left of a call.
pub fn is_kept(call: &OpenCall) -> bool
    ensures { result ≡ is_kept call.now }
{
    call.waits || call.left > 0
}

/// The moment at which the patience of a call is over, if it waits.
pub fn deadline_of(call: &OpenCall) -> Option<u64>
    ensures { result ≡ deadline_of call.now }
{
    if call.waits {
        Some(call.deadline)
    } else {
        None
    }
}

/// The moment from which on a judgement may change a call: 0 where any does, and the last of all where none
/// does.
pub fn due_of(call: &OpenCall) -> u64
    ensures { IsNoLater result call.now }
{
    if call.has_given_up || !is_kept(call) {
        0
    } else if call.waits {
        call.deadline
    } else {
        u64::MAX
    }
}
