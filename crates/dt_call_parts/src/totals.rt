//! Counts of calls: how many there are, how many were served, and how many are in each state.
ghost use Rattle.std.specs.Prelude.{◌≡◌, nat_lt, count_by};
ghost use Rattle.dt_calls_model.specs.CallRuns.{is_answered, is_declined, is_unsure, totals_in};
ghost use Rattle.dt_calls_model.specs.CallStep.{is_waiting};
ghost use Rattle.dt_call_parts.specs.Totals.{totals_seen};

use dt_calls_model::{Call, CallState};

/// How many calls there are, how many of them were served, and how many stand in each state.
#[derive(Clone, Copy)]
pub struct CallTotals {
    pub calls: u64,
    pub served: u64,
    pub answered: u64,
    pub unsure: u64,
    pub declined: u64,
    pub waiting: u64,
}

/// Whether a call waits that stands so: it has no end yet.
pub fn is_waiting(state: CallState) -> bool
    ensures { result ≡ is_waiting state }
{
    match state {
        CallState::Waiting => true,
        CallState::Answered | CallState::Unsure | CallState::Declined => false,
    }
}

fn is_answered(state: CallState) -> bool
    ensures { result ≡ is_answered state }
{
    match state {
        CallState::Answered => true,
        CallState::Waiting | CallState::Unsure | CallState::Declined => false,
    }
}

fn is_unsure(state: CallState) -> bool
    ensures { result ≡ is_unsure state }
{
    match state {
        CallState::Unsure => true,
        CallState::Waiting | CallState::Answered | CallState::Declined => false,
    }
}

fn is_declined(state: CallState) -> bool
    ensures { result ≡ is_declined state }
{
    match state {
        CallState::Declined => true,
        CallState::Waiting | CallState::Answered | CallState::Unsure => false,
    }
}

fn served_in(calls: &[Call]) -> usize
    ensures { result ≡ count_by (λ call. nat_lt 0 call.served) calls.now }
{
    calls.iter().filter(|call| call.served > 0).count()
}

fn waiting_in(calls: &[Call]) -> usize
    ensures { result ≡ count_by (λ call. is_waiting call.state) calls.now }
{
    calls.iter().filter(|call| is_waiting(call.state)).count()
}

fn answered_in(calls: &[Call]) -> usize
    ensures { result ≡ count_by (λ call. is_answered call.state) calls.now }
{
    calls.iter().filter(|call| is_answered(call.state)).count()
}

fn unsure_in(calls: &[Call]) -> usize
    ensures { result ≡ count_by (λ call. is_unsure call.state) calls.now }
{
    calls.iter().filter(|call| is_unsure(call.state)).count()
}

fn declined_in(calls: &[Call]) -> usize
    ensures { result ≡ count_by (λ call. is_declined call.state) calls.now }
{
    calls.iter().filter(|call| is_declined(call.state)).count()
}

/// The totals of these calls. The cost is their count.
pub fn totals_of(calls: &[Call]) -> CallTotals
    ensures { totals_seen result ≡ totals_in calls.now }
{
    CallTotals {
        calls: calls.len() as u64,
        served: served_in(calls) as u64,
        answered: answered_in(calls) as u64,
        unsure: unsure_in(calls) as u64,
        declined: declined_in(calls) as u64,
        waiting: waiting_in(calls) as u64,
    }
}
