//! A reading that another clock has surely not passed.
ghost use Rattle.std.specs.Prelude.{◌≡◌, ◌+◌, ◌<◌, ◌≤◌, ◌^◌, None, IfSome};
ghost use Rattle.dt_watch.specs.Upper.{aged_up, is_lower, least_of, not_passed};

use crate::clock_bounds::ClockBounds;
use crate::readings::{Bound, Reading};

/// What a clock has surely not passed, by the bounds that were seen of it in this span and in the one
/// before. Each bound says: when the other clock read `at`, this one had not passed `reading`.
///
/// Of each span one bound is kept, the one that says most at every later reading.
#[derive(Clone, Copy)]
pub struct Upper {
    pub bounds: ClockBounds,
    pub present: Option<Bound>,
    pub former: Option<Bound>,
}

impl Upper {
    ghost use Rattle.dt_watch.specs.Upper.{kept_upper, upper_at};
    ghost use Rattle.dt_watch.specs.Lower.{turned};

    /// Nothing was seen.
    pub fn new(bounds: ClockBounds) -> Upper
        ensures bounds { result.bounds ≡ bounds }
        ensures present { result.present ≡ None }
        ensures former { result.former ≡ None }
    {
        Upper {
            bounds,
            present: None,
            former: None,
        }
    }

    /// A bound is seen. It is kept where it says more than the one that is kept.
    pub fn see(&mut self, bound: Bound)
        ensures { self.new ≡ record self.old { present = kept_upper self.old.bounds self.old.present bound } }
    {
        let better = match &self.present {
            Some(kept) => is_lower(&self.bounds, kept, &bound),
            None => true,
        };
        if better {
            self.present = Some(bound);
        }
    }

    /// A span ends. What was seen before it is forgotten, but for the last bound where none was seen in it.
    pub fn turn(&mut self)
        ensures { self.new ≡ record self.old { present = None; former = turned self.old.present self.old.former } }
    {
        if self.present.is_some() {
            self.former = self.present;
            self.present = None;
        }
    }

    /// What the clock has surely not passed where the other one reads `now`, in microseconds: below 2^50.
    /// `None` where nothing is known.
    pub fn at(&self, now: Reading) -> Option<u64>
        ensures value { result ≡ upper_at self.now now.micros }
        ensures most { IfSome result (λ most. most < 2 ^ 50) }
    {
        let present = not_passed_of(&self.bounds, &self.present, now);
        let former = not_passed_of(&self.bounds, &self.former, now);
        least_of(present, former)
    }
}

/// The lesser of two numbers, of which each may be none.
fn least_of(one: Option<u64>, other: Option<u64>) -> Option<u64>
    ensures { result ≡ least_of one other }
{
    match (one, other) {
        (Some(one), Some(other)) => Some(one.min(other)),
        (Some(one), None) => Some(one),
        (None, other) => other,
    }
}

/// What the bound's clock had not passed when the other one read `now`, beside the grain.
fn aged_up(bounds: &ClockBounds, bound: &Bound, now: Reading) -> u64
    requires { bound.now.at.micros ≤ now.micros }
    ensures value { result ≡ aged_up bounds.now bound.now now.micros }
    ensures most { result + 1000000 < 2 ^ 50 }
{
    let span = now.micros - bound.at.micros;
    bound.reading.micros + span + bounds.drift_over(span)
}

/// Whether a bound says more than the one that is kept, at each reading after both.
fn is_lower(bounds: &ClockBounds, kept: &Bound, bound: &Bound) -> bool
    ensures { result ≡ is_lower bounds.now kept.now bound.now }
{
    kept.at.micros <= bound.at.micros && bound.reading.micros < aged_up(bounds, kept, bound.at)
}

/// What a bound says, if there is one, at a reading of the other clock: nothing before its own.
fn not_passed_of(bounds: &ClockBounds, bound: &Option<Bound>, now: Reading) -> Option<u64>
    ensures value { result ≡ not_passed bounds.now bound.now now.micros }
    ensures most { IfSome result (λ most. most < 2 ^ 50) }
{
    match bound {
        Some(bound) if bound.at.micros <= now.micros => {
            Some(aged_up(bounds, bound, now) + u64::from(bounds.grain))
        }
        _ => None,
    }
}
