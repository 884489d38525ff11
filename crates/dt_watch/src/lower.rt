//! A reading that another clock has surely passed.
ghost use Rattle.std.specs.Prelude.{◌≡◌, ◌<◌, ◌≤◌, ◌^◌, None};

use crate::clock_bounds::ClockBounds;
use crate::readings::{Bound, Reading};

/// What a clock has surely passed, by the bounds that were seen of it in this span and in the one before.
/// Each bound says: when the other clock read `at`, this one had passed `reading`.
///
/// Of each span one bound is kept, the one that says most at every later reading.
#[derive(Clone, Copy)]
pub struct Lower {
    pub bounds: ClockBounds,
    pub present: Option<Bound>,
    pub former: Option<Bound>,
}

impl Lower {
    ghost use Rattle.dt_watch.specs.Lower.{kept_lower, lower_around, lower_at, passed, turned};

    /// Nothing was seen.
    pub fn new(bounds: ClockBounds) -> Lower
        ensures bounds { result.bounds ≡ bounds }
        ensures present { result.present ≡ None }
        ensures former { result.former ≡ None }
    {
        Lower {
            bounds,
            present: None,
            former: None,
        }
    }

    /// A bound is seen. It is kept where it says more than the one that is kept.
    pub fn see(&mut self, bound: Bound)
        ensures { self.new ≡ record self.old { present = kept_lower self.old.bounds self.old.present bound } }
    {
        let better = match &self.present {
            Some(kept) => is_higher(&self.bounds, kept, &bound),
            None => true,
        };
        if better {
            self.present = Some(bound);
        }
    }

    /// A span ends. What was seen before it is forgotten, but for the last bound where none was seen in it.
    pub fn turn(&mut self)
        ensures { self.new ≡ record self.old { present = None; former = turned self.old.present self.old.former } }
    {
        if self.present.is_some() {
            self.former = self.present;
            self.present = None;
        }
    }

    /// What the clock has surely passed where the other one reads `now`, in microseconds: below 2^49. It is
    /// 0 where nothing is known, which each clock has passed.
    pub fn at(&self, now: Reading) -> u64
        ensures value { result ≡ lower_at self.now now.micros }
        ensures most { result < 2 ^ 49 }
    {
        let present = passed_of(&self.bounds, &self.present, now);
        let former = passed_of(&self.bounds, &self.former, now);
        present.max(former)
    }

    /// What the clock had surely passed where the other one read `then`, before or after what was seen, in
    /// microseconds: below 2^49, and 0 where nothing is known.
    pub fn around(&self, then: Reading) -> u64
        ensures value { result ≡ lower_around self.now then.micros }
        ensures most { result < 2 ^ 49 }
    {
        let present = around_of(&self.bounds, &self.present, then);
        let former = around_of(&self.bounds, &self.former, then);
        present.max(former)
    }
}

ghost use Rattle.dt_watch.specs.Lower.{aged_down, around, around_by, before_by, is_higher, passed, passed_by};

/// What the bound's clock had passed when the other one read `now`, beside the grain.
fn aged_down(bounds: &ClockBounds, bound: &Bound, now: Reading) -> u64
    requires { bound.now.at.micros ≤ now.micros }
    ensures value { result ≡ aged_down bounds.now bound.now now.micros }
    ensures most { result < 2 ^ 49 }
{
    let span = now.micros - bound.at.micros;
    bound.reading.micros + (span - bounds.drift_over(span))
}

/// Whether a bound says more than the one that is kept, at each reading after both.
fn is_higher(bounds: &ClockBounds, kept: &Bound, bound: &Bound) -> bool
    ensures { result ≡ is_higher bounds.now kept.now bound.now }
{
    kept.at.micros <= bound.at.micros && aged_down(bounds, kept, bound.at) < bound.reading.micros
}

/// What a bound says at a reading of the other clock: nothing, 0, before its own.
fn passed_by(bounds: &ClockBounds, bound: &Bound, now: Reading) -> u64
    ensures value { result ≡ passed_by bounds.now bound.now now.micros }
    ensures most { result < 2 ^ 49 }
{
    if now.micros < bound.at.micros {
        return 0;
    }
    aged_down(bounds, bound, now).saturating_sub(u64::from(bounds.grain))
}

/// The same of a bound that there may not be.
fn passed_of(bounds: &ClockBounds, bound: &Option<Bound>, now: Reading) -> u64
    ensures value { result ≡ passed bounds.now bound.now now.micros }
    ensures most { result < 2 ^ 49 }
{
    match bound {
        Some(bound) => passed_by(bounds, bound, now),
        None => 0,
    }
}

/// What the bound's clock had passed when the other one read `then`, at its own reading or before.
fn before_by(bounds: &ClockBounds, bound: &Bound, then: Reading) -> u64
    requires { then.micros ≤ bound.now.at.micros }
    ensures value { result ≡ before_by bounds.now bound.now then.micros }
    ensures most { result < 2 ^ 49 }
{
    let span = bound.at.micros - then.micros;
    let drift = bounds.drift_over(span) + u64::from(bounds.grain);
    bound.reading.micros.saturating_sub(span + drift)
}

/// What a bound says of a reading of the other clock, before or after its own.
fn around_by(bounds: &ClockBounds, bound: &Bound, then: Reading) -> u64
    ensures value { result ≡ around_by bounds.now bound.now then.micros }
    ensures most { result < 2 ^ 49 }
{
    if then.micros < bound.at.micros {
        before_by(bounds, bound, then)
    } else {
        passed_by(bounds, bound, then)
    }
}

/// The same of a bound that there may not be.
fn around_of(bounds: &ClockBounds, bound: &Option<Bound>, then: Reading) -> u64
    ensures value { result ≡ around bounds.now bound.now then.micros }
    ensures most { result < 2 ^ 49 }
{
    match bound {
        Some(bound) => around_by(bounds, bound, then),
        None => 0,
    }
}
