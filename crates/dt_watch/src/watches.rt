//! What is known of a peer: its openings, and the clocks of two of them.
ghost use Rattle.std.specs.Prelude.{◌≡◌, ◌<◌, ◌^◌, ◌↔◌, IfSome, IsNone};
ghost use Rattle.dt_watch.specs.Watches.{pick};

use crate::ages::age;
use crate::arrivals::{Arrival, Judgement};
use crate::clock_bounds::ClockBounds;
use crate::clocks::Clocks;
use crate::interval::Passage;
use crate::openings::Openings;
use crate::readings::Reading;

/// What is known of a peer: which opening of it is the present one, and the clocks of two openings, of which
/// the caller knows which is which.
#[derive(Clone, Copy)]
pub struct Watch {
    pub bounds: ClockBounds,
    pub openings: Openings,
    pub first: Clocks,
    pub second: Clocks,
}

impl Watch {
    ghost use Rattle.dt_watch.specs.Ages.{age_of};
    ghost use Rattle.dt_watch.specs.Clockings.{Begins, Hears, sure_now};
    ghost use Rattle.dt_watch.specs.Lower.{lower_around};
    ghost use Rattle.dt_watch.specs.Openings.{judgement_of, openings_after};
    ghost use Rattle.dt_watch.specs.Watches.{Chosen, uncertain_of};

    /// Nothing is known of the peer.
    pub fn new(bounds: ClockBounds, openings: Openings, now: Reading) -> Watch
        ensures bounds { result.bounds ≡ bounds }
        ensures openings { result.openings ≡ openings }
        ensures first { Begins result.first bounds now }
        ensures second { Begins result.second bounds now }
    {
        let nothing = Clocks::new(bounds, now);
        Watch {
            bounds,
            openings,
            first: nothing,
            second: nothing,
        }
    }

    /// The first datagram of another opening comes: its clocks are the second ones, or the first.
    pub fn begin(&mut self, second: bool, came: Reading)
        ensures { Chosen second self.old self.new (λ c d. Begins d self.old.bounds came) }
    {
        let clocks = Clocks::new(self.bounds, came);
        if second {
            self.second = clocks;
        } else {
            self.first = clocks;
        }
    }

    /// A datagram came whose opening has these clocks.
    pub fn hear(&mut self, second: bool, passage: &Passage)
        ensures { Chosen second self.old self.new (λ c d. Hears c d passage.now) }
    {
        if second {
            self.second.hear(passage);
        } else {
            self.first.hear(passage);
        }
    }

    /// Whether nothing is believed any more of the opening that has these clocks.
    pub fn is_broken(&self, second: bool) -> bool
        ensures { result ≡ (pick second self.now).is_broken }
    {
        self.clocks(second).is_broken
    }

    /// Judges a datagram, as [`Openings::judge`] does.
    pub fn judge(&mut self, arrival: &Arrival) -> Judgement
        ensures judgement { result ≡ judgement_of self.old.openings arrival.now }
        ensures after { self.new ≡ record self.old { openings = openings_after self.old.openings arrival.now } }
    {
        self.openings.judge(arrival)
    }

    /// What the peer's clock had surely passed where this one read `made`: 0 where nothing is known.
    pub fn sure(&self, second: bool, made: Reading) -> u64
        ensures { result ≡ sure_now (pick second self.now) made.micros }
    {
        self.clocks(second).sure(made)
    }

    /// What this clock had surely passed where the peer's read `then`: 0 where nothing is known.
    pub fn around(&self, second: bool, then: Reading) -> u64
        ensures value { result ≡ lower_around (pick second self.now).interval.lower then.micros }
        ensures most { result < 2 ^ 49 }
    {
        self.clocks(second).interval.lower.around(then)
    }

    /// How old a datagram is at most, in microseconds, with what is counted for stops. `None` where `sure` is
    /// later than `came`: a clock is wrong.
    pub fn age(&self, second: bool, came: Reading, sure: Reading) -> Option<u64>
        ensures none { IsNone result ↔ (came.micros < sure.micros) }
        ensures value { IfSome result (λ age. age ≡ age_of came.micros sure.micros (uncertain_of (pick second self.now))) }
        ensures most { IfSome result (λ age. age < 2 ^ 52) }
    {
        age(came, sure, self.clocks(second).interval.uncertain())
    }

    fn clocks(&self, second: bool) -> &Clocks
        ensures { result.now ≡ pick second self.now }
    {
        if second { &self.second } else { &self.first }
    }
}
