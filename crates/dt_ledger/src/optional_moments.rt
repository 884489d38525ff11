//! A moment or none, in one number.
ghost use Rattle.std.specs.Prelude.{◌≡◌, ◌≤◌, None, Some, is_some};
ghost use Rattle.dt_flow_model.specs.Keeping.{most_moment};

use std::marker::Model;

/// What stands where there is no moment. Moments are at most 2^62.
const NO_MOMENT: u64 = u64::MAX;

/// A moment in milliseconds: 0 to 2^62.
#[derive(Clone, Copy)]
pub struct Instant {
    pub milliseconds: u64,
    ghost within: { milliseconds ≤ most_moment },
}

/// A moment in milliseconds, or none, in eight octets.
#[derive(Drop)]
pub struct OptionalMoment {
    milliseconds: u64,
}

impl Model for OptionalMoment {
    ghost use Rattle.std.specs.Prelude.{ℕ, Option};
    ghost use Rattle.dt_ledger.specs.Moments.{moment_in};

    ghost Value = { Option ℕ };

    ghost view = { λ m. moment_in m.milliseconds };
}

impl OptionalMoment {
    /// No moment.
    pub fn none() -> OptionalMoment
        ensures { result ≡ None }
    {
        OptionalMoment {
            milliseconds: NO_MOMENT,
        }
    }

    /// This moment.
    pub fn at(moment: Instant) -> OptionalMoment
        ensures { result ≡ Some moment.milliseconds }
    {
        OptionalMoment {
            milliseconds: moment.milliseconds,
        }
    }

    /// The moment, or none.
    pub fn get(&self) -> Option<u64>
        ensures { result ≡ self.now }
    {
        if self.milliseconds == NO_MOMENT {
            None
        } else {
            Some(self.milliseconds)
        }
    }
}
