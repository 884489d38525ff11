//! The reasons for which a trial isn't run: no clock reading, or out of memory.
use dt_items::NoMemory;

/// Why a trial isn't run. Then nothing was done.
#[derive(Clone, Copy, Debug, PartialEq, Eq)]
pub enum Untried {
    /// It has no reading of the clock.
    NoReading,
    /// There was no memory for what it begins with.
    NoMemory,
}

impl From<NoMemory> for Untried {
    ghost use Rattle.std.specs.Prelude.{◌≡◌};
    ghost use Rattle.dt_trial.specs.declared.untried.Untried.TheVariants as whys;

    ghost from_gives = { λ _ why. why ≡ whys.NoMemory };

    fn from(_: NoMemory) -> Self {
        Untried::NoMemory
    }
}
