//! The reasons for which reading an input stops early: out of memory, or write failed.
ghost use Rattle.std.specs.Prelude.{◌≡◌};

use dt_edges::Failed;
use dt_items::NoMemory;

/// Why an input isn't read to its end.
#[derive(Clone, Copy, Debug)]
pub enum Stop {
    /// There was no memory.
    NoMemory,
    /// A put on the log failed.
    WriteFault,
}

impl From<NoMemory> for Stop {
    ghost use Rattle.dt_fold.specs.declared.stops.Stop.TheVariants as stops;

    ghost from_gives = { λ _ stop. stop ≡ stops.NoMemory };

    fn from(_: NoMemory) -> Self {
        Stop::NoMemory
    }
}

impl From<Failed> for Stop {
    ghost use Rattle.dt_fold.specs.declared.stops.Stop.TheVariants as stops;

    ghost from_gives = { λ _ stop. stop ≡ stops.WriteFault };

    fn from(_: Failed) -> Self {
        Stop::WriteFault
    }
}
