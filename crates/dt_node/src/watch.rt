//! The moment of a turn, and how many turns running had it.
ghost use Rattle.std.specs.Prelude.{◌≡◌, ◌≤◌, ◌<◌, ◌^◌, ◌-◌};
ghost use Rattle.dt_node.specs.Runs.{first_watch, next_watch, moment, most_equal};

/// The greatest reading that counts, 2^62 ms.
const LAST: u64 = 4_611_686_018_427_387_904;

/// How many turns running may have one moment.
pub const MOST_EQUAL: u32 = 100_000;

/// The readings so far, in short. A reading is in ms, and counts as at most 2^62.
#[derive(Clone, Copy)]
pub struct Watch {
    /// The first turn's reading.
    pub first: u64,
    /// The greatest reading.
    pub greatest: u64,
    /// How many turns running have had it, this one too.
    pub equal: u32,
}

impl Watch {
    /// The watch of the first turn.
    pub fn start(reading: u64) -> Watch
        ensures { result ≡ first_watch reading }
    {
        let reading = reading.min(LAST);
        Watch {
            first: reading,
            greatest: reading,
            equal: 1,
        }
    }

    /// The watch of the next turn.
    pub fn next(self, reading: u64) -> Watch
        requires { self.equal < most_equal }
        ensures { result ≡ next_watch reading self }
    {
        let reading = reading.min(LAST);
        if self.greatest < reading {
            Watch {
                first: self.first,
                greatest: reading,
                equal: 1,
            }
        } else {
            Watch {
                first: self.first,
                greatest: self.greatest,
                equal: self.equal + 1,
            }
        }
    }

    /// The moment of the turn: the greatest reading, less the first turn's, in ms.
    pub fn moment(self) -> u64
        requires { self.first ≤ self.greatest }
        ensures { result ≡ moment self }
    {
        self.greatest - self.first
    }
}
