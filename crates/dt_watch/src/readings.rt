//! Readings of clocks, in microseconds.
ghost use Rattle.std.specs.Prelude.{◌≡◌, ◌<◌, ◌^◌, ◌↔◌, IfSome, IsSome};

/// The readings are below this number of microseconds: 8.9 years, six octets of a datagram.
const READINGS: u64 = 1 << 48;

/// A reading of a clock that counts microseconds: below 2^48.
#[derive(Clone, Copy)]
pub struct Reading {
    pub micros: u64,
    ghost bounded: { micros < 2 ^ 48 },
}

impl Reading {
    /// A reading of so many microseconds. `None` where they are 2^48 or more.
    pub fn new(micros: u64) -> Option<Reading>
        ensures some { IsSome result ↔ (micros < 2 ^ 48) }
        ensures value { IfSome result (λ r. r.micros ≡ micros) }
    {
        if micros < READINGS {
            Some(Reading { micros })
        } else {
            None
        }
    }
}

/// A bound of one clock at a reading of another: when the other one read `at`, this clock had passed
/// `reading`, or had not passed it. Which of the two is said where the bound is used.
#[derive(Clone, Copy)]
pub struct Bound {
    pub reading: Reading,
    pub at: Reading,
}
