//! The machine's clock.
ghost use Rattle.std.specs.Prelude.{None};

use crate::moments::Moments;
use crate::uptime::uptime;
use dt_edges::Clock;
use std::time;

/// How many nanoseconds a millisecond has.
const MILLISECOND: u64 = 1_000_000;

/// The machine's clock: its readings are the milliseconds since the first one, also those for which the
/// machine was suspended, where it counts them. It tells no readings.
#[derive(Drop)]
pub struct MachineClock<'a, R> {
    rt: &'a R,
    moments: &'a Moments,
    /// In nanoseconds since the machine was started.
    first: Option<u64>,
    /// In milliseconds.
    last: u64,
}

impl<'a, R: time::Clock> MachineClock<'a, R> {
    /// A clock that wasn't read, beside the wire that has the same moments.
    pub fn new(rt: &'a R, moments: &'a Moments) -> Self {
        MachineClock {
            rt,
            moments,
            first: None,
            last: 0,
        }
    }
}

impl<'a, R: time::Clock> Clock for MachineClock<'a, R> {
    ghost sight = { λ c. record { readings = None; plan = None } };

    /// The milliseconds since the first reading. The first reading after the wire handed a datagram over
    /// is that of the moment at which it did. Where the machine's clocks fail it is the last reading
    /// again, or 0 where there was none.
    fn now(&mut self) -> u64 {
        let now = match self.moments.take_found() {
            Some(found) => Some(found),
            None => uptime(self.rt),
        };
        if let Some(now) = now {
            self.moments.note_read(now);
            match self.first {
                Some(first) => self.last = now.saturating_sub(first) / MILLISECOND,
                None => self.first = Some(now),
            }
        }
        self.last
    }
}
