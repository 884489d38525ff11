//! A clock in memory, whose readings are a list.
ghost use Rattle.std.specs.Prelude.{◌≡◌, ◌<◌, length, IfOk};
ghost use Rattle.dt_edges.specs.Clocks.{reading_at, clock_after};

use crate::clocks::Clock;
use dt_items::NoMemory;
use std::alloc::Global;
use std::marker::Model;

/// The reading of this number, counted from 0: the last one where there are fewer.
fn reading_of(readings: &[u64], number: u64) -> u64
    requires { 0 < length readings.now }
    ensures { result ≡ reading_at readings.now number }
{
    let place = number as usize;
    if place < readings.len() {
        readings[place]
    } else {
        readings[readings.len() - 1]
    }
}

/// A clock that gives the readings that it was made with, and then the last one again and again. It
/// tells its plan.
#[derive(Drop)]
pub struct MemClock {
    readings: Vec<u64>,
    taken: u64,
}

impl Model for MemClock {
    ghost use Rattle.std.specs.Prelude.{◌<◌, vec_len};
    ghost use Rattle.dt_edges.specs.Clocks.{ClockInMemory};

    ghost Value = { ClockInMemory };

    ghost view = { λ c. record { plan = c.readings.items; taken = c.taken } };

    ghost invariant = { λ c. 0 < vec_len c.readings };
}

impl MemClock {
    /// A clock with these readings in milliseconds, of which there is one at least.
    pub fn new(alloc: Global, readings: &[u64]) -> Result<Self, NoMemory>
        requires { 0 < length readings.now }
        ensures { IfOk result (λ clock. clock ≡ record { plan = readings.now; taken = 0 }) }
    {
        Ok(MemClock {
            readings: Vec::from_slice(alloc, readings)?,
            taken: 0,
        })
    }
}

impl Clock for MemClock {
    ghost use Rattle.dt_edges.specs.Clocks.{clock_in_memory};

    ghost sight = { clock_in_memory };

    /// Gives the next of the readings, and the last one where all were given.
    fn now(&mut self) -> u64
        ensures some { 0 < length self.old.plan }
        ensures planned { result ≡ reading_at self.old.plan self.old.taken }
        ensures after { self.new ≡ clock_after self.old }
    {
        let reading = reading_of(&self.readings, self.taken);
        self.taken = self.taken.saturating_add(1);
        reading
    }
}
