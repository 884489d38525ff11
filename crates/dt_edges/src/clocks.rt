//! The trait `Clock`, with one call that never fails and returns the clock's reading in milliseconds.
ghost use Rattle.dt_edges.specs.Clocks.{ClockSight, ReadsOne};

/// A clock of the machine. It never fails.
pub trait Clock {
    /// What contracts see: the readings so far, where they are told, and the plan of those that come,
    /// one or more, where it is told. No call changes the plan.
    ghost sight: { Self → ClockSight };

    /// The clock's reading, in milliseconds. A clock that tells a plan gives the planned reading, and
    /// tells its readings while they are fewer than 2^64 - 1.
    fn now(&mut self) -> u64
        ensures { ReadsOne result (sight self.old) (sight self.new) };
}
