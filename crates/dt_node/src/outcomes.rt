//! The ways in which a run of a node ends: its stop, a refused script, or a fault of memory, wire, clock or sink.

/// How a run of a node ends.
#[derive(Clone, Copy, PartialEq, Eq)]
pub enum NodeOutcome {
    /// The stop was due, and the whole log is written.
    Done,
    /// A line of the script is refused. Its fault is written.
    Refused,
    /// There was no memory. A first part of the log is written.
    NoMemory,
    /// The wire didn't open, or a take failed. The log up to there is written.
    WireFault,
    /// 100,000 turns running had the same moment. The log up to there is written.
    ClockStill,
    /// A put failed. A first part of the log is written.
    WriteFault,
}
