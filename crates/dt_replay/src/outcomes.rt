//! The ways in which a replay of a schedule ends: done, a refused line, out of memory or a failed put.

/// How a replay ends.
#[derive(Clone, Copy)]
pub enum Outcome {
    /// The schedule is accepted, and its whole log is written.
    Done,
    /// A line is refused. The log up to it is written, and then its fault.
    Refused,
    /// There was no memory. A first part of the log is written.
    NoMemory,
    /// A put failed. A first part of the log is written.
    WriteFault,
}
