//! The ends of reading an input of calls: done, refused line, out of memory, or write failed.

/// How the reading of an input of calls ends.
#[derive(Clone, Copy)]
pub enum CallsOutcome {
    /// No line is refused, and all that is reported is written.
    Done,
    /// A line is refused. What is reported up to it is written, and then its fault.
    Refused,
    /// There was no memory. A first part of what is reported is written.
    NoMemory,
    /// A put failed. A first part of what is reported is written.
    WriteFault,
}
