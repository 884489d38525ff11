//! The ends of an audit: passed, flaw found, out of memory, or write failed.

/// How an audit ends.
#[derive(Clone, Copy)]
pub enum AuditOutcome {
    /// No line has a flaw. `audit yes` is written.
    Yes,
    /// A line has a flaw. Its number and the flaw are written.
    No,
    /// There was no memory. Nothing is written.
    NoMemory,
    /// A put failed. A first part of the line is written.
    WriteFault,
}
