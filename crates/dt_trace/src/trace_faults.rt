//! The errors when a trace is read: the first refused line with its number and fault, or out of memory.
use dt_reports::LineFault;
use thiserror::Error;

/// Why a trace isn't read.
#[derive(Clone, Copy, Debug, PartialEq, Eq, Error)]
pub enum TraceFault {
    /// The line with this number, counted from 1, is refused. It is the first one that is.
    #[error("line {line}: {fault}")]
    Line { line: u64, fault: LineFault },
    /// There was no memory.
    #[error("out of memory")]
    NoMemory,
}
