//! `NoMemory`, the error of each call that found no memory, and its conversions from the allocator's errors.
use std::alloc::{AllocError, AllocFailed};

/// There was no memory. Any call that takes memory may answer it, and no clause says when.
#[derive(Clone, Copy, Debug, PartialEq, Eq)]
pub struct NoMemory;

impl From<AllocError> for NoMemory {
    fn from(_: AllocError) -> Self {
        NoMemory
    }
}

impl<T: Drop> From<AllocFailed<T>> for NoMemory {
    fn from(_: AllocFailed<T>) -> Self {
        NoMemory
    }
}
