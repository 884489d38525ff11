//! The error of a failed call on a source, a sink or a wire.

/// A call on a source, a sink or a wire failed. It comes only where that object's count of faults
/// rose in the call.
#[derive(Clone, Copy, Debug, PartialEq, Eq)]
pub struct Failed;
