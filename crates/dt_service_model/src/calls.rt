//! The record that a client keeps of a call, and the causes for which a call ends without an answer.
use crate::names::CallNumber;
use dt_units::Flow;

/// What a client keeps of a call that has no end yet, or has octets that have no fate yet.
#[derive(Clone, Copy)]
pub struct OpenCall {
    pub number: CallNumber,
    /// The flow of the request.
    pub flow: Flow,
    /// The moment in milliseconds at which patience is over.
    pub deadline: u64,
    /// How many octets of the request have no fate yet.
    pub left: u32,
    /// Whether it has no end yet.
    pub waits: bool,
    /// Whether an octet of the request was given up since the last turn.
    pub has_given_up: bool,
}

/// Why a call ended without an answer. It was served once or not at all, and may still be.
#[derive(Clone, Copy, Debug, PartialEq, Eq)]
pub enum Cause {
    /// An octet of its request was given up.
    GivenUp,
    /// The caller's patience is over.
    Patience,
    /// The endpoint was closed, or found no memory.
    Closed,
}
