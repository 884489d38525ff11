//! The answers of a service to a call, a reply and a forgotten token, with the reason of each refusal.
use crate::names::CallNumber;

/// The answer to a call.
#[derive(Clone, Copy, Debug, PartialEq, Eq)]
pub enum Made {
    /// It is made, and has this number. It waits for its end.
    Call(CallNumber),
    /// Nothing of it was taken, and no number was used up.
    Declined(Declined),
    /// It can't be made. Nothing changed.
    Refused(Unfit),
    /// There was no memory: the node is closed.
    NoMemory,
}

/// Why the node doesn't take a call now.
#[derive(Clone, Copy, Debug, PartialEq, Eq)]
pub enum Declined {
    /// The node is silent after a restart, until this moment. What else was due is done.
    Quiet { until: u64 },
    /// The request doesn't fit: so many octets are free for it, its number of eight octets among them. What else
    /// was due is done.
    Full { free: u32 },
    /// Each number of this life was used: a life is to be raised. Nothing changed.
    Numbers,
    /// As many calls as may wait, or have ends that weren't taken. Nothing changed.
    Many,
}

/// Why a call or a reply can't be.
#[derive(Clone, Copy, Debug, PartialEq, Eq)]
pub enum Unfit {
    /// The node is closed.
    Closed,
    /// The flow doesn't go from this node to another.
    BadFlow,
    /// The flow doesn't go from a caller.
    NotACaller,
    /// Its message is longer than any that is sent.
    TooLong,
    /// Patience isn't 1 ms or more.
    NoPatience,
    /// With it 2^62 octets or more would have been handed in.
    TooMany,
}

/// The answer to a reply.
#[derive(Clone, Copy, Debug, PartialEq, Eq)]
pub enum Replied {
    /// The station has it. Its token is open no more.
    Done,
    /// The token isn't open: it had its reply, was forgotten, or is of a former life. Nothing changed.
    Gone,
    /// It doesn't fit: so many octets are free for it, its number of eight octets among them. The token stays
    /// open, and what else was due is done.
    Full { free: u32 },
    /// It can't be sent. Nothing changed.
    Refused(Unfit),
    /// There was no memory: the node is closed.
    NoMemory,
}

/// The answer where a token is forgotten.
#[derive(Clone, Copy, Debug, PartialEq, Eq)]
pub enum Forgot {
    /// It is open no more.
    Done,
    /// It wasn't open. Nothing changed.
    Gone,
    /// There was no memory: the node is closed.
    NoMemory,
}
