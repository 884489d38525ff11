//! What a client asks, and what the server makes of it.
use crate::knowledge::{Known, Place};

/// What a request wants.
#[derive(Clone, Copy)]
pub enum Kind {
    /// That the order is executed, or how it ended.
    Order,
    /// That the order never is executed, or how it ended.
    Cancel,
    /// An answer that changes nothing.
    Ask,
}

/// A request, without its body.
#[derive(Clone, Copy)]
pub struct Asked {
    pub kind: Kind,
    /// The order's number on its lane.
    pub number: u64,
    /// The order's tag.
    pub tag: u64,
    /// A commit that the client had heard of, up to which the order wasn't executed.
    pub since: Known,
    /// The newest commit that the client had heard of when it called: `None` before its first answer.
    pub knows: Option<Known>,
}

/// What the store's list of openings says of the two commits of a request.
#[derive(Clone, Copy)]
pub struct Places {
    pub since: Place,
    /// Of `knows`; any value if the request has none.
    pub knows: Place,
}

/// What a server does with a request. All but the first three change nothing.
#[derive(Clone, Copy, PartialEq, Eq)]
pub enum Verdict {
    /// It runs the handler and writes the row in the same transaction.
    Execute,
    /// It writes the row, as cancelled.
    Cancel,
    /// It writes the row's stamp anew, and answers `stale`.
    Touch,
    /// It answers the result beside the row.
    Done,
    /// It answers that the order was cancelled.
    Never,
    /// It answers that the order has no result yet.
    AtWork,
    /// It answers that the number was used: the answer has the row's number.
    Stale,
    /// It answers that it can't know, since it forgot what it would need.
    Old,
    /// It answers that the store was set back: the client knows of a commit that the store hasn't.
    Forked,
    /// It answers with its present opening alone: the client must know that first.
    Hello,
    /// It answers a question, without a transaction that writes.
    Read,
}
