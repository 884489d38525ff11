//! What somebody heard of a server's store.

/// A commit of a server's store. Each answer of the server names the commit that it was read from.
#[derive(Clone, Copy, PartialEq, Eq)]
pub struct Known {
    /// The number of the opening that the commit was written in: 0 for the first opening of the store.
    pub opening: u32,
    /// The nonce of that opening.
    pub nonce: u64,
    /// The clock that the commit wrote.
    pub clock: u64,
}

/// An opening of a server's store. Each start of a process on the store is one, and so is a set back of the
/// store that the process noticed.
#[derive(Clone, Copy)]
pub struct Opening {
    /// 64 drawn bits. No other opening of any store has them.
    pub nonce: u64,
    /// The clock of the opening's own commit: 1 or more.
    pub first: u64,
}

/// What a store's list of openings says of a commit that somebody heard.
#[derive(Clone, Copy)]
pub struct Place {
    /// Whether the store has that opening, with that nonce.
    pub is_there: bool,
    /// The last clock of that opening in this store: the present clock if the opening is the last one.
    pub left: u64,
}
