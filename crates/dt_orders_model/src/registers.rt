//! What a server keeps of its clients' orders.

/// The numbers of a server's store, one for each store.
#[derive(Clone, Copy)]
pub struct Meta {
    /// How many commits changed anything of this layer. It is no time.
    pub clock: u64,
    /// The greatest stamp of a row that was forgotten: 0 if none was.
    pub horizon: u64,
    /// The number of the last opening: 0 for the first one.
    pub opening: u32,
    /// The nonce of the last opening.
    pub nonce: u64,
}

/// What became of the order that a row names.
#[derive(Clone, Copy)]
pub enum RowState {
    /// It was executed, and its result isn't there yet.
    AtWork,
    /// It was cancelled. It never is executed.
    Cancelled,
    /// It was executed. Its result is kept beside the row.
    Done,
}

/// The row of a lane: what became of its last order. It is written in the transaction of the order's effect.
#[derive(Clone, Copy)]
pub struct Row {
    /// The order's number.
    pub number: u64,
    /// The order's tag: the nonce of the opening of the client's store that gave the number out.
    pub tag: u64,
    pub state: RowState,
    /// The clock of the commit that wrote the row last.
    pub stamp: u64,
    /// The horizon when the lane got a row, having had none.
    pub born: u64,
}
