//! What a client keeps of its orders, and what it makes of an answer.
use crate::knowledge::Known;
use crate::requests::Kind;

/// An order that its client noted: it has no fate yet.
#[derive(Clone, Copy)]
pub struct Order {
    /// The program's name for it.
    pub uid: u64,
    pub number: u64,
    pub tag: u64,
    /// A commit that the client had heard of before the order was first called, or that answered that the
    /// order wasn't executed.
    pub since: Known,
}

/// What became of an order.
#[derive(Clone, Copy, PartialEq, Eq)]
pub enum Fate {
    /// It was executed exactly once. Its result is the answer's.
    Done,
    /// It wasn't executed and never is.
    Never,
    /// It was executed once, or not at all, and no call of it is executed any more.
    Unknown,
}

/// A lane of a client: one order at a time.
#[derive(Clone, Copy)]
pub struct Lane {
    /// The greatest number that was given out on the lane or that its server has told.
    pub last: u64,
    pub order: Option<Order>,
    /// Whether this life noted the order and made no call of it.
    pub is_fresh: bool,
    /// Whether the program cancels the order.
    pub is_cancelled: bool,
    /// Whether a call of the order waits for its answer.
    pub is_calling: bool,
    /// The number of the record that holds the order as it is. It is called only if that is stored.
    pub record_number: u64,
}

/// What a client knows of its server.
#[derive(Clone, Copy)]
pub struct Client {
    /// The nonce of the present opening of the client's store.
    pub nonce: u64,
    /// The newest commit that it heard of: `None` before its first answer.
    pub known: Option<Known>,
    /// The commit of the answer that said that the server's store was set back, until the program adopts it.
    pub stopped: Option<Known>,
    /// Whether an order that was called once is known not to have been executed if that call was refused: only
    /// over a transport that delivers each call once at most.
    pub is_once: bool,
}

/// Names a call: no other call of the client has this name.
#[derive(Clone, Copy, PartialEq, Eq)]
pub struct Attempt {
    /// The nonce of the opening that made it.
    pub nonce: u64,
    pub count: u32,
}

/// A call that was made and waits for its answer.
#[derive(Clone, Copy)]
pub struct Called {
    pub kind: Kind,
    pub number: u64,
    pub tag: u64,
    pub since: Known,
    pub attempt: Attempt,
    /// What the client knew of its server then.
    pub knows: Option<Known>,
    /// Whether it is the only call of its order.
    pub is_only: bool,
}

/// What an answer says.
#[derive(Clone, Copy, PartialEq, Eq)]
pub enum Word {
    Done,
    Never,
    AtWork,
    NotNow,
    Old,
    Stale,
    Forked,
    Hello,
    Told,
}

/// An answer, without its result.
#[derive(Clone, Copy)]
pub struct Answer {
    pub word: Word,
    /// Of `Stale`: the number of the lane's row.
    pub value: u64,
    /// The commit that it was read from.
    pub heard: Known,
    pub attempt: Attempt,
}

/// What an answer is to the client as a whole.
#[derive(Clone, Copy, PartialEq, Eq)]
pub enum Hearing {
    /// It is of another call. It is dropped.
    Strange,
    /// It says nothing: the order is called again.
    Unsure,
    /// The server's store was set back. No order is called until the program adopts what it is now.
    Alarm,
    /// It is used.
    Used,
}

/// How a transport took a call.
#[derive(Clone, Copy)]
pub enum Sending {
    /// The call was sent, or it may have been: there was no memory.
    Sent,
    /// The call certainly wasn't sent.
    Declined,
}

/// A lane as something left it, and the fate of its order, if it has one now. The program stores a fate, and
/// what it knows of its server with it, before it reports the fate.
#[derive(Clone, Copy)]
pub struct Left {
    pub lane: Lane,
    pub fate: Option<Fate>,
}

/// What an answer that is used does to the order.
#[derive(Clone, Copy)]
pub enum Effect {
    /// Nothing: it is called again.
    Waits,
    /// It wasn't executed as of the answer: it is called again from there.
    Renews,
    /// Its only call was refused: it gets the next number.
    Renumbers,
    /// It has its fate.
    Ends(Fate),
}
