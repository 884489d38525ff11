//! What a call on octets answers.
ghost use Rattle.std.specs.Prelude.{◌≡◌};
ghost use Rattle.dt_orders_turns.specs.Answers.{fate_as, said_as};

use dt_orders_model::{Fate, Word};
use dt_orders_octets::word_code;

/// The call did what it was asked.
pub const OK: u8 = 0;
/// Octets spell nothing, or a counter has no room, and nothing changed.
pub const INVALID: u8 = 3;
/// There is nothing to do, and nothing changed.
pub const NONE: u8 = 5;

/// The order was executed exactly once.
pub const DONE: u8 = 65;
/// The order wasn't executed and never is.
pub const NEVER: u8 = 66;
/// The order was executed, and its result isn't there yet.
pub const AT_WORK: u8 = 67;
/// The handler failed: the order wasn't executed now.
pub const NOT_NOW: u8 = 68;
/// The server forgot what it would need to know.
pub const OLD: u8 = 69;
/// The order's number was used.
pub const STALE: u8 = 70;
/// The client knows of a commit that the store hasn't: the store was set back.
pub const FORKED: u8 = 71;
/// The client must know of the present opening first.
pub const HELLO: u8 = 72;
/// A question is answered.
pub const TOLD: u8 = 73;

/// The server runs the handler.
pub const EXECUTE: u8 = 80;
/// The server answers a question.
pub const READ: u8 = 81;

/// The order was executed once or not at all, and no call of it is executed any more.
pub const UNKNOWN: u8 = 82;
/// The answer is used, and the order is called again.
pub const WAITS: u8 = 83;
/// The answer is of another call, and is dropped.
pub const STRANGE: u8 = 84;
/// The answer says nothing, and the order is called again.
pub const UNSURE: u8 = 85;
/// The server's store was set back.
pub const ALARM: u8 = 86;

/// What is answered with a word.
pub fn said_as(word: Word) -> u8
    ensures { result ≡ said_as word }
{
    64 + word_code(word)
}

/// What is answered with a fate.
pub fn fate_as(fate: Fate) -> u8
    ensures { result ≡ fate_as fate }
{
    match fate {
        Fate::Done => DONE,
        Fate::Never => NEVER,
        Fate::Unknown => UNKNOWN,
    }
}
