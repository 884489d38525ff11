//! Orders on octets: a program stores the octets that a call leaves and sends those that it asks to send. Each
//! call reads its octets, is the function of dt_registers or dt_order_lanes of that name, and writes what that
//! returned. Octets that spell nothing are refused, and nothing is changed then.
#![tactic(auto)]

mod answers;
mod giving;
mod hearing;
mod serving;
mod writing;

pub use answers::{
    ALARM, AT_WORK, DONE, EXECUTE, FORKED, HELLO, INVALID, NEVER, NONE, NOT_NOW, OK, OLD, READ,
    STALE, STRANGE, TOLD, UNKNOWN, UNSURE, WAITS,
};
pub use giving::{OrdersLane, ask, call, cancel, give, made, start, unsure};
pub use hearing::{adopt, hear, word_of_answer};
pub use serving::{OrdersLook, OrdersServer, Seen, judge, look_up};
pub use writing::{answer, executed, finish, forget, open};
