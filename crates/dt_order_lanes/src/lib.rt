//! The client's half of orders: what to note, what to call, and what an answer is. These are functions of
//! values: the program stores, sends and waits. They take no memory and no time.
#![tactic(auto)]

mod answers;
mod effects;
mod orders;

pub use answers::{hear, learn};
pub use effects::take;
pub use orders::{adopt, call, cancel, give, made, reopen, unsure};
