//! Orders in definitions: an order is executed once at most, over any wire and any crash. Here are the plain
//! types that the server's half, the client's half and the laws share. The definitions are in specs/.
#![tactic(auto)]

mod knowledge;
mod lanes;
mod registers;
mod requests;

pub use knowledge::{Known, Opening, Place};
pub use lanes::{
    Answer, Attempt, Called, Client, Effect, Fate, Hearing, Lane, Left, Order, Sending, Word,
};
pub use registers::{Meta, Row, RowState};
pub use requests::{Asked, Kind, Places, Verdict};
