//! The server's half of orders: what to do with a request, and which row to write. These are functions of
//! values: the program keeps the numbers, the openings and a row for each lane in its own database, and
//! calls these within its transaction. They take no memory and no time.
#![tactic(auto)]

mod judging;
mod openings;
mod rows;

pub use judging::{is_forked, judge, shared};
pub use openings::{Opened, open_store, place};
pub use rows::{Written, finish_row, forget_row, touch_row, write_row};
