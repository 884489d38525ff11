//! The script of a node: its lines, what they have led to so far, and the orders that they make.
#![tactic(auto)]

mod drafts;
mod orders;

pub use drafts::{Draft, has_link};
pub use orders::{NodeSetup, Orders, TimedCommand};
