//! A table of deadlines: a moment, or none, under each key, and the least moment at hand.
#![tactic(auto)]

mod deadline;
mod deadline_nodes;
mod deadlines;
mod lazy_tournament;
mod tournament;

pub use deadlines::Deadlines;
