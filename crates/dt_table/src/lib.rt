//! A table of records of flows, each in a place of its own in the order of their making, and what is noted
//! there of each: from when on it may act.
#![tactic(auto)]

mod agenda;
mod places;
mod table;

pub use agenda::Agenda;
pub use places::Places;
pub use table::Table;
