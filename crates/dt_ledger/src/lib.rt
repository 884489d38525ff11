//! The ledger of all flows: what each took, what was given to its receiver, and how much of that was
//! read.
#![tactic(auto)]

mod additions;
mod fate_counts;
mod flow_rows;
mod given_octets;
mod gives;
mod ledgers;
mod optional_moments;
mod progress;
mod read_counts;
mod taken_row;
mod taken_rows;

pub use dt_flow_model::{Fate, Given, ReadCount, Taken};
pub use dt_reports::Totals;
pub use flow_rows::FlowRows;
pub use given_octets::GivenOctets;
pub use ledgers::Ledger;
pub use optional_moments::Instant;
