//! The names of the requests that are open, and flows, each in the order in which they came: what is found
//! among them, comes and goes costs no more as their number grows.
#![tactic(auto)]

mod flow_counts;
mod flows;
mod tokens;

pub use flows::Flows;
pub use tokens::{Name, Tokens};
