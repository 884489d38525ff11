//! The parameters that suit a network: what its links, its clocks and a usual round trip ask for.
#![tactic(auto)]

mod computing;
mod networks;

pub use computing::{NetworkParams, parameters_of};
pub use networks::Network;
