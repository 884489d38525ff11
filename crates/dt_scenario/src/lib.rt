//! An input that sets up a world, and then simulates something in it line by line: the lines of the
//! setup, `go`, and who logs what is reported after it.
#![tactic(auto)]

mod logs;
mod scenario_phases;
mod scenarios;
mod simulations;
mod world_events;

pub use logs::{Log, stepped};
pub use scenarios::Scenario;
pub use simulations::Simulation;
pub use world_events::world_event;
