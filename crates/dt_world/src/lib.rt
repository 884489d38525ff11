//! The world: its stations, and what an event at one of them makes of it.
#![tactic(auto)]

mod doing;
mod marks;
mod placed_events;
mod placed_stations;
mod readings;
mod refusals;
mod reporters;
mod starts;
mod steps;
mod world_parts;
mod worlds;

pub use dt_reports::StepFault;
pub use worlds::World;
