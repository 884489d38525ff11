//! A schedule through the world: its lines set up a world, things happen in it, and its log is
//! written.
#![tactic(auto)]

mod laws;
mod outcomes;
mod replaying;
mod running;
mod schedules;

pub use laws::world_of_a_schedule_is_safe;
pub use outcomes::Outcome;
pub use replaying::replay;
