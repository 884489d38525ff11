//! An input of calls: its lines set up a world and make calls in it, and what is reported of these is written.
#![tactic(auto)]

mod call_logs;
mod calling;
mod inputs;
mod laws;
mod outcomes;
mod running;

pub use laws::calls_of_an_input_are_served_at_most_once;
pub use outcomes::CallsOutcome;
pub use running::calls;
