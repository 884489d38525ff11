//! Inputs are read line by line: each line turns a state into the next one, and its text is
//! logged.
#![tactic(auto)]

mod behind_buffer;
mod folding;
mod line_turns;
mod stops;

pub use behind_buffer::{fold_behind_buffer, pass_rest};
pub use folding::fold_input;
pub use line_turns::LineTurns;
pub use stops::Stop;
