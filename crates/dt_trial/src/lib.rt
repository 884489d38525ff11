//! One run of the program over the forms in memory, for tests: what is run, what fails on the way, and what
//! it left.
#![tactic(auto)]

mod run_results;
mod run_starts;
mod trials;
mod untried;

pub use run_results::RunResult;
pub use trials::{FREELY, Trial, ends, is_cut_short, tried, tried_over};
pub use untried::Untried;
