//! A node over a wire and a clock: its turns, its log and its trace, and a traced run that is run again.
#![tactic(auto)]

mod cut_inputs;
mod laws;
mod node_logs;
mod node_runs;
mod outcomes;
mod output_forms;
mod recorders;
mod retracing;
mod running;
mod serving;
mod turns;
mod watch;
mod worked;

pub use laws::{
    frames_go_in_again_with_less_life, lines_stand_in_order, take_waits_to_what_is_due_first,
    traced_run_is_run_again,
};
pub use outcomes::NodeOutcome;
pub use retracing::retrace;
pub use serving::{serve, serve_traced};
pub use worked::{early_data_are_handed_in_again, exchange_is_logged};
