//! Traces: what a run of a node took in from its clock and its wire, as lines that are written while
//! it runs, and read to run it again.
#![tactic(auto)]

mod inputs;
pub mod laws;
mod taken_datagrams;
mod trace_faults;
mod trace_lines;
mod trace_refusals;
mod traces;

pub use inputs::{Input, put_input};
pub use trace_faults::TraceFault;
pub use trace_lines::MOST_TAKEN;
pub use traces::{Trace, read_trace};
