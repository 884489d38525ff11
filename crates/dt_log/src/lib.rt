//! What is written: numbers, flows, octets, and the lines of the log with their faults. Nothing here
//! takes memory.
#![tactic(auto)]

mod digits;
mod fault_lines;
mod flows;
pub mod laws;
mod line_forms;
mod log_lines;
mod numbers;
mod words;

pub use digits::put_hex;
pub use fault_lines::{line_fault_text, put_at_line};
pub use flows::put_flow;
pub use log_lines::write_line;
pub use numbers::put_number;
pub use words::{Word, put_row};
