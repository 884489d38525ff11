//! Lines of schedules, of scripts and of inputs of calls, read: an input is cut into lines, and each
//! line says what its words say, or has the first fault. What is written, and what layers report, can be
//! named here, too.
#![tactic(auto)]

mod endpoints;
pub mod fields;
mod hexadecimal;
mod input_lines;
pub mod laws;
mod lines;
mod numerals;
mod reading;
pub mod splitting;
mod stages;
mod tasks;

pub use dt_log::{put_flow, put_hex, put_number, write_line};
pub use dt_reports::{Fault, LineFault, LogLine, Refusal, Report, SetupFault, StepFault};
pub use endpoints::read_flow;
pub use hexadecimal::{decode_hex, is_hex};
pub use input_lines::split_line;
pub use lines::{Form, Line, NodeLine, RunLine, ScriptLine, SetupLine, UserLine, WorldLine};
pub use numerals::read_number;
pub use reading::read_line;
pub use stages::{MISPLACED, Stage, follows};
pub use tasks::Task;
