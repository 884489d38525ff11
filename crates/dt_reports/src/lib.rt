//! What the layers report and refuse: the types of faults and of log lines, without any reading or
//! writing of their texts.
#![tactic(auto)]

mod faults;
mod flow_totals;
mod log_lines;
mod matters;
mod reports;
mod station_reports;

pub use faults::{Fault, LineFault, Refusal, SetupFault, StepFault};
pub use flow_totals::Totals;
pub use log_lines::LogLine;
pub use matters::Matter;
pub use reports::Report;
pub use station_reports::StationReport;
