//! A log is checked for the promises that a log can show: the places of what was accepted are in
//! order, runs are unbroken, what was skipped was reported, and what was acknowledged was accepted.
#![tactic(auto)]

mod auditing;
mod facts;
mod flaws;
mod flow_facts;
mod flow_notes;
mod gaps;
pub mod laws;
mod notebooks;
mod outcomes;
mod reading;
mod words;

pub use auditing::audit;
pub use dt_reports::LineFault;
pub use facts::Fact;
pub use outcomes::AuditOutcome;
pub use reading::read_log;
