//! The two forms of a run's output: a log of its reports, or a trace of its inputs.

/// What is written of a run.
#[derive(Clone, Copy)]
pub enum OutputForm {
    /// Its log: a line for each report.
    Log,
    /// A trace: a line for each input.
    Trace,
}
