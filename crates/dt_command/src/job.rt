//! The jobs that the program can do with an input, and the word that names each job.
ghost use Rattle.std.specs.Prelude.{◌≡◌};
ghost use Rattle.dt_command.specs.Commands as commands;

/// What is done with an input.
#[derive(Clone, Copy)]
pub enum Job {
    /// It is a schedule, whose log is written.
    Replay,
    /// It is a script, whose node runs over the wire.
    Node,
    /// The same, and what is written is the run's trace.
    Trace,
    /// It is a script and a trace, whose run is run again.
    Retrace,
    /// It is a setup and calls, and what is reported of them is written.
    Calls,
    /// It is a log, which is checked.
    Audit,
}

impl Job {
    /// The job that a word names.
    pub fn named(word: &str) -> Option<Self>
        ensures { result ≡ commands.job_of word.now }
    {
        match word {
            "replay" => Some(Job::Replay),
            "node" => Some(Job::Node),
            "trace" => Some(Job::Trace),
            "retrace" => Some(Job::Retrace),
            "calls" => Some(Job::Calls),
            "audit" => Some(Job::Audit),
            _ => None,
        }
    }
}
