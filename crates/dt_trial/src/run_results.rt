//! The result of a trial: the exit status, and the contents of standard output and standard error.
ghost use Rattle.std.specs.Prelude.{◌↔◌, IsTrue};
ghost use Rattle.dt_trial.specs.Trials.{HasEnd};

use dt_edges::MemSink;

/// What a run left: the status, and what the sinks hold.
#[derive(Drop)]
pub struct RunResult {
    pub status: u8,
    pub out: MemSink,
    pub err: MemSink,
}

impl RunResult {
    /// Whether it has this status, this output and this text on standard error.
    pub fn has(&self, status: u8, out: &[u8], said: &[u8]) -> bool
        ensures { IsTrue result ↔ HasEnd status out.now said.now self.now }
    {
        self.status == status && self.out.as_slice() == out && self.err.as_slice() == said
    }
}
