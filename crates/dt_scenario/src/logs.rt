//! Who receives lines and logs them, and what a step says of its line.
ghost use Rattle.std.specs.Prelude.{◌≡◌};
ghost use Rattle.dt_scenario.specs.Parts.{stepped};

use dt_edges::Sink;
use dt_fold::Stop;
use dt_log::write_line;
use dt_notes::Lines;
use dt_reports::{Fault, LogLine, StepFault};

/// Logs the lines of an event on a sink. After a put that failed it logs nothing more.
#[derive(Drop)]
pub struct Log<'a, K> {
    pub out: &'a mut K,
    pub failed: bool,
}

impl<'a, K: Sink> Lines for Log<'a, K> {
    ghost use Rattle.dt_log.specs.Logs.{entry_text};
    ghost use Rattle.dt_scenario.specs.Writing.{Writes};

    ghost tells = { λ s entry t. Writes K.sight (entry_text entry) s t };

    fn line(&mut self, line: &LogLine<'_>) {
        if !self.failed {
            self.failed = write_line(line, self.out).is_err();
        }
    }
}

/// What a step says of its line. Where a put failed that is what is answered, also where memory ran
/// out after it.
pub fn stepped(answer: Result<(), StepFault>, failed: bool) -> Result<Option<Fault>, Stop>
    ensures { result ≡ stepped answer failed }
{
    if failed {
        return Err(Stop::WriteFault);
    }
    match answer {
        Ok(()) => Ok(None),
        Err(StepFault::NoMemory) => Err(Stop::NoMemory),
        Err(fault) => Ok(Some(Fault::Step(fault))),
    }
}
