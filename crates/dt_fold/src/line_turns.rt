//! The trait for inputs that are read line by line: the effect of each line and the text that it logs.
ghost use Rattle.dt_fold.specs.Folds.{Turns};
ghost use Rattle.dt_fold.specs.Logging.{Closes, TurnsTo};

use crate::stops::Stop;
use dt_edges::Sink;
use dt_reports::Fault;

/// What the lines of an input do, one after another. A contract sees a state of its own definitions,
/// and what each line turns it into.
pub trait LineTurns {
    ghost State: { Type 0 };

    ghost state: { Self → State };

    ghost turns: { Turns State };

    /// Does what the next line says, and logs its text; or says why it is refused, and changes
    /// and logs nothing then.
    fn turn<K: Sink>(&mut self, line: &[u8], out: &mut K) -> Result<Option<Fault>, Stop>
        ensures { TurnsTo K.sight (turns.turn (state self.old) line.now) result (state self.old) (state self.new) out.old out.new };

    /// Logs what stands after the last line, or says which fault it is that the input ends here.
    fn close<K: Sink>(&self, out: &mut K) -> Result<Option<Fault>, Stop>
        ensures { Closes K.sight (turns.close (state self.now)) result out.old out.new };
}
