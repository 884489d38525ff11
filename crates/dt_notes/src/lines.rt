//! Who receives the lines of a world's log.
ghost use Rattle.dt_reports.specs.Entries.{Entry, entry_of};

use dt_reports::LogLine;

/// Receives the lines of the log, in order.
pub trait Lines {
    ghost tells: { Self → Entry → Self → Type 0 };

    /// The next line.
    fn line(&mut self, line: &LogLine<'_>)
        ensures { tells self.old (entry_of line.now) self.new };
}
