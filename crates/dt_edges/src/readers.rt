//! A source that reads from any `std::io::Read` and counts the reads that fail.
ghost use Rattle.std.specs.Prelude.{◌≡◌, ◌<◌, ◌≤◌, length, IfOk};
ghost use Rattle.std.specs.Io.KnownBytes.{ReadConsumes};
ghost use Rattle.dt_edges.specs.Counts.{CountsOne};

use crate::failures::Failed;
use crate::sources::Source;
use std::io::Read;

/// A source over a reader, as standard input. It tells what is left where the reader tells what
/// remains, as a slice does.
#[derive(Drop)]
pub struct ReaderSource<R> {
    reader: R,
    faults: u64,
}

impl<R: Read> ReaderSource<R> {
    /// A source that reads from the reader, and has no fault yet.
    pub fn new(reader: R) -> Self
        ensures { ⟦<ReaderSource<R> as Source>⟧.sight result ≡ record { left = R.remaining reader; faults = 0 } }
    {
        ReaderSource { reader, faults: 0 }
    }
}

impl<R: Read> Source for ReaderSource<R> {
    ghost use Rattle.std.proofs.Math.Nat.{min-le_right};
    ghost use Rattle.dt_edges.specs.Counts.{as_count, last_count};

    ghost sight = { λ s. record { left = R.remaining s.reader; faults = as_count s.faults } };

    ghost bounded = { λ s. min-le_right s.faults last_count };

    /// Reads once. A read that fails counts as one fault; one that was interrupted by a signal has
    /// failed, too.
    fn take(&mut self, buf: &mut [u8]) -> Result<usize, Failed>
        requires { 0 < length buf.old }
        ensures within { IfOk result (λ n. n ≤ length buf.old) }
        ensures reads { ReadConsumes (R.remaining self.old.reader) (R.remaining self.new.reader) result buf.new }
        ensures counted { CountsOne result self.old.faults self.new.faults }
    {
        match self.reader.read(buf) {
            Ok(n) => Ok(n),
            Err(_) => {
                self.faults = self.faults.saturating_add(1);
                Err(Failed)
            }
        }
    }
}
