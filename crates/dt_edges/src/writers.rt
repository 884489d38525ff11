//! A sink over any writer, such as standard output, which counts the writes that fail.
ghost use Rattle.std.specs.Prelude.{◌≡◌, ◌<◌, ◌≤◌, [], length, IfOk};
ghost use Rattle.std.specs.Io.KnownBytes.{WriteAppends};
ghost use Rattle.dt_edges.specs.Counts.{CountsOne};

use crate::failures::Failed;
use crate::sinks::Sink;
use std::io::Write;

/// A sink over a writer, as standard output or standard error. It tells what it holds where the writer
/// tells its contents, as a vector does.
#[derive(Drop)]
pub struct WriterSink<W> {
    writer: W,
    faults: u64,
}

impl<W: Write> WriterSink<W> {
    /// A sink that writes to the writer, and has no fault yet.
    pub fn new(writer: W) -> Self
        ensures { ⟦<WriterSink<W> as Sink>⟧.sight result ≡ record { held = W.contents writer; reached = W.contents writer; faults = 0; identity = [] } }
    {
        WriterSink { writer, faults: 0 }
    }

    /// The writer, with all that was put.
    pub fn get_ref(&self) -> &W
        ensures { W.contents result.now ≡ (⟦<WriterSink<W> as Sink>⟧.sight self.now).held }
    {
        &self.writer
    }
}

impl<W: Write> Sink for WriterSink<W> {
    ghost use Rattle.std.specs.Prelude.{[]};
    ghost use Rattle.std.proofs.Math.Nat.{min-le_right};
    ghost use Rattle.dt_edges.specs.Counts.{as_count, last_count};

    ghost sight = { λ s. record { held = W.contents s.writer; reached = W.contents s.writer; faults = as_count s.faults; identity = [] } };

    ghost bounded = { λ s. min-le_right s.faults last_count };

    /// Writes once. A write that fails or takes nothing counts as one fault; one that was interrupted
    /// by a signal has failed, too.
    #[tactic(auto, using(crate::proofs::Writes::took_none))]
    fn put(&mut self, piece: &[u8]) -> Result<usize, Failed>
        requires { 0 < length piece.now }
        ensures some { IfOk result (λ n. 0 < n) }
        ensures within { IfOk result (λ n. n ≤ length piece.now) }
        ensures writes { WriteAppends (W.contents self.old.writer) (W.contents self.new.writer) result piece.now }
        ensures counted { CountsOne result self.old.faults self.new.faults }
    {
        match self.writer.write(piece) {
            Ok(n) if n > 0 => Ok(n),
            _ => {
                self.faults = self.faults.saturating_add(1);
                Err(Failed)
            }
        }
    }
}
