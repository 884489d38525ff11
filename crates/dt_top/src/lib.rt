//! The top call of the program: it finds the command that the words name, reads its input, serves it,
//! and answers with a status.
#![tactic(auto)]

ghost use Rattle.std.specs.Prelude.{◌≡◌, false};
ghost use Rattle.dt_top.specs.Answering.{Answers};
ghost use Rattle.dt_command.specs.Commands.{command_of, reads_source, uses_wire};
ghost use Rattle.dt_top.specs.Endings.{status_of, text_of};
ghost use Rattle.dt_top.specs.Runs.{run_by, seen_by};
ghost use Rattle.dt_top.specs.Serving.{Says};

mod ending;
mod input;
pub mod laws;
mod serving;
mod streams;

use crate::ending::Ending;
use crate::serving::serve_words;
use crate::streams::Streams;
use dt_edges::{Clock, Sink, Source, Wire, put_all};
pub use dt_make::make;
use std::alloc::Global;

/// The exit status of an ending, whose text is printed.
fn status_told<E: Sink>(ending: Ending, err: &mut E) -> u8
    ensures status { result ≡ status_of ending }
    ensures says { Says (text_of ending) (E.sight err.old) (E.sight err.new) }
{
    let _ = put_all(ending.text(), err);
    ending.status()
}

/// The program: serves the command that the words name, and answers the exit status. `words` leaves
/// out the program's name. The first `--` among them, if there is one, is left out too. Then they are
/// one of these, and the status's text is put on `err`; a failing put there changes no status.
///
/// - `replay`: reads a schedule from the source to its end and writes its log on `out`.
/// - `node`: reads a script from the source to its end, opens the wire, and runs the node of the script
///   over it by the clock, up to the script's stop. It writes the node's log on `out`.
/// - `trace`: runs a node as `node` does, and writes a trace in place of the log: what the run took in.
/// - `retrace`: reads a script, a line `trace` and the trace of a run from the source to its end, runs
///   that again, and writes the log.
/// - `make` and a decimal number from 1 to 50,000 without a leading zero: writes the generator's
///   schedule of so many rounds on `out`, and leaves the source as it was.
/// - `calls`: reads a setup and calls from the source to its end, and writes what is reported of the calls on
///   `out`. A call is answered with its payload in reversed order.
/// - `audit`: reads a log of `replay` from the source to its end, checks it, and writes the verdict.
///
/// All but `node` and `trace` leave wire and clock as they were. The cost of `replay` is the input, the log,
/// and what the schedule asks of its world; that of `node`, `trace` and `retrace` is the turns; that of
/// `make` is what it writes; that of `calls` is the input and the text, what is asked of the world, and at
/// each event the calls that wait; that of `audit` is the log.
///
/// - 0: all was served, and `out` has the whole log, trace, schedule, text of calls or verdict; a log that is
///   audited has no flaw.
/// - 2: the words are none of these. Nothing was read and nothing was written.
/// - 3: the input has more than 16,777,216 octets, and nothing was written; or a line of it is refused,
///   and what was written ends with its fault; or a line of a log has a flaw, which is the verdict.
/// - 4: there was no memory. `out` has a first part of what it gets.
/// - 5: the wire didn't open, or a take failed, or that is what is met in a trace. `out` has the log or
///   the trace up to there.
/// - 6: 100,000 turns running had the same moment, and none of them met the stop. `out` has the log or
///   the trace up to there.
/// - 7: the source failed, and nothing was written.
/// - 8: a put on `out` failed. It has a first part of what it gets.
pub fn run<S: Source, K: Sink, E: Sink, W: Wire, C: Clock>(
    alloc: Global,
    words: &[String],
    source: &mut S,
    out: &mut K,
    err: &mut E,
    wire: &mut W,
    clock: &mut C,
) -> u8
    // All that is said of the words, of the status, and of what is seen of source, output, standard error,
    // wire and clock. Each sentence is a named field of `Answers` (specs/Answering.antt).
    ensures answers { let seen = seen_by S.sight K.sight E.sight W.sight C.sight in
        Answers (run_by (command_of words.now) result (seen source.old out.old err.old wire.old clock.old) (seen source.new out.new err.new wire.new clock.new)) }
    ensures same_source { reads_source (command_of words.now) ≡ false → source.new ≡ source.old }
    ensures same_wire { uses_wire (command_of words.now) ≡ false → wire.new ≡ wire.old }
    ensures same_clock { uses_wire (command_of words.now) ≡ false → clock.new ≡ clock.old }
{
    let streams = Streams {
        source,
        out,
        wire,
        clock,
    };
    let ending = serve_words(alloc, words, streams);
    status_told(ending, err)
}
