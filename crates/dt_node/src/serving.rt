//! What is carried out of a script.
ghost use Rattle.std.specs.Prelude.{◌≡◌, ◌≤◌, [], IfOk, length};
ghost use Rattle.dt_text.specs.InputLines.{most_input};
ghost use Rattle.dt_node.specs.Answering.{Answers};
ghost use Rattle.dt_node.specs.Completing.{Completes};
ghost use Rattle.dt_script.specs.Codes.{IsGood, orders_seen};
ghost use Rattle.dt_turn.specs.Codes.{IsReady, node_seen};
ghost use Rattle.dt_node.specs.declared.output_forms.OutputForm.TheVariants.{Log, Trace};
ghost use Rattle.dt_turn.specs.Nodes.{first_node};
ghost use Rattle.dt_node.specs.Serving.{Serves, seen_by};

use crate::node_runs::NodeRun;
use crate::outcomes::NodeOutcome;
use crate::output_forms::OutputForm;
use crate::recorders::{Recorder, Writer};
use crate::running::run_turns;
use dt_edges::{Buffer, Clock, Sink, Wire};
use dt_fold::{Stop, fold_input};
use dt_items::NoMemory;
use dt_script::{Draft, Orders};
use dt_turn::Node;
use std::alloc::Global;

/// How a script is served: from where memory is taken, and what is written.
#[derive(Clone, Copy)]
struct ServingOptions {
    alloc: Global,
    form: OutputForm,
}

impl ServingOptions {
    /// What a run takes before its first turn: the node, and the buffer for the lines of a turn.
    fn prepare(self, orders: &Orders) -> Result<NodeRun, NoMemory>
        ensures first { IfOk result (λ run. node_seen orders.now run.node ≡ first_node (orders_seen orders.now)) }
        ensures ready { IfOk result (λ run. IsReady orders.now 0 run.node) }
        ensures empty { IfOk result (λ run. run.recorder.buffer ≡ []) }
        ensures new { IfOk result (λ run. run.recorder.writer ≡ record { form = self.form; gives = 0 }) }
    {
        let buffer = Buffer::new(self.alloc)?;
        let writer = Writer {
            form: self.form,
            gives: 0,
        };
        let node = Node::new(self.alloc, orders)?;
        let recorder = Recorder { writer, buffer };
        Ok(NodeRun { node, recorder })
    }

    /// Carries out the orders of a script.
    fn serve_orders<W: Wire, C: Clock, K: Sink>(
        self,
        orders: &Orders,
        wire: &mut W,
        clock: &mut C,
        out: &mut K,
    ) -> NodeOutcome
        requires { IsGood (orders_seen orders.now) }
        ensures { let seen = seen_by W.sight C.sight K.sight in
            Serves self.form (orders_seen orders.now) result (seen wire.old clock.old out.old) (seen wire.new clock.new out.new) }
    {
        match self.prepare(orders) {
            Ok(mut run) => run_turns(orders, &mut run, wire, clock, out),
            Err(_) => NodeOutcome::NoMemory,
        }
    }

    /// Reads the script, and carries out its orders.
    fn serve_script<W: Wire, C: Clock, K: Sink>(
        self,
        script: &[u8],
        wire: &mut W,
        clock: &mut C,
        out: &mut K,
    ) -> NodeOutcome
        requires { length script.now ≤ most_input }
        ensures { let seen = seen_by W.sight C.sight K.sight in
            Answers self.form script.now result (seen wire.old clock.old out.old) (seen wire.new clock.new out.new) }
    {
        let mut draft = Draft::new(self.alloc);
        match fold_input(&mut draft, script, out) {
            Ok(true) => match draft.into_orders() {
                Some(orders) => self.serve_orders(&orders, wire, clock, out),
                None => unreachable!(),
            },
            Ok(false) => NodeOutcome::Refused,
            Err(Stop::NoMemory) => NodeOutcome::NoMemory,
            Err(Stop::WriteFault) => NodeOutcome::WriteFault,
        }
    }
}

/// Runs the node of a script of at most 16,777,216 octets. It reads and checks the whole script, then
/// opens the wire, then takes turns; each turn's lines are put on `out` at its end. A turn
///
/// 1. takes a reading of the clock, whose moment is the greatest reading so far, at most 2^62, less the
///    first one, in ms;
/// 2. hands in the datagram that the last turn took, if any;
/// 3. does the commands that are due, in their order; a due stop ends the run;
/// 4. lets the station tick;
/// 5. takes from the wire, into 8,223 octets. The wait is 1 to 1,000 ms, and reaches at most to the
///    station's wake and to the next command.
///
/// - `Done`: a turn met the due stop. `out` has the whole log.
/// - `Refused`: a line of the script is refused. `out` has its fault, and neither wire nor clock was
///   called.
/// - `NoMemory`: there was none. `out` has a first part of the log, and no put failed.
/// - `WireFault`: the wire didn't open, or a take failed. `out` has the log up to there.
/// - `ClockStill`: 100,000 turns running had the same moment, and none of them met the stop. `out` has
///   the log up to there.
/// - `WriteFault`: a put on `out` failed. It has a first part of the log.
///
/// Where no open, take or put fails, and the clock reaches the stop before 100,000 turns running have
/// the same moment, an accepted script ends with `Done` or `NoMemory`.
///
/// A give that fails is a loss: an `unsent` line reports it, after the `put` line of the frame. The run
/// ends after at most 100,000 turns for each ms up to the stop, and one.
pub fn serve<W: Wire, C: Clock, K: Sink>(
    alloc: Global,
    script: &[u8],
    wire: &mut W,
    clock: &mut C,
    out: &mut K,
) -> NodeOutcome
    requires { length script.now ≤ most_input }
    ensures answers { let seen = seen_by W.sight C.sight K.sight in
        Answers Log script.now result (seen wire.old clock.old out.old) (seen wire.new clock.new out.new) }
    ensures completes { let seen = seen_by W.sight C.sight K.sight in
        Completes script.now result (seen wire.old clock.old out.old) (seen wire.new clock.new out.new) }
{
    let form = OutputForm::Log;
    ServingOptions { alloc, form }.serve_script(script, wire, clock, out)
}

/// Runs the node of a script as [`serve`] does, and writes a trace in place of the log: what the run
/// takes in, in the order in which it happens. `! 0` says that the wire didn't open. A turn begins with
/// `@` and the clock's reading, whose line is put on `out` at its end with the others of the turn; `!`
/// and a number is a give that failed, the first of which is 1; then what the take found is put at once,
/// as `<` and a link and its octets, or `<` and a dash, or `<` and an `x` where the take failed.
///
/// The answers are those of `serve`, and `out` has the trace where it has the log there. A refused
/// script gives its fault line. `WriteFault` may come where a put fails that tells of an open or of a
/// take that failed.
///
/// After `Done`, `WireFault` and `ClockStill` of a run of fewer than 2^64 gives the trace is read as
/// what the run took in.
pub fn serve_traced<W: Wire, C: Clock, K: Sink>(
    alloc: Global,
    script: &[u8],
    wire: &mut W,
    clock: &mut C,
    out: &mut K,
) -> NodeOutcome
    requires { length script.now ≤ most_input }
    ensures answers { let seen = seen_by W.sight C.sight K.sight in
        Answers Trace script.now result (seen wire.old clock.old out.old) (seen wire.new clock.new out.new) }
    ensures completes { let seen = seen_by W.sight C.sight K.sight in
        Completes script.now result (seen wire.old clock.old out.old) (seen wire.new clock.new out.new) }
{
    let form = OutputForm::Trace;
    ServingOptions { alloc, form }.serve_script(script, wire, clock, out)
}
