//! A script is served over the wire and the clock of a trace.
ghost use Rattle.std.specs.Prelude.{◌≡◌, ◌≤◌, ◌<◌, ◌^◌, IfOk, OnErr, length};
ghost use Rattle.dt_text.specs.InputLines.{most_input};
ghost use Rattle.dt_node.specs.Retracing.{RefusesWith, Reruns, Retraces, refused_text};

use crate::cut_inputs::cut_input;
use crate::outcomes::NodeOutcome;
use crate::serving::serve;
use dt_edges::Sink;
use dt_items::NoMemory;
use dt_log::write_line;
use dt_reports::{Fault, LineFault, LogLine, Report};
use dt_trace::{Trace, TraceFault, read_trace};
use std::alloc::Global;

/// Writes the line of a refused line.
fn refuse<K: Sink>(line: u64, fault: LineFault, out: &mut K) -> NodeOutcome
    ensures { RefusesWith result (refused_text line fault) (K.sight out.old) (K.sight out.new) }
{
    let refusal = LogLine {
        moment: 0,
        node: None,
        report: Report::Fault {
            line,
            fault: Fault::Line(fault),
        },
    };
    match write_line(&refusal, out) {
        Ok(()) => NodeOutcome::Refused,
        Err(_) => NodeOutcome::WriteFault,
    }
}

/// Serves a script over the wire and the clock of a trace. `NoMemory` has written nothing.
fn rerun<K: Sink>(
    alloc: Global,
    script: &[u8],
    trace: &Trace,
    out: &mut K,
) -> Result<NodeOutcome, NoMemory>
    requires { length script.now ≤ most_input }
    ensures runs { IfOk result (λ outcome. Reruns script.now trace.now outcome (K.sight out.old) (K.sight out.new)) }
    ensures unchanged { OnErr result (out.new ≡ out.old) }
{
    let mut wire = trace.wire(alloc)?;
    let mut clock = trace.clock(alloc)?;
    Ok(serve(alloc, script, &mut wire, &mut clock, out))
}

/// Runs a node again: reads a script, a line `trace`, and the trace of a run, in an input of at most
/// 16,777,216 octets, and serves the script over the wire and the clock of the trace. It writes the log
/// on `out`.
///
/// - `Refused`: there is no line `trace`, and the fault is `Order` after the last line; or a line of
///   the trace is refused, or one of the script, in this order. The number of the line is that in the
///   input. `out` has the fault line.
/// - The other answers are those of [`serve`] over that wire and clock. So `WireFault` comes only where
///   a recorded failure of `open` or of a take was met.
/// - `NoMemory` may come before anything is written, too.
#[tactic(auto, using(crate::proofs::Rerunning::no_mark, crate::proofs::Rerunning::runs_again, crate::proofs::Rerunning::refuses_line))]
pub fn retrace<K: Sink>(alloc: Global, input: &[u8], out: &mut K) -> NodeOutcome
    requires { length input.now ≤ most_input }
    ensures { Retraces input.now result (K.sight out.old) (K.sight out.new) }
{
    let parts = match cut_input(input) {
        Ok(parts) => parts,
        Err(lines) => return refuse(lines + 1, LineFault::Order, out),
    };
    match read_trace(alloc, parts.trace) {
        Ok(trace) => match rerun(alloc, parts.script, &trace, out) {
            Ok(outcome) => outcome,
            Err(NoMemory) => NodeOutcome::NoMemory,
        },
        Err(TraceFault::Line { line, fault }) => refuse(parts.mark + line, fault, out),
        Err(TraceFault::NoMemory) => NodeOutcome::NoMemory,
    }
}
