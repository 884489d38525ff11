//! What the commands do.
ghost use Rattle.std.specs.Prelude.{◌≡◌, ◌≤◌, false, length, Some};
ghost use Rattle.dt_command.specs.Commands.{IsInRange, command_of, job_uses_wire, reads_source, uses_wire};
ghost use Rattle.dt_top.specs.Endings.{audit_ending, calls_ending, lacking, node_ending, replay_ending};
ghost use Rattle.dt_top.specs.Inputs.{limit};
ghost use Rattle.dt_top.specs.Loans.{KeepsClock, KeepsSource, KeepsWire, sights};
ghost use Rattle.dt_top.specs.Serving.{Ends, Owes, job_owes};
ghost use Rattle.dt_top.specs.Streams.{OwesFor};

use crate::ending::Ending;
use crate::input::{InputFault, read_input};
use crate::streams::Streams;
use dt_audit::{AuditOutcome, audit};
use dt_calls_input::{CallsOutcome, calls};
use dt_command::{Command, Job, command_of};
use dt_edges::{Clock, Failed, Sink, Source, Wire};
use dt_items::NoMemory;
use dt_make::make;
use dt_node::{NodeOutcome, retrace, serve, serve_traced};
use dt_replay::{Outcome, replay};
use std::alloc::Global;

/// How a run ends that has no input.
fn lacking(fault: InputFault) -> Ending
    ensures { result ≡ lacking fault }
{
    match fault {
        InputFault::TooLong => Ending::TooLong,
        InputFault::NoMemory => Ending::NoMemory,
        InputFault::ReadFault => Ending::ReadFault,
    }
}

/// How a run ends whose replay does.
fn replay_ending(outcome: Outcome) -> Ending
    ensures { result ≡ replay_ending outcome }
{
    match outcome {
        Outcome::Done => Ending::Done,
        Outcome::Refused => Ending::Refused,
        Outcome::NoMemory => Ending::NoMemory,
        Outcome::WriteFault => Ending::WriteFault,
    }
}

/// How a run ends whose node does.
fn node_ending(outcome: NodeOutcome) -> Ending
    ensures { result ≡ node_ending outcome }
{
    match outcome {
        NodeOutcome::Done => Ending::Done,
        NodeOutcome::Refused => Ending::Refused,
        NodeOutcome::NoMemory => Ending::NoMemory,
        NodeOutcome::WireFault => Ending::WireFault,
        NodeOutcome::ClockStill => Ending::ClockStill,
        NodeOutcome::WriteFault => Ending::WriteFault,
    }
}

/// How a run ends whose calls do.
fn calls_ending(outcome: CallsOutcome) -> Ending
    ensures { result ≡ calls_ending outcome }
{
    match outcome {
        CallsOutcome::Done => Ending::Done,
        CallsOutcome::Refused => Ending::Refused,
        CallsOutcome::NoMemory => Ending::NoMemory,
        CallsOutcome::WriteFault => Ending::WriteFault,
    }
}

/// How a run ends whose audit does: a log with a flaw is a refused input.
fn audit_ending(outcome: AuditOutcome) -> Ending
    ensures { result ≡ audit_ending outcome }
{
    match outcome {
        AuditOutcome::Yes => Ending::Done,
        AuditOutcome::No => Ending::Refused,
        AuditOutcome::NoMemory => Ending::NoMemory,
        AuditOutcome::WriteFault => Ending::WriteFault,
    }
}

/// Does its job with an input.
fn serve_input<S: Source, K: Sink, W: Wire, C: Clock>(
    alloc: Global,
    job: Job,
    input: &[u8],
    streams: Streams<'_, S, K, W, C>,
) -> Ending
    requires { length input.now ≤ limit }
    ensures owed { job_owes job result input.now (sights S.sight K.sight W.sight C.sight streams.entry streams.exit).effects }
    ensures same_source { KeepsSource streams.entry streams.exit }
    ensures same_wire { job_uses_wire job ≡ false → KeepsWire streams.entry streams.exit }
    ensures same_clock { job_uses_wire job ≡ false → KeepsClock streams.entry streams.exit }
{
    let Streams {
        source: _,
        out,
        wire,
        clock,
    } = streams;
    match job {
        Job::Replay => replay_ending(replay(alloc, input, out)),
        Job::Node => node_ending(serve(alloc, input, wire, clock, out)),
        Job::Trace => node_ending(serve_traced(alloc, input, wire, clock, out)),
        Job::Retrace => node_ending(retrace(alloc, input, out)),
        Job::Calls => calls_ending(calls(alloc, input, out)),
        Job::Audit => audit_ending(audit(alloc, input, out)),
    }
}

/// Reads an input, and does its job with it.
fn serve_job<S: Source, K: Sink, W: Wire, C: Clock>(
    alloc: Global,
    job: Job,
    streams: Streams<'_, S, K, W, C>,
) -> Ending
    ensures owed { OwesFor (job_owes job) result (sights S.sight K.sight W.sight C.sight streams.entry streams.exit) }
    ensures same_wire { job_uses_wire job ≡ false → KeepsWire streams.entry streams.exit }
    ensures same_clock { job_uses_wire job ≡ false → KeepsClock streams.entry streams.exit }
{
    match read_input(alloc, streams.source) {
        Ok(input) => serve_input(alloc, job, &input, streams),
        Err(fault) => lacking(fault),
    }
}

/// Does what the command says.
fn serve_command<S: Source, K: Sink, W: Wire, C: Clock>(
    alloc: Global,
    command: Command,
    streams: Streams<'_, S, K, W, C>,
) -> Ending
    requires { IsInRange command }
    ensures owed { Owes command result (sights S.sight K.sight W.sight C.sight streams.entry streams.exit) }
    ensures same_source { reads_source (Some command) ≡ false → KeepsSource streams.entry streams.exit }
    ensures same_wire { uses_wire (Some command) ≡ false → KeepsWire streams.entry streams.exit }
    ensures same_clock { uses_wire (Some command) ≡ false → KeepsClock streams.entry streams.exit }
{
    match command {
        Command::Serve(job) => serve_job(alloc, job, streams),
        Command::Make(n) => match make(n, streams.out) {
            Ok(()) => Ending::Done,
            Err(Failed) => Ending::WriteFault,
        },
    }
}

/// Serves the command that the words name.
pub fn serve_words<S: Source, K: Sink, W: Wire, C: Clock>(
    alloc: Global,
    words: &[String],
    streams: Streams<'_, S, K, W, C>,
) -> Ending
    ensures ends { Ends (command_of words.now) result (sights S.sight K.sight W.sight C.sight streams.entry streams.exit) }
    ensures same_source { reads_source (command_of words.now) ≡ false → KeepsSource streams.entry streams.exit }
    ensures same_wire { uses_wire (command_of words.now) ≡ false → KeepsWire streams.entry streams.exit }
    ensures same_clock { uses_wire (command_of words.now) ≡ false → KeepsClock streams.entry streams.exit }
{
    match command_of(alloc, words) {
        Ok(Some(command)) => serve_command(alloc, command, streams),
        Ok(None) => Ending::Usage,
        Err(NoMemory) => Ending::NoMemory,
    }
}
