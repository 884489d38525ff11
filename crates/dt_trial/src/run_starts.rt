//! The words, the source, the clock and the two sinks with which a trial calls `run`.
ghost use Rattle.std.specs.Prelude.{◌≡◌, ◌<◌, IfOk, length, map, string_bytes};
ghost use Rattle.dt_trial.specs.Trials.{IsRunFrom, start_of, start_seen};

use crate::run_results::RunResult;
use crate::trials::Trial;
use dt_edges::{MemClock, MemSink, MemSource, MemWire};
use dt_items::NoMemory;
use dt_top::run;
use std::alloc::Global;

/// What a run begins with, beside the wire.
#[derive(Drop)]
pub struct RunStart {
    words: Vec<String>,
    source: MemSource,
    clock: MemClock,
    out: MemSink,
    err: MemSink,
}

/// The words of a trial.
fn words_of(alloc: Global, words: &[&str]) -> Result<Vec<String>, NoMemory>
    ensures { IfOk result (λ made. map string_bytes made.items ≡ map (λ word. word.now) words.now) }
{
    let mut made = Vec::new(alloc);
    for word in words {
        made.push(String::from_str(alloc, word)?)?;
    }
    Ok(made)
}

impl RunStart {
    /// The start of a trial. Takes memory for what it gives, and for the room of both sinks.
    pub fn new(alloc: Global, trial: &Trial<'_>) -> Result<Self, NoMemory>
        requires { 0 < length trial.now.readings.now }
        ensures { IfOk result (λ start. start_seen start ≡ start_of trial.now) }
    {
        Ok(RunStart {
            words: words_of(alloc, trial.words)?,
            source: MemSource::new(alloc, trial.input, trial.failing_reads)?,
            clock: MemClock::new(alloc, trial.readings)?,
            out: MemSink::new(alloc, trial.out_room, &[])?,
            err: MemSink::new(alloc, trial.err_room, &[])?,
        })
    }

    /// Runs the program from here. It costs what the program does.
    pub fn run(self, alloc: Global, wire: &mut MemWire) -> RunResult
        ensures { IsRunFrom (start_seen self) wire.old wire.new result }
    {
        let RunStart {
            words,
            mut source,
            mut clock,
            mut out,
            mut err,
        } = self;
        let status = run(
            alloc,
            &words,
            &mut source,
            &mut out,
            &mut err,
            wire,
            &mut clock,
        );
        RunResult { status, out, err }
    }
}
