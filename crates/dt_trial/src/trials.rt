//! A trial: one run of the program in memory with planned failures, and the functions that check how it ended.
ghost use Rattle.std.specs.Prelude.{◌≡◌, ◌↔◌, [], codes, take, IfErr, IfOk, IsErr, IsTrue, OnErr};
ghost use Rattle.dt_trial.specs.Trials as trials;
ghost use Rattle.dt_trial.specs.Trials.{HasEnd, IsRun, IsRunOf, Lacks};
ghost use Rattle.dt_trial.specs.declared.run_results.RunResult.{RunResult};

use crate::run_results::RunResult;
use crate::run_starts::RunStart;
use crate::untried::Untried;
use dt_edges::MemWire;
use dt_items::NoMemory;
use std::alloc::Global;

/// What is run: the words without the program's name, the input, and what the clock and the wire give. The
/// rest says what fails, and how much room there is.
#[derive(Clone, Copy)]
pub struct Trial<'a> {
    pub words: &'a [&'a str],
    pub input: &'a [u8],
    /// The clock's readings in milliseconds, of which there is one at least.
    pub readings: &'a [u64],
    /// What the takes of the wire find on link 1: a datagram, or nothing.
    pub takes: &'a [Option<&'a [u8]>],
    /// The numbers of the reads that fail, the first of which is number 1; so of takes and gives.
    pub failing_reads: &'a [u32],
    /// How many octets fit on standard output, and on standard error.
    pub out_room: usize,
    pub err_room: usize,
    pub open_fails: bool,
    pub failing_takes: &'a [u64],
    pub failing_gives: &'a [u64],
}

/// A replay of no input, where nothing fails.
pub const FREELY: Trial<'static> = Trial {
    words: &["replay"],
    input: b"",
    readings: &[0],
    takes: &[],
    failing_reads: &[],
    out_room: 4096,
    err_room: 128,
    open_fails: false,
    failing_takes: &[],
    failing_gives: &[],
};

/// The wire of a trial.
fn wire_of(alloc: Global, trial: &Trial<'_>) -> Result<MemWire, NoMemory>
    ensures { IfOk result (λ wire. wire ≡ trials.wire_of trial.now) }
{
    let mut wire = MemWire::new(
        alloc,
        trial.open_fails,
        trial.failing_takes,
        trial.failing_gives,
        None,
    )?;
    for take in trial.takes {
        match take {
            Some(octets) => wire.add_take(1, octets)?,
            None => wire.add_nothing()?,
        }
    }
    Ok(wire)
}

/// Runs the trial over a wire in place of its own. After an error the wire is as it was. It costs what the
/// program does, and the room of both sinks.
pub fn tried_over(
    alloc: Global,
    trial: &Trial<'_>,
    wire: &mut MemWire,
) -> Result<RunResult, Untried>
    ensures runs { IfOk result (λ left. IsRun trial.now wire.old wire.new left) }
    ensures no_reading { trial.now.readings.now ≡ [] → IsErr result }
    ensures untried { IfErr result (λ why. Lacks why trial.now) }
    ensures unchanged { OnErr result (wire.new ≡ wire.old) }
{
    if trial.readings.is_empty() {
        return Err(Untried::NoReading);
    }
    let start = RunStart::new(alloc, trial)?;
    Ok(start.run(alloc, wire))
}

/// Runs the trial. It costs what the program does, and the room of both sinks.
pub fn tried(alloc: Global, trial: &Trial<'_>) -> Result<RunResult, Untried>
    ensures runs { IfOk result (λ left. IsRunOf trial.now left) }
    ensures no_reading { trial.now.readings.now ≡ [] → IsErr result }
    ensures untried { IfErr result (λ why. Lacks why trial.now) }
{
    if trial.readings.is_empty() {
        return Err(Untried::NoReading);
    }
    let mut wire = wire_of(alloc, trial)?;
    tried_over(alloc, trial, &mut wire)
}

/// Whether a run of the trial ends with this status, this output and this text on standard error.
pub fn ends(
    alloc: Global,
    trial: &Trial<'_>,
    status: u8,
    out: &[u8],
    said: &[u8],
) -> Result<bool, Untried>
    ensures ran { IfOk result (λ ended. (left : RunResult) × IsRunOf trial.now left × (IsTrue ended ↔ HasEnd status out.now said.now left)) }
    ensures no_reading { trial.now.readings.now ≡ [] → IsErr result }
    ensures untried { IfErr result (λ why. Lacks why trial.now) }
{
    let left = tried(alloc, trial)?;
    Ok(left.has(status, out, said))
}

/// Whether a run of the trial ends for want of room on standard output, where it leaves as much of its whole
/// output as there is room for.
pub fn is_cut_short(alloc: Global, trial: &Trial<'_>, whole: &[u8]) -> Result<bool, Untried>
    ensures ran { IfOk result (λ cut. (left : RunResult) × IsRunOf trial.now left × (IsTrue cut ↔ HasEnd 8 (take trial.now.out_room whole.now) (codes "write failed\n") left)) }
    ensures no_reading { trial.now.readings.now ≡ [] → IsErr result }
    ensures untried { IfErr result (λ why. Lacks why trial.now) }
{
    let part = whole.get(..trial.out_room).unwrap_or(whole);
    ends(alloc, trial, 8, part, b"write failed\n")
}
