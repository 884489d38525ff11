//! Replay of a schedule: its lines drive a world, and the log is written to a sink.
ghost use Rattle.std.specs.Prelude.{ℕ, ◌≡◌, ◌≤◌, length, IfSome};
ghost use Rattle.dt_text.specs.InputLines.{most_input};
ghost use Rattle.dt_world_model.specs.WorldFacts.{SafeWorld};
ghost use Rattle.dt_replay.specs.Replays.{Replays, outcome_of};
ghost use Rattle.dt_replay.specs.Schedules.{world_after_lines, world_of};

use crate::outcomes::Outcome;
use crate::schedules::ScheduledWorld;
use dt_edges::Sink;
use dt_fold::{Stop, fold_behind_buffer};
use dt_scenario::Scenario;
use std::alloc::Global;
use std::mem::forget;

/// Replays a schedule of at most 16,777,216 octets: its lines set up a world and make things happen in
/// it, and its log is written on `out`, after a buffer. The input isn't copied. The memory of the world
/// isn't given back: it goes with the program, which ends after this.
///
/// - `Done`: no line is refused, and `out` has the whole log.
/// - `Refused`: a line is refused. `out` has the log up to it, and then its fault.
/// - `NoMemory`: there was none. `out` has a first part of the log, and no put failed.
/// - `WriteFault`: a put on `out` failed. It has a first part of the log.
///
/// After each line the world is safe, and so is the world of the schedule, after all of them: each
/// octet of every flow was given at most once, in the order of its sending, and what was passed over was
/// told.
pub fn replay<K: Sink>(alloc: Global, bytes: &[u8], out: &mut K) -> Outcome
    requires few { length bytes.now ≤ most_input }
    ensures ends { Replays result bytes.now (K.sight out.old) (K.sight out.new) }
    ensures safe { (count : ℕ) → IfSome (world_after_lines count bytes.now) (λ w. SafeWorld w) }
    ensures whole { IfSome (world_of bytes.now) (λ w. SafeWorld w) }
{
    let mut schedule: Scenario<ScheduledWorld> = Scenario::new(alloc);
    let folded = fold_behind_buffer(alloc, &mut schedule, bytes, out);
    // given back one by one, the records of many flows would take a twentieth of a run
    forget(schedule);
    outcome_of(folded)
}

/// How a replay ends whose lines were read so.
fn outcome_of(folded: Result<bool, Stop>) -> Outcome
    ensures { result ≡ outcome_of folded }
{
    match folded {
        Ok(true) => Outcome::Done,
        Ok(false) => Outcome::Refused,
        Err(Stop::NoMemory) => Outcome::NoMemory,
        Err(Stop::WriteFault) => Outcome::WriteFault,
    }
}
