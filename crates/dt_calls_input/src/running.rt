//! An input of calls, read from its first line to its last.
ghost use Rattle.std.specs.Prelude.{ℕ, ◌≡◌, ◌≤◌, length, IfSome};
ghost use Rattle.dt_text.specs.InputLines.{most_input};
ghost use Rattle.dt_calls_model.specs.Promises.{AreServedOnce};
ghost use Rattle.dt_calls_input.specs.CallEnds.{CallsEnd, outcome_of};
ghost use Rattle.dt_calls_input.specs.CallAnswers.{AreCallsOf, TellsOwnAnswers};
ghost use Rattle.dt_calls_input.specs.CallInputs.{calls_after_lines};

use crate::inputs::InputCalls;
use crate::outcomes::CallsOutcome;
use dt_edges::Sink;
use dt_fold::{Stop, fold_behind_buffer};
use dt_scenario::Scenario;
use std::alloc::Global;
use std::mem::forget;

/// Reads an input of at most 16,777,216 octets: its lines set up a world, calls are made in it and
/// answered with their payloads in reversed order, and what is reported of them is written on `out`,
/// after a buffer. The input isn't copied. The memory of the calls isn't given back: it goes with the
/// program, which ends after this.
///
/// - `Done`: no line is refused, and `out` has all that is reported, the totals and the end.
/// - `Refused`: a line is refused. `out` has what is reported up to it, and then its fault.
/// - `NoMemory`: there was none. `out` has a first part of what is reported, and no put failed.
/// - `WriteFault`: a put on `out` failed. It has a first part of what is reported.
///
/// After each line each call was served at most once, and the calls are those of the `call` lines up to
/// there. Each answer that is reported is that of its own call: `answered N` has the octets of the `call` line
/// N, counted from 0, in reversed order, and there is such a line.
pub fn calls<K: Sink>(alloc: Global, bytes: &[u8], out: &mut K) -> CallsOutcome
    requires few { length bytes.now ≤ most_input }
    ensures ends { CallsEnd result bytes.now (K.sight out.old) (K.sight out.new) }
    ensures once { (count : ℕ) → IfSome (calls_after_lines count bytes.now) (λ c. AreServedOnce c) }
    ensures calls { (count : ℕ) → IfSome (calls_after_lines count bytes.now) (λ c. AreCallsOf bytes.now c) }
    ensures answers { TellsOwnAnswers bytes.now }
{
    let mut input: Scenario<InputCalls> = Scenario::new(alloc);
    let folded = fold_behind_buffer(alloc, &mut input, bytes, out);
    // given back one by one, the records of many flows would take a twentieth of a run
    forget(input);
    outcome_of(folded)
}

/// How calls end whose lines were read so.
fn outcome_of(folded: Result<bool, Stop>) -> CallsOutcome
    ensures { result ≡ outcome_of folded }
{
    match folded {
        Ok(true) => CallsOutcome::Done,
        Ok(false) => CallsOutcome::Refused,
        Err(Stop::NoMemory) => CallsOutcome::NoMemory,
        Err(Stop::WriteFault) => CallsOutcome::WriteFault,
    }
}
