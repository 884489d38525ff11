//! Reading an input line by line while its log is gathered in a buffer, so that one put writes many lines.
ghost use Rattle.std.specs.Prelude.{◌≡◌, ◌≤◌, [], length, true, IfOk, OnOk, Ok};
ghost use Rattle.dt_text.specs.InputLines.{most_input};
ghost use Rattle.dt_fold.specs.Folds.{fold_input};
ghost use Rattle.dt_fold.specs.Logging.{Fills, FillsBehind, PassesRest, wants_memory};

use crate::folding::fold_input;
use crate::line_turns::LineTurns;
use crate::stops::Stop;
use dt_edges::{Buffer, Buffered, Sink};
use std::alloc::Global;

/// Reads an input of at most 16,777,216 octets line by line, as [`fold_input`] does, and gathers what
/// is logged in a buffer of 8,192 octets, so that a put takes many lines. What stands in the buffer is
/// put at the end, also where memory ran out. Takes memory for the buffer.
///
/// - `Ok`: the sink has exactly the text of the whole input. It says whether no line was refused.
/// - `NoMemory`: the sink has a first part of it, and no put failed.
/// - `WriteFault`: the sink has a first part of it, and its count of faults rose.
pub fn fold_behind_buffer<T: LineTurns, K: Sink>(
    alloc: Global,
    lines: &mut T,
    bytes: &[u8],
    out: &mut K,
) -> Result<bool, Stop>
    requires few { length bytes.now ≤ most_input }
    ensures { Fills (fold_input T.turns (T.state lines.old) bytes.now) result (K.sight out.old) (K.sight out.new) }
{
    let mut buffer = Buffer::new(alloc)?;
    let folded = fold_into(lines, bytes, &mut buffer, out);
    pass_rest(folded, &mut buffer, out)
}

/// Reads an input into an empty buffer, which is put on the sink where it is full.
fn fold_into<T: LineTurns, K: Sink>(
    lines: &mut T,
    bytes: &[u8],
    buffer: &mut Buffer,
    out: &mut K,
) -> Result<bool, Stop>
    requires few { length bytes.now ≤ most_input }
    ensures { FillsBehind (fold_input T.turns (T.state lines.old) bytes.now) result (K.sight out.old) buffer.old (K.sight out.new) buffer.new }
{
    let mut log = Buffered { out, buffer };
    fold_input(lines, bytes, &mut log)
}

/// Puts what waits in a buffer on the sink behind it, where no put has failed: the end of a call that
/// wrote into the buffer, by what the call answered. Takes no memory. The cost is that of what waits.
///
/// - `Ok`: the call's answer. All is put, and nothing waits any more.
/// - `NoMemory`: the call's answer. All is put.
/// - `WriteFault`: a put of the call failed, and nothing more is put; or one failed here, a first part
///   is put, and the sink's count of faults rose.
pub fn pass_rest<K: Sink>(
    done: Result<bool, Stop>,
    buffer: &mut Buffer,
    out: &mut K,
) -> Result<bool, Stop>
    ensures puts { PassesRest done result buffer.old (K.sight out.old) (K.sight out.new) }
    ensures empty { OnOk result (buffer.new ≡ []) }
    ensures same { IfOk result (λ answer. done ≡ Ok answer) }
    ensures memory { wants_memory result ≡ true → wants_memory done ≡ true }
{
    if let Err(Stop::WriteFault) = done {
        return done;
    }
    buffer.pass_on(out)?;
    done
}
