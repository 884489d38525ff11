//! An input, line by line, up to its end or to the first line that is refused.
ghost use Rattle.std.specs.Prelude.{◌≡◌, ◌≤◌, [], length, IfOk};
ghost use Rattle.dt_text.specs.InputLines.{most_input};
ghost use Rattle.dt_fold.specs.Folds.{fold_input, refusal};
ghost use Rattle.dt_fold.specs.Logging.{FoldsTo, Logs};

use crate::line_turns::LineTurns;
use crate::stops::Stop;
use dt_edges::Sink;
use dt_log::write_line;
use dt_reports::{Fault, LogLine, Report};
use dt_text::split_line;

/// Logs the fault of the line with this number.
fn refuse<K: Sink>(line: u64, fault: Fault, out: &mut K) -> Result<(), Stop>
    ensures { Logs K.sight (refusal line fault) result out.old out.new }
{
    let refusal = LogLine {
        moment: 0,
        node: None,
        report: Report::Fault { line, fault },
    };
    write_line(&refusal, out)?;
    Ok(())
}

/// Reads an input up to its end, or to the first line that is refused, and says which that is and why.
fn fold_lines<T: LineTurns, K: Sink>(
    lines: &mut T,
    bytes: &[u8],
    out: &mut K,
) -> Result<Option<(u64, Fault)>, Stop>
    requires few { length bytes.now ≤ most_input }
    ensures { FoldsTo K.sight (fold_input T.turns (T.state lines.old) bytes.now) result (T.state lines.new) out.old out.new }
{
    let mut rest = bytes;
    let mut number = 1;
    while !rest.is_empty() {
        let (line, more) = split_line(rest);
        if let Some(fault) = lines.turn(line, out)? {
            return Ok(Some((number, fault)));
        }
        rest = more;
        number += 1;
    }
    match lines.close(out)? {
        Some(fault) => Ok(Some((number, fault))),
        None => Ok(None),
    }
}

/// Reads an input of at most 16,777,216 octets line by line, up to its end or to the first line that
/// is refused, which is logged with its number, and says whether none was. It takes no memory beside
/// what the lines take. The cost is that of the lines.
///
/// `Ok` has logged exactly the text of the whole input. `NoMemory` has logged a first part of it,
/// and no put failed. `WriteFault` has logged a first part of it, and comes only where the sink's count
/// of faults rose.
pub fn fold_input<T: LineTurns, K: Sink>(
    lines: &mut T,
    bytes: &[u8],
    out: &mut K,
) -> Result<bool, Stop>
    requires few { length bytes.now ≤ most_input }
    ensures logs { Logs K.sight (fold_input T.turns (T.state lines.old) bytes.now).text result out.old out.new }
    ensures accepted { IfOk result (λ accepted. accepted ≡ (fold_input T.turns (T.state lines.old) bytes.now).accepted) }
    ensures state { IfOk result (λ _. T.state lines.new ≡ (fold_input T.turns (T.state lines.old) bytes.now).state) }
{
    match fold_lines(lines, bytes, out)? {
        None => Ok(true),
        Some((number, fault)) => {
            refuse(number, fault, out)?;
            Ok(false)
        }
    }
}
