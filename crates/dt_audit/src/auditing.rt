//! A log, line by line, up to its first flaw, and the line of the verdict.
ghost use Rattle.std.specs.Prelude.{◌≡◌, ◌≤◌, IfOk, length};
ghost use Rattle.dt_edges.specs.Sinks.{Puts};
ghost use Rattle.dt_log.specs.LogLines.{at_line};
ghost use Rattle.dt_log.specs.Words.{row_text};
ghost use Rattle.dt_text.specs.InputLines.{most_input};
ghost use Rattle.dt_audit.specs.Audits.{AreSafe, Audits, ledger_of, verdict_text};
ghost use Rattle.dt_audit.specs.Books.{flaw_in};
ghost use Rattle.dt_audit.specs.Flaws.{flaw_words};

use crate::flaws::Flaw;
use crate::notebooks::Notebook;
use crate::outcomes::AuditOutcome;
use dt_edges::{Failed, Sink};
use dt_items::NoMemory;
use dt_log::{Word, line_fault_text, put_at_line, put_row};
use dt_text::split_line;
use std::alloc::Global;

/// The number of the first line that has a flaw, counted from 1, and its first flaw.
fn find_flaw(alloc: Global, bytes: &[u8]) -> Result<Option<(u64, Flaw)>, NoMemory>
    requires few { length bytes.now ≤ most_input }
    ensures { IfOk result (λ found. found ≡ flaw_in (ledger_of bytes.now)) }
{
    let mut notebook = Notebook::new(alloc);
    let mut rest = bytes;
    let mut number = 1;
    while !rest.is_empty() {
        let (line, more) = split_line(rest);
        if let Some(flaw) = notebook.follow_line(line)? {
            return Ok(Some((number, flaw)));
        }
        rest = more;
        number += 1;
    }
    Ok(None)
}

/// Puts the line of a flaw, which stands in the log's line of this number.
fn put_flaw<K: Sink>(line: u64, flaw: Flaw, out: &mut K) -> Result<(), Failed>
    ensures { Puts K.sight (row_text (at_line line (flaw_words flaw))) result out.old out.new }
{
    match flaw {
        Flaw::Line(fault) => put_at_line(line, &[Word::Text(line_fault_text(fault))], out),
        Flaw::Stray => put_at_line(line, &[Word::Text("stray")], out),
        Flaw::Breaks(promise) => put_at_line(
            line,
            &[Word::Text("breaks"), Word::Text(promise.name())],
            out,
        ),
    }
}

/// Puts the verdict.
fn put_verdict<K: Sink>(found: Option<(u64, Flaw)>, out: &mut K) -> Result<(), Failed>
    ensures { Puts K.sight (verdict_text found) result out.old out.new }
{
    match found {
        Some((line, flaw)) => put_flaw(line, flaw, out),
        None => put_row(Word::Text("audit"), &[Word::Text("yes")], &[], out),
    }
}

/// Checks a log that `replay` wrote, of at most 16,777,216 octets, for the promises that a log can
/// show, and writes the verdict on `out` as one line: `audit yes`, or `line N: ` and the first flaw
/// of the first line that has one. A flaw is the fault of a line that isn't written as a log writes
/// it (`count`, `flow`, `number`, `word`); `stray` where the line speaks of octets that weren't taken or
/// sent, or of a life that doesn't come next; or `breaks S1` where places of accepted octets don't rise,
/// `breaks S6` where octets without a run mark don't follow those before them, `breaks S3` where a place
/// is passed over that was neither given up nor of an earlier life of its sender, and `breaks S4` where
/// octets are acknowledged that weren't accepted; in this order.
///
/// - `Yes`: no line has a flaw. Then the places of each flow are in order, what was skipped was
///   reported, what was acknowledged was accepted, and runs are unbroken.
/// - `No`: a line has a flaw.
/// - `NoMemory`: there was none. Nothing is written.
/// - `WriteFault`: a put on `out` failed. It has a first part of the line.
///
/// The log isn't copied. Memory is taken for each flow and each node that began again, and 16 octets
/// for each life of a sender in which not all octets were sent; none for an octet or a line. The cost
/// is the log, and at an acceptance a search among such lives of its sender, whose steps grow with the
/// logarithm of their number.
pub fn audit<K: Sink>(alloc: Global, bytes: &[u8], out: &mut K) -> AuditOutcome
    requires few { length bytes.now ≤ most_input }
    ensures ends { Audits result bytes.now (K.sight out.old) (K.sight out.new) }
    ensures safe { IfOk (ledger_of bytes.now) AreSafe }
{
    let found = match find_flaw(alloc, bytes) {
        Ok(found) => found,
        Err(NoMemory) => return AuditOutcome::NoMemory,
    };
    match (found, put_verdict(found, out)) {
        (_, Err(Failed)) => AuditOutcome::WriteFault,
        (None, Ok(())) => AuditOutcome::Yes,
        (Some(_), Ok(())) => AuditOutcome::No,
    }
}
