//! The lines of calls, written.
ghost use Rattle.std.specs.Prelude.{◌≡◌};
ghost use Rattle.dt_edges.specs.Sinks.{Puts};
ghost use Rattle.dt_calls_input.specs.CallTexts.{call_text, totals_text};
ghost use Rattle.dt_call_parts.specs.Telling.{call_entry};
ghost use Rattle.dt_call_parts.specs.Totals.{totals_seen};

use dt_call_parts::{CallLine, CallLines, CallTotals};
use dt_edges::{Failed, Sink};
use dt_log::Word::{Flow, Hex, Long, Number, Text};
use dt_log::put_row;
use dt_scenario::Log;

/// Writes the lines of calls on a log.
#[derive(Drop)]
pub struct CallLog<'a, K> {
    pub log: Log<'a, K>,
}

impl<'a, K: Sink> CallLines for CallLog<'a, K> {
    ghost use Rattle.dt_scenario.specs.Writing.{Writes};
    ghost use Rattle.dt_calls_input.specs.CallTexts.{call_text};

    ghost tells = { λ s entry t. Writes K.sight (call_text entry) s.log t.log };

    fn line(&mut self, moment: u64, line: &CallLine<'_>) {
        let log = &mut self.log;
        if !log.failed {
            log.failed = put_line(moment, line, log.out).is_err();
        }
    }
}

/// Puts the line that is reported at this moment, in ms: one row a line. `Ok` has appended exactly its
/// text. `Failed` has appended a first part of it, and comes only where the sink's count of faults rose.
pub fn put_line<K: Sink>(moment: u64, line: &CallLine<'_>, out: &mut K) -> Result<(), Failed>
    ensures { Puts K.sight (call_text (call_entry moment line.now)) result out.old out.new }
{
    match *line {
        CallLine::Call { call, flow, count } => {
            let words = [Text("call"), Long(call), Flow(flow), Number(count)];
            put_row(Long(moment), &[], &words, out)
        }
        CallLine::Declined { call } => put_row(
            Long(moment),
            &[],
            &[Text("declined"), Long(call)],
            out,
        ),
        CallLine::Served { call } => put_row(Long(moment), &[], &[Text("served"), Long(call)], out),
        CallLine::Answered { call, payload } => {
            let words = [Text("answered"), Long(call), Hex(payload)];
            put_row(Long(moment), &[], &words, out)
        }
        CallLine::Unsure { call } => put_row(Long(moment), &[], &[Text("unsure"), Long(call)], out),
    }
}

/// Puts the line of the totals, as [`put_line`] puts a line.
pub fn put_totals<K: Sink>(totals: &CallTotals, out: &mut K) -> Result<(), Failed>
    ensures { Puts K.sight (totals_text (totals_seen totals.now)) result out.old out.new }
{
    let words = [
        Text("served"),
        Long(totals.served),
        Text("answered"),
        Long(totals.answered),
        Text("unsure"),
        Long(totals.unsure),
        Text("declined"),
        Long(totals.declined),
        Text("waiting"),
        Long(totals.waiting),
    ];
    put_row(Text("calls"), &[Long(totals.calls)], &words, out)
}
