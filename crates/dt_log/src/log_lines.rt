//! The lines of the log.
ghost use Rattle.std.specs.Prelude.{◌≡◌};
ghost use Rattle.dt_edges.specs.Sinks.{Puts};
ghost use Rattle.dt_reports.specs.Entries.{entry_of};
ghost use Rattle.dt_log.specs.Words.{sent_letters, read_letters, record_text, run_text};
ghost use Rattle.dt_log.specs.Logs.{entry_text};

use crate::fault_lines::{put_bad, put_fault, put_refusal};
use crate::line_forms::{
    OctetRange, put_expired, put_flow_and_number, put_flow_and_two, put_flow_and_word,
    put_flow_told, put_lost, put_number_told, put_octets, put_put, put_put_as, put_span,
    put_totals,
};
use crate::words::Word::{Long, Text};
use crate::words::put_row;
use dt_edges::{Failed, Sink};
use dt_reports::{LogLine, Report, Totals};

/// The letters of a packet that was sent: its data-run flag, and whether it begins and ends a
/// message.
fn letters_sent(drf: bool, begin: bool, end: bool) -> &'static str
    ensures { result.now ≡ sent_letters drf begin end }
{
    match (drf, begin, end) {
        (true, true, true) => "dbe",
        (true, true, false) => "db",
        (true, false, true) => "de",
        (true, false, false) => "d",
        (false, true, true) => "be",
        (false, true, false) => "b",
        (false, false, true) => "e",
        (false, false, false) => "-",
    }
}

/// The letters of a piece that was read: its run mark, and whether it begins and ends a message.
fn letters_read(run: bool, begin: bool, end: bool) -> &'static str
    ensures { result.now ≡ read_letters run begin end }
{
    match (run, begin, end) {
        (true, true, true) => "rbe",
        (true, true, false) => "rb",
        (true, false, true) => "re",
        (true, false, false) => "r",
        (false, true, true) => "be",
        (false, true, false) => "b",
        (false, false, true) => "e",
        (false, false, false) => "-",
    }
}

/// Which record was released.
fn record_name(sending: bool) -> &'static str
    ensures { result.now ≡ record_text sending }
{
    if sending { "send" } else { "receive" }
}

/// Whether data has a run mark.
fn run_name(run: bool) -> &'static str
    ensures { result.now ≡ run_text run }
{
    if run { "run" } else { "on" }
}

/// A match on a report, with one row a report: what puts its line.
macro_rules! lines {
    ($line:ident; $($report:ident $({ $($part:ident),* })? => $put:expr,)*) => {
        match $line.report {
            $(Report::$report $({ $($part),* })? => $put,)*
        }
    };
}

/// Writes a line of the log, ended by one line feed: the moment, the node, the word of the report and
/// its fields, with one space between two of them. Where `node` is `None` the line of a node is
/// written without the node's word. The loss of a copy and the end of a run are written without the
/// node, and the totals of a flow and a fault without moment and node.
///
/// `Ok` has appended exactly the line's text. `Failed` has appended a first part of it, and comes only
/// where the sink's count of faults rose. Takes no memory. The cost is the line.
pub fn write_line<K: Sink>(line: &LogLine<'_>, out: &mut K) -> Result<(), Failed>
    ensures { Puts K.sight (entry_text (entry_of line.now)) result out.old out.new }
{
    lines! { line;
        Took { flow, count } => put_flow_and_number(line, "took", flow, count, out),
        Sent { flow, number, length, drf, begin, end } =>
            put_span(line, "sent", OctetRange { flow, number, length }, letters_sent(drf, begin, end), out),
        Resent { flow, number, length, drf, begin, end } =>
            put_span(line, "resent", OctetRange { flow, number, length }, letters_sent(drf, begin, end), out),
        Met { flow, number } => put_flow_and_number(line, "met", flow, number, out),
        Uncertain { flow, count } => put_flow_and_number(line, "uncertain", flow, count, out),
        Released { flow, sending } => put_flow_and_word(line, "released", flow, record_name(sending), out),
        Renewed { flow } => put_flow_told(line, "renewed", flow, out),
        Acked { flow, number, window } => put_flow_and_two(line, "acked", flow, (number, window), out),
        Replied { flow, number, window } => put_flow_and_two(line, "replied", flow, (number, window), out),
        Accepted { flow, number, length, run } =>
            put_span(line, "accepted", OctetRange { flow, number, length }, run_name(run), out),
        Dropped { flow, number } => put_flow_and_number(line, "dropped", flow, number, out),
        Closing { flow, number } => put_flow_and_number(line, "closing", flow, number, out),
        Settled { flow, count, window } => put_flow_and_two(line, "settled", flow, (count, window), out),
        Ignored { flow, number, window } => put_flow_and_two(line, "ignored", flow, (number, window), out),
        Quiet { until } => put_number_told(line, "quiet", until, out),
        Read { flow, run, begin, end, octets } =>
            put_octets(line, flow, letters_read(run, begin, end), octets, out),
        Nothing { flow } => put_flow_told(line, "nothing", flow, out),
        Put { link, life } => put_put(line, link as u32, life, out),
        PutAs { link, life, copy } => put_put_as(line, link as u32, life, copy, out),
        ExpiredIn { link } => put_expired(line, "in", link as u32, out),
        ExpiredOut { link } => put_expired(line, "out", link as u32, out),
        NoRoute { to } => put_number_told(line, "noroute", u64::from(to), out),
        Full { link } => put_number_told(line, "full", link as u64, out),
        Unsent { link } => put_number_told(line, "unsent", link as u64, out),
        Shelved { flow, number } => put_flow_and_number(line, "shelved", flow, number, out),
        NoShelf { flow, number } => put_flow_and_number(line, "noshelf", flow, number, out),
        Again { flow, number } => put_flow_and_number(line, "again", flow, number, out),
        Stale { flow, number } => put_flow_and_number(line, "stale", flow, number, out),
        Restarted { life } => put_number_told(line, "restarted", u64::from(life), out),
        Refused { flow, fault } => put_refusal(line, flow, fault, out),
        Bad { fault } => put_bad(line, fault, out),
        Lost { copy } => put_lost(line.moment, copy, out),
        FlowTotals { flow, taken, acked, uncertain, unsettled, given, read } =>
            put_totals(flow, Totals { taken, acked, uncertain, unsettled, given, read }, out),
        End => put_row(Text("end"), &[], &[Long(line.moment)], out),
        Fault { line, fault } => put_fault(line, fault, out),
    }
}
