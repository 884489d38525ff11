//! The forms of the lines of the log. Each has a function of its own, so that a call of one has one
//! line's words among its locals.
ghost use Rattle.std.specs.Prelude.{◌≡◌, [], ◌∷◌, map, codes, decimal};
ghost use Rattle.dt_edges.specs.Sinks.{Puts};
ghost use Rattle.dt_log.specs.Words.{row_text, flow_text, hex_text};
ghost use Rattle.dt_log.specs.LogLines.{at_node, totals_words};
ghost use Rattle.dt_log.specs.Wording.{word_text};

use crate::words::Word::{self, Flow, Hex, Long, Number, Text};
use crate::words::put_row;
use dt_edges::{Failed, Sink};
use dt_reports::{LogLine, Totals};

/// Puts the line of what a node reports: the moment, the node where there is one, and these words.
pub fn put_told<K: Sink>(line: &LogLine<'_>, words: &[Word<'_>], out: &mut K) -> Result<(), Failed>
    ensures { Puts K.sight (row_text (at_node line.now.moment line.now.node (map word_text words.now))) result out.old out.new }
{
    let moment = Long(line.moment);
    match line.node {
        Some(node) => put_row(moment, &[Number(node)], words, out),
        None => put_row(moment, &[], words, out),
    }
}

/// Puts the line of the totals of a flow.
pub fn put_totals<K: Sink>(flow: dt_units::Flow, totals: Totals, out: &mut K) -> Result<(), Failed>
    ensures { Puts K.sight (row_text (totals_words flow totals)) result out.old out.new }
{
    put_row(
        Text("flow"),
        &[Flow(flow)],
        &[
            Text("taken"),
            Long(totals.taken),
            Text("acked"),
            Long(totals.acked),
            Text("uncertain"),
            Long(totals.uncertain),
            Text("open"),
            Long(totals.unsettled),
            Text("given"),
            Long(totals.given),
            Text("read"),
            Long(totals.read),
        ],
        out,
    )
}

/// Puts the line of a word and a number that a node reports.
pub fn put_number_told<K: Sink>(
    line: &LogLine<'_>,
    name: &'static str,
    n: u64,
    out: &mut K,
) -> Result<(), Failed>
    ensures { Puts K.sight (row_text (at_node line.now.moment line.now.node (name.now ∷ decimal n ∷ []))) result out.old out.new }
{
    put_told(line, &[Text(name), Long(n)], out)
}

/// Puts the line of a word and a flow that a node reports.
pub fn put_flow_told<K: Sink>(
    line: &LogLine<'_>,
    name: &'static str,
    flow: dt_units::Flow,
    out: &mut K,
) -> Result<(), Failed>
    ensures { Puts K.sight (row_text (at_node line.now.moment line.now.node (name.now ∷ flow_text flow ∷ []))) result out.old out.new }
{
    put_told(line, &[Text(name), Flow(flow)], out)
}

/// The same, and a last word.
pub fn put_flow_and_word<K: Sink>(
    line: &LogLine<'_>,
    name: &'static str,
    flow: dt_units::Flow,
    last: &'static str,
    out: &mut K,
) -> Result<(), Failed>
    ensures { Puts K.sight (row_text (at_node line.now.moment line.now.node (name.now ∷ flow_text flow ∷ last.now ∷ []))) result out.old out.new }
{
    put_told(line, &[Text(name), Flow(flow), Text(last)], out)
}

/// Puts the line of a word, a flow and a number that a node reports.
pub fn put_flow_and_number<K: Sink>(
    line: &LogLine<'_>,
    name: &'static str,
    flow: dt_units::Flow,
    n: u32,
    out: &mut K,
) -> Result<(), Failed>
    ensures { Puts K.sight (row_text (at_node line.now.moment line.now.node (name.now ∷ flow_text flow ∷ decimal n ∷ []))) result out.old out.new }
{
    put_told(line, &[Text(name), Flow(flow), Number(n)], out)
}

/// Puts the line of a word, a flow and two numbers that a node reports.
pub fn put_flow_and_two<K: Sink>(
    line: &LogLine<'_>,
    name: &'static str,
    flow: dt_units::Flow,
    numbers: (u32, u32),
    out: &mut K,
) -> Result<(), Failed>
    ensures { Puts K.sight (row_text (at_node line.now.moment line.now.node (name.now ∷ flow_text flow ∷ decimal numbers.0 ∷ decimal numbers.1 ∷ []))) result out.old out.new }
{
    put_told(
        line,
        &[Text(name), Flow(flow), Number(numbers.0), Number(numbers.1)],
        out,
    )
}

/// The octets that a line names: those of a flow from a number on.
#[derive(Clone, Copy)]
pub struct OctetRange {
    pub flow: dt_units::Flow,
    pub number: u32,
    pub length: u32,
}

/// Puts the line of a word, octets and a last word that a node reports.
pub fn put_span<K: Sink>(
    line: &LogLine<'_>,
    name: &'static str,
    span: OctetRange,
    last: &'static str,
    out: &mut K,
) -> Result<(), Failed>
    ensures { Puts K.sight (row_text (at_node line.now.moment line.now.node (name.now ∷ flow_text span.flow ∷ decimal span.number ∷ decimal span.length ∷ last.now ∷ []))) result out.old out.new }
{
    put_told(
        line,
        &[
            Text(name),
            Flow(span.flow),
            Number(span.number),
            Number(span.length),
            Text(last),
        ],
        out,
    )
}

/// Puts the line of octets that were read.
pub fn put_octets<K: Sink>(
    line: &LogLine<'_>,
    flow: dt_units::Flow,
    letters: &'static str,
    octets: &[u8],
    out: &mut K,
) -> Result<(), Failed>
    ensures { Puts K.sight (row_text (at_node line.now.moment line.now.node (codes "read" ∷ flow_text flow ∷ letters.now ∷ hex_text octets.now ∷ []))) result out.old out.new }
{
    put_told(
        line,
        &[Text("read"), Flow(flow), Text(letters), Hex(octets)],
        out,
    )
}

/// Puts the line of a packet whose life ended on a link.
pub fn put_expired<K: Sink>(
    line: &LogLine<'_>,
    way: &'static str,
    link: u32,
    out: &mut K,
) -> Result<(), Failed>
    ensures { Puts K.sight (row_text (at_node line.now.moment line.now.node (codes "expired" ∷ way.now ∷ decimal link ∷ []))) result out.old out.new }
{
    put_told(line, &[Text("expired"), Text(way), Number(link)], out)
}

/// Puts the line of a packet that was put on a link.
pub fn put_put<K: Sink>(line: &LogLine<'_>, link: u32, life: u32, out: &mut K) -> Result<(), Failed>
    ensures { Puts K.sight (row_text (at_node line.now.moment line.now.node (codes "put" ∷ decimal link ∷ decimal life ∷ []))) result out.old out.new }
{
    put_told(line, &[Text("put"), Number(link), Number(life)], out)
}

/// The same, with the number of the copy.
pub fn put_put_as<K: Sink>(
    line: &LogLine<'_>,
    link: u32,
    life: u32,
    copy: u64,
    out: &mut K,
) -> Result<(), Failed>
    ensures { Puts K.sight (row_text (at_node line.now.moment line.now.node (codes "put" ∷ decimal link ∷ decimal life ∷ codes "as" ∷ decimal copy ∷ []))) result out.old out.new }
{
    put_told(
        line,
        &[
            Text("put"),
            Number(link),
            Number(life),
            Text("as"),
            Long(copy),
        ],
        out,
    )
}

/// Puts the line of a copy that was lost.
pub fn put_lost<K: Sink>(moment: u64, copy: u32, out: &mut K) -> Result<(), Failed>
    ensures { Puts K.sight (row_text (decimal moment ∷ codes "lost" ∷ decimal copy ∷ [])) result out.old out.new }
{
    put_row(Long(moment), &[], &[Text("lost"), Number(copy)], out)
}
