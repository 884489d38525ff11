//! The lines of faults: a refused line of an input, octets that don't read, and a refused send.
ghost use Rattle.std.specs.Prelude.{◌≡◌, [], ◌∷◌, map, codes, decimal};
ghost use Rattle.dt_edges.specs.Sinks.{Puts};
ghost use Rattle.dt_log.specs.Words.{row_text, flow_text};
ghost use Rattle.dt_log.specs.FaultWords.{field_text, line_fault_text, setup_fault_words, step_fault_words, fault_words, layout_fault_words, refusal_words};
ghost use Rattle.dt_log.specs.LogLines.{at_node, at_line};
ghost use Rattle.dt_log.specs.Wording.{word_text};

use crate::line_forms::put_told;
use crate::words::{Word, put_row};
use dt_edges::{Failed, Sink};
use dt_layout::LayoutFault;
use dt_reports::{Fault, LineFault, LogLine, Refusal, SetupFault, StepFault};
use dt_units::{Field, Flow};

/// The name of a parameter.
fn name_of(field: Field) -> &'static str
    ensures { result.now ≡ field_text field }
{
    match field {
        Field::Mpl => "mpl",
        Field::R => "r",
        Field::A => "a",
        Field::Rto => "rto",
        Field::Probe => "probe",
        Field::Seg => "seg",
        Field::Cap => "cap",
        Field::Rcap => "rcap",
        Field::Window => "window",
        Field::RunLimit => "run_limit",
    }
}

/// The text of a line's fault: one word.
pub fn line_fault_text(fault: LineFault) -> &'static str
    ensures { result.now ≡ line_fault_text fault }
{
    match fault {
        LineFault::Word => "word",
        LineFault::Count => "count",
        LineFault::Number => "number",
        LineFault::Flow => "flow",
        LineFault::Hex => "hex",
        LineFault::Order => "order",
    }
}

/// The words where there was no memory.
const NO_MEMORY: [Word<'static>; 3] = [Word::Text("out"), Word::Text("of"), Word::Text("memory")];

/// Puts what is reported of a line of an input, which has this number: `line N:` and these words, with
/// one space between two of them, and a line feed.
///
/// `Ok` has appended exactly that. `Failed` has appended a first part of it, and comes only where the
/// sink's count of faults rose. Takes no memory. The cost is that of what is put.
pub fn put_at_line<K: Sink>(line: u64, words: &[Word<'_>], out: &mut K) -> Result<(), Failed>
    ensures { Puts K.sight (row_text (at_line line (map word_text words.now))) result out.old out.new }
{
    put_row(Word::Text("line"), &[Word::Line(line)], words, out)
}

/// The same for a name and a number.
fn put_refused_number<K: Sink>(
    line: u64,
    name: &'static str,
    n: u32,
    out: &mut K,
) -> Result<(), Failed>
    ensures { Puts K.sight (row_text (at_line line (name.now ∷ decimal n ∷ []))) result out.old out.new }
{
    put_at_line(line, &[Word::Text(name), Word::Number(n)], out)
}

/// Puts the line of a line that a setup refuses: one row a fault.
fn put_setup_fault<K: Sink>(line: u64, fault: SetupFault, out: &mut K) -> Result<(), Failed>
    ensures { Puts K.sight (row_text (at_line line (setup_fault_words fault))) result out.old out.new }
{
    match fault {
        SetupFault::Twice { n } => put_refused_number(line, "twice", n, out),
        SetupFault::Unknown { n } => put_refused_number(line, "unknown", n, out),
        SetupFault::Stray { n } => put_refused_number(line, "stray", n, out),
        SetupFault::NoMemory => put_at_line(line, &NO_MEMORY, out),
    }
}

/// Puts the line of an event that names a station or a copy that isn't there.
fn put_missing<K: Sink>(line: u64, what: &'static str, n: u32, out: &mut K) -> Result<(), Failed>
    ensures { Puts K.sight (row_text (at_line line (codes "no" ∷ what.now ∷ decimal n ∷ []))) result out.old out.new }
{
    put_at_line(
        line,
        &[Word::Text("no"), Word::Text(what), Word::Number(n)],
        out,
    )
}

/// Puts the line of an event that is refused: one row a fault.
fn put_step_fault<K: Sink>(line: u64, fault: StepFault, out: &mut K) -> Result<(), Failed>
    ensures { Puts K.sight (row_text (at_line line (step_fault_words fault))) result out.old out.new }
{
    match fault {
        StepFault::BadFlow => put_at_line(line, &[Word::Text("bad"), Word::Text("flow")], out),
        StepFault::NoStation { n } => put_missing(line, "station", n, out),
        StepFault::NoCopy { n } => put_missing(line, "copy", n, out),
        StepFault::Lost { n } => put_refused_number(line, "lost", n, out),
        StepFault::TooLate { held, charge } => put_at_line(
            line,
            &[
                Word::Text("too"),
                Word::Text("late"),
                Word::Long(held),
                Word::Number(charge),
            ],
            out,
        ),
        StepFault::NoMemory => put_at_line(line, &NO_MEMORY, out),
    }
}

/// Puts the line of a refused line of an input, which has this number: one row a fault.
pub(crate) fn put_fault<K: Sink>(line: u64, fault: Fault, out: &mut K) -> Result<(), Failed>
    ensures { Puts K.sight (row_text (at_line line (fault_words fault))) result out.old out.new }
{
    match fault {
        Fault::Line(fault) => put_at_line(line, &[Word::Text(line_fault_text(fault))], out),
        Fault::Param(fault) => put_at_line(
            line,
            &[
                Word::Text("param"),
                Word::Text(name_of(fault.field)),
                Word::Number(fault.value),
            ],
            out,
        ),
        Fault::Setup(fault) => put_setup_fault(line, fault, out),
        Fault::Step(fault) => put_step_fault(line, fault, out),
    }
}

/// Puts the line of octets that don't read, told with a name and a number.
fn put_bad_number<K: Sink>(
    line: &LogLine<'_>,
    name: &'static str,
    n: u64,
    out: &mut K,
) -> Result<(), Failed>
    ensures { Puts K.sight (row_text (at_node line.now.moment line.now.node (codes "bad" ∷ name.now ∷ decimal n ∷ []))) result out.old out.new }
{
    put_told(
        line,
        &[Word::Text("bad"), Word::Text(name), Word::Long(n)],
        out,
    )
}

/// Puts the line of octets that don't read: one row a fault.
pub(crate) fn put_bad<K: Sink>(
    line: &LogLine<'_>,
    fault: LayoutFault,
    out: &mut K,
) -> Result<(), Failed>
    ensures { Puts K.sight (row_text (at_node line.now.moment line.now.node (codes "bad" ∷ layout_fault_words fault))) result out.old out.new }
{
    match fault {
        LayoutFault::Short { len } => put_bad_number(line, "short", len as u64, out),
        LayoutFault::Version { octet } => put_bad_number(line, "version", u64::from(octet), out),
        LayoutFault::Length { told, there } => put_told(
            line,
            &[
                Word::Text("bad"),
                Word::Text("length"),
                Word::Long(told as u64),
                Word::Long(there as u64),
            ],
            out,
        ),
        LayoutFault::Dead => put_told(line, &[Word::Text("bad"), Word::Text("dead")], out),
        LayoutFault::Protocol { octet } => put_bad_number(line, "protocol", u64::from(octet), out),
        LayoutFault::Kind { octet } => put_bad_number(line, "kind", u64::from(octet), out),
        LayoutFault::Flags { octet } => put_bad_number(line, "flags", u64::from(octet), out),
        LayoutFault::Window { value } => put_bad_number(line, "window", u64::from(value), out),
        LayoutFault::Size { len } => put_bad_number(line, "size", len as u64, out),
    }
}

/// Puts the line of a send that was refused.
pub(crate) fn put_refusal<K: Sink>(
    line: &LogLine<'_>,
    flow: Flow,
    refusal: Refusal,
    out: &mut K,
) -> Result<(), Failed>
    ensures { Puts K.sight (row_text (at_node line.now.moment line.now.node (codes "refused" ∷ flow_text flow ∷ refusal_words refusal))) result out.old out.new }
{
    let (name, n) = match refusal {
        Refusal::Quiet { until } => ("quiet", until),
        Refusal::Full { free } => ("full", u64::from(free)),
    };
    put_told(
        line,
        &[
            Word::Text("refused"),
            Word::Flow(flow),
            Word::Text(name),
            Word::Long(n),
        ],
        out,
    )
}
