//! Which fact a line of a log states.
ghost use Rattle.std.specs.Prelude.{◌≡◌, ◌≤◌, length};
ghost use Rattle.dt_audit.specs.Facts.{accepted_said, fact_of, is_told, named_fact, range_said, restarted_said, sent_said, settled_said, took_said, uncertain_said};

use crate::facts::Fact;
use crate::words::{letters, run};
use dt_reports::LineFault;
use dt_text::fields::{flow, has, number};
use dt_text::read_number;
use dt_text::splitting::{Words, is};
use dt_units::Flow;

/// `MOMENT NODE took FLOW COUNT`
fn took(words: &Words<'_>) -> Result<Fact, LineFault>
    ensures { result ≡ took_said words.now }
{
    has(5, words)?;
    let flow = flow(words.word(3))?;
    let count = number(words.word(4))?;
    Ok(Fact::Took { flow, count })
}

/// `FLOW NUMBER LENGTH` after the name, in a line of seven words.
fn range(words: &Words<'_>) -> Result<(Flow, u32, u32), LineFault>
    ensures { result ≡ range_said words.now }
{
    has(7, words)?;
    let flow = flow(words.word(3))?;
    let number_of_first = number(words.word(4))?;
    let length = number(words.word(5))?;
    Ok((flow, number_of_first, length))
}

/// `MOMENT NODE sent FLOW NUMBER LENGTH LETTERS`
fn sent(words: &Words<'_>) -> Result<Fact, LineFault>
    ensures { result ≡ sent_said words.now }
{
    let (flow, number, length) = range(words)?;
    letters(words.word(6))?;
    Ok(Fact::Sent {
        flow,
        number,
        length,
    })
}

/// `MOMENT NODE settled FLOW COUNT WINDOW`
fn settled(words: &Words<'_>) -> Result<Fact, LineFault>
    ensures { result ≡ settled_said words.now }
{
    has(6, words)?;
    let flow = flow(words.word(3))?;
    let count = number(words.word(4))?;
    number(words.word(5))?;
    Ok(Fact::Settled { flow, count })
}

/// `MOMENT NODE uncertain FLOW COUNT`
fn uncertain(words: &Words<'_>) -> Result<Fact, LineFault>
    ensures { result ≡ uncertain_said words.now }
{
    has(5, words)?;
    let flow = flow(words.word(3))?;
    let count = number(words.word(4))?;
    Ok(Fact::Uncertain { flow, count })
}

/// `MOMENT NODE accepted FLOW NUMBER LENGTH run`, or `on` in place of `run`
fn accepted(words: &Words<'_>) -> Result<Fact, LineFault>
    ensures { result ≡ accepted_said words.now }
{
    let (flow, number, length) = range(words)?;
    let run = run(words.word(6))?;
    Ok(Fact::Accepted {
        flow,
        number,
        length,
        run,
    })
}

/// `MOMENT NODE restarted LIFE`
fn restarted(words: &Words<'_>) -> Result<Fact, LineFault>
    requires { 3 ≤ length words.now }
    ensures { result ≡ restarted_said words.now }
{
    has(4, words)?;
    let node = number(words.word(1))?;
    let life = number(words.word(3))?;
    Ok(Fact::Restarted { node, life })
}

/// Whether a node reports the line: it begins with a moment and the number of a node.
fn is_told(words: &Words<'_>) -> bool
    requires { 3 ≤ length words.now }
    ensures { result ≡ is_told words.now }
{
    read_number(words.word(0), u64::MAX).is_some()
        && read_number(words.word(1), u64::from(u32::MAX)).is_some()
}

/// What a line says that a node reports, by its third word.
fn named(words: &Words<'_>) -> Result<Fact, LineFault>
    requires { 3 ≤ length words.now }
    ensures { result ≡ named_fact words.now }
{
    let name = words.word(2);
    if is(name, "took") {
        took(words)
    } else if is(name, "sent") {
        sent(words)
    } else if is(name, "settled") {
        settled(words)
    } else if is(name, "uncertain") {
        uncertain(words)
    } else if is(name, "accepted") {
        accepted(words)
    } else if is(name, "restarted") {
        restarted(words)
    } else {
        Ok(Fact::Other)
    }
}

/// What a line of a log says of octets and of lives, without the line feed after it. A line states a
/// fact where its first word is a moment, which is a number of 64 bits, its second word is the number
/// of a node, and its third word is `took`, `sent`, `settled`, `uncertain`, `accepted` or
/// `restarted`; every other line is [`Fact::Other`]. A line that states a fact and isn't written as
/// the log writes it has its first fault: [`LineFault::Count`] for the number of its words, and then
/// that of the first wrong word from the left, which is `Flow`, `Number`, or `Word` for letters and
/// for `run`; never `Hex` or `Order`. The cost is the line, and no memory is taken.
#[tactic(auto, unfolding(crate::specs::Facts::fact_of))]
pub fn read_log(bytes: &[u8]) -> Result<Fact, LineFault>
    ensures { result ≡ fact_of bytes.now }
{
    let words = Words::new(bytes);
    if words.has_fewer_than(3) {
        return Ok(Fact::Other);
    }
    if is_told(&words) {
        named(&words)
    } else {
        Ok(Fact::Other)
    }
}
