//! A line of a trace, read.
ghost use Rattle.std.specs.Prelude.{◌≡◌, ◌<◌, ◌≤◌, length, IfOk, IfSome};
ghost use Rattle.dt_trace.specs.Inputs.{FailedTake, Taken};
ghost use Rattle.dt_trace.specs.Lines.{ReadsAs, number_read, most_link, most_taken, reading_said, failure_said, alone_said, empty_said, octets_said, take_said, input_said, input_of, input_seen};

use dt_reports::LineFault;
use dt_text::fields::has;
use dt_text::splitting::{Words, is};
use dt_text::{is_hex, read_number};

/// The greatest number of a link.
const MOST_LINK: u64 = 255;

/// The most octets of a datagram that a take finds, for which it has room: one more than a frame has
/// at most.
pub const MOST_TAKEN: usize = 8_223;

/// What a line of a trace says.
#[derive(Clone, Copy)]
pub enum TraceLine<'a> {
    /// A reading of the clock.
    Reading(u64),
    /// A take found nothing.
    Nothing,
    /// A take found a datagram of a link. Its octets are pairs of hexadecimal digits, as they are
    /// written.
    Datagram { link: u8, hex: &'a [u8] },
    /// A take failed.
    FailedTake,
    /// The give of this number failed, or `open` where it is 0.
    Failure(u64),
}

/// A number from 0 to `most`.
fn number(most: u64, word: &[u8]) -> Result<u64, LineFault>
    ensures value { result ≡ number_read most word.now }
    ensures within { IfOk result (λ n. n ≤ most) }
{
    read_number(word, most).ok_or(LineFault::Number)
}

/// The number of a link.
fn link(word: &[u8]) -> Result<u8, LineFault>
    ensures { result ≡ number_read most_link word.now }
{
    let link = number(MOST_LINK, word)?;
    Ok(link as u8)
}

/// `@ READING`
fn reading_line<'a>(words: &Words<'a>) -> Result<TraceLine<'a>, LineFault>
    ensures { ReadsAs result (reading_said words.now) }
{
    has(2, words)?;
    let reading = number(u64::MAX, words.word(1))?;
    Ok(TraceLine::Reading(reading))
}

/// `! N`
fn failure_line<'a>(words: &Words<'a>) -> Result<TraceLine<'a>, LineFault>
    ensures { ReadsAs result (failure_said words.now) }
{
    has(2, words)?;
    let number = number(u64::MAX, words.word(1))?;
    Ok(TraceLine::Failure(number))
}

/// `< -`
fn nothing_line<'a>(words: &Words<'a>) -> Result<TraceLine<'a>, LineFault>
    ensures { ReadsAs result (alone_said (Taken None) words.now) }
{
    has(2, words)?;
    Ok(TraceLine::Nothing)
}

/// `< x`
fn failed_line<'a>(words: &Words<'a>) -> Result<TraceLine<'a>, LineFault>
    ensures { ReadsAs result (alone_said FailedTake words.now) }
{
    has(2, words)?;
    Ok(TraceLine::FailedTake)
}

/// `< L`
fn empty_line<'a>(words: &Words<'a>) -> Result<TraceLine<'a>, LineFault>
    requires { 1 < length words.now }
    ensures { ReadsAs result (empty_said words.now) }
{
    let link = link(words.word(1))?;
    Ok(TraceLine::Datagram { link, hex: &[] })
}

/// `< L HEX`
fn octets_line<'a>(words: &Words<'a>) -> Result<TraceLine<'a>, LineFault>
    ensures { ReadsAs result (octets_said words.now) }
{
    has(3, words)?;
    let link = link(words.word(1))?;
    let hex = words.word(2);
    if is_hex(hex, MOST_TAKEN as u32) {
        Ok(TraceLine::Datagram { link, hex })
    } else {
        Err(LineFault::Hex)
    }
}

/// What a take came to.
fn take_line<'a>(words: &Words<'a>) -> Result<TraceLine<'a>, LineFault>
    ensures { ReadsAs result (take_said words.now) }
{
    if words.has_fewer_than(2) {
        return Err(LineFault::Count);
    }
    let found = words.word(1);
    if is(found, "-") {
        nothing_line(words)
    } else if is(found, "x") {
        failed_line(words)
    } else if words.has_exactly(2) {
        empty_line(words)
    } else {
        octets_line(words)
    }
}

/// A line by its first word.
fn input_line<'a>(words: &Words<'a>) -> Result<TraceLine<'a>, LineFault>
    requires { 0 < length words.now }
    ensures { ReadsAs result (input_said words.now) }
{
    let name = words.word(0);
    if is(name, "@") {
        reading_line(words)
    } else if is(name, "<") {
        take_line(words)
    } else if is(name, "!") {
        failure_line(words)
    } else {
        Err(LineFault::Word)
    }
}

/// The line that the octets spell, without the line feed after it, or the fault of the first test
/// that fails; never `Flow` or `Order`. The cost is the line, and no memory is taken.
#[tactic(auto, unfolding(crate::specs::Lines::input_of))]
pub fn read_line(bytes: &[u8]) -> Result<TraceLine<'_>, LineFault>
    ensures { ReadsAs result (input_of bytes.now) }
{
    let words = Words::new(bytes);
    input_line(&words)
}
