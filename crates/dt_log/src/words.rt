//! The words of a log line: numbers, flows, octets and texts, and the writing of a line with spaces between them.
ghost use Rattle.std.specs.Prelude.{◌∷◌, ◌++◌, map, codes, decimal};
ghost use Rattle.dt_edges.specs.Sinks.{Puts};
ghost use Rattle.dt_log.specs.Words.{row_text};
ghost use Rattle.dt_log.specs.Wording.{word_text, after_space, after_spaces};

use crate::digits::put_hex;
use crate::flows::put_flow;
use crate::numbers::put_number;
use dt_edges::{Failed, Sink, put_all};
use dt_units::Flow;

/// A word of a line of the log.
#[derive(Clone, Copy)]
pub enum Word<'a> {
    /// A word that is written as it stands.
    Text(&'static str),
    /// A number of 32 bits in decimal digits.
    Number(u32),
    /// A number of 64 bits in decimal digits.
    Long(u64),
    /// A flow.
    Flow(Flow),
    /// Octets in hexadecimal digits.
    Hex(&'a [u8]),
    /// The number of a line, and a colon.
    Line(u64),
}

/// Puts the number of a line and a colon.
#[tactic(auto, using(dt_edges::proofs::Puts::two_parts))]
fn put_line_number<K: Sink>(n: u64, out: &mut K) -> Result<(), Failed>
    ensures { Puts K.sight (decimal n ++ codes ":") result out.old out.new }
{
    put_number(n, out)?;
    put_all(b":", out)
}

/// Puts a word.
fn put_word<K: Sink>(word: &Word<'_>, out: &mut K) -> Result<(), Failed>
    ensures { Puts K.sight (word_text word.now) result out.old out.new }
{
    match *word {
        Word::Text(text) => put_all(text.as_bytes(), out),
        Word::Number(n) => put_number(u64::from(n), out),
        Word::Long(n) => put_number(n, out),
        Word::Flow(flow) => put_flow(&flow, out),
        Word::Hex(octets) => put_hex(octets, out),
        Word::Line(n) => put_line_number(n, out),
    }
}

/// Puts a space and a word.
#[tactic(auto, using(crate::proofs::Parts::after_octet))]
fn put_spaced_word<K: Sink>(word: &Word<'_>, out: &mut K) -> Result<(), Failed>
    ensures { Puts K.sight (after_space (word_text word.now)) result out.old out.new }
{
    put_all(b" ", out)?;
    put_word(word, out)
}

/// Puts the words, each after a space.
fn put_words<K: Sink>(words: &[Word<'_>], out: &mut K) -> Result<(), Failed>
    ensures { Puts K.sight (after_spaces words.now) result out.old out.new }
{
    for word in words {
        put_spaced_word(word, out)?;
    }
    Ok(())
}

/// Puts the words, each after a space, and a line feed.
#[tactic(auto, using(dt_edges::proofs::Puts::two_parts))]
fn put_ended<K: Sink>(words: &[Word<'_>], out: &mut K) -> Result<(), Failed>
    ensures { Puts K.sight (after_spaces words.now ++ codes "\n") result out.old out.new }
{
    put_words(words, out)?;
    put_all(b"\n", out)
}

/// Puts some words and more words, each after a space, and a line feed.
#[tactic(auto, using(dt_edges::proofs::Puts::two_parts))]
fn put_following<K: Sink>(some: &[Word<'_>], more: &[Word<'_>], out: &mut K) -> Result<(), Failed>
    ensures { Puts K.sight (after_spaces some.now ++ (after_spaces more.now ++ codes "\n")) result out.old out.new }
{
    put_words(some, out)?;
    put_ended(more, out)
}

/// Puts a line: a first word, some words after it and more words, with one space between two of
/// them, and a line feed.
pub fn put_row<K: Sink>(
    first: Word<'_>,
    some: &[Word<'_>],
    more: &[Word<'_>],
    out: &mut K,
) -> Result<(), Failed>
    ensures { Puts K.sight (row_text (word_text first.entry ∷ map word_text some.now ++ map word_text more.now)) result out.old out.new }
{
    put_word(&first, out)?;
    put_following(some, more, out)
}
