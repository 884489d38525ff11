//! The words of a line.
ghost use Rattle.std.specs.Prelude.{◌≡◌, ◌<◌, ◌≤◌, ◌↔◌, length, option_map, IsTrue, position, ◌==◌, ◌+◌};
ghost use Rattle.std.specs.Str.{bytes_eq};
ghost use Rattle.dt_text.specs.Splitting.{cut, words, word};

use std::marker::Model;

/// The most words that a line has: `params` and eleven numbers.
pub const MOST_WORDS: usize = 12;

/// The place of the first of these octets.
fn place_of(octet: u8, text: &[u8]) -> Option<usize>
    ensures { result ≡ position (λ x. x == octet) text.now }
{
    text.iter().position(|x| *x == octet)
}

/// What stands before the first of these octets, and what stands after it. It is `None` exactly
/// where there is none of them. The cost is the part before it.
pub fn cut(octet: u8, text: &[u8]) -> Option<(&[u8], &[u8])>
    ensures { option_map (λ parts. (parts.0.now, parts.1.now)) result ≡ cut octet text.now }
{
    let place = place_of(octet, text)?;
    Some((&text[..place], &text[place + 1..]))
}

/// Whether a word is this text.
pub fn is(word: &[u8], text: &str) -> bool
    ensures { result ≡ bytes_eq word.now text.now }
{
    word == text.as_bytes()
}

/// The words of a line: what stands between single spaces. A contract sees them as a list. Only the
/// first [`MOST_WORDS`] of them are kept, and no more are counted than one above that.
#[derive(Drop)]
pub struct Words<'a> {
    line: &'a [u8],
    kept: [&'a [u8]; MOST_WORDS],
    len: usize,
}

impl<'a> Model for Words<'a> {
    ghost use Rattle.std.specs.Prelude.{◌≡◌, ◌<◌, ◌+◌, ℕ, List, length, min, map};
    ghost use Rattle.dt_text.specs.Splitting.{words, word};
    ghost use Rattle.dt_text.specs.declared.splitting.TheConstants.{MOST_WORDS};

    ghost Value = { List (List ℕ) };

    ghost view = { λ w. words w.line.now };

    ghost invariant = { λ w. (w.len ≡ min (MOST_WORDS + 1) (length (words w.line.now))) × ((k : ℕ) → k < MOST_WORDS → k < w.len → word k (map (λ kept. kept.now) w.kept) ≡ word k (words w.line.now)) };
}

impl<'a> Words<'a> {
    /// The words of a line. The cost is the line up to the space after the last word that is
    /// kept.
    pub fn new(line: &'a [u8]) -> Self
        ensures { result ≡ words line.now }
    {
        let mut kept = [line; MOST_WORDS];
        let mut rest = line;
        for len in 0..MOST_WORDS {
            match cut(b' ', rest) {
                Some((first, more)) => {
                    kept[len] = first;
                    rest = more;
                }
                None => {
                    kept[len] = rest;
                    return Words {
                        line,
                        kept,
                        len: len + 1,
                    };
                }
            }
        }
        Words {
            line,
            kept,
            len: MOST_WORDS + 1,
        }
    }

    /// Whether there are as many words as that, which are at most [`MOST_WORDS`].
    pub fn has_exactly(&self, count: usize) -> bool
        requires { count ≤ MOST_WORDS }
        ensures { IsTrue result ↔ (length self.now ≡ count) }
    {
        self.len == count
    }

    /// Whether there are fewer words than that, which are at most [`MOST_WORDS`].
    pub fn has_fewer_than(&self, count: usize) -> bool
        requires { count ≤ MOST_WORDS }
        ensures { IsTrue result ↔ (length self.now < count) }
    {
        self.len < count
    }

    /// The word at a place, counted from 0.
    pub fn word(&self, place: usize) -> &'a [u8]
        requires there { place < length self.now }
        requires kept { place < MOST_WORDS }
        ensures { result.now ≡ word place self.now }
    {
        self.kept[place]
    }
}
