//! The words after the first word of a line: what each may be, and its fault where it isn't that.
ghost use Rattle.std.specs.Prelude.{◌≡◌, ◌==◌, ◌<◌, ◌≤◌, length, IfOk, OnOk, MatchResult, if◌then◌else◌};
ghost use Rattle.dt_text.specs.WordKinds.{value_read, NumberWord, FlowWord, AddressWord, HexWord, MarksWord, AgainWord};
ghost use Rattle.dt_text.specs.Rows.{any_number, called_octets, link_number, link_time, read_count, sent_octets, shelf_count};

use crate::endpoints::{read_address, read_flow};
use crate::hexadecimal::is_hex;
use crate::numerals::read_number;
use crate::splitting::{MOST_WORDS, Words, is};
use dt_edges::Address;
use dt_reports::LineFault;
use dt_units::Flow;
use dt_units::limits::{DAY, MOST_OCTETS};

/// The greatest number of a link.
const MOST_LINK: u32 = 255;

/// The most pairs of hexadecimal digits of a call: its message has its number before them.
const MOST_PAYLOAD: u32 = 65_528;

/// The most packets on a shelf.
const MOST_SHELVED: u32 = 64;

/// Whether a line has as many words as that.
pub fn has(count: usize, words: &Words<'_>) -> Result<(), LineFault>
    requires { count ≤ MOST_WORDS }
    ensures value { result ≡ (if length words.now == count then Ok tt else Err LineFault.Count) }
    ensures count { OnOk result (length words.now ≡ count) }
{
    if words.has_exactly(count) {
        Ok(())
    } else {
        Err(LineFault::Count)
    }
}

/// A number from `least` to `most`.
fn number_from(least: u32, most: u32, word: &[u8]) -> Result<u32, LineFault>
    ensures value { result ≡ value_read (NumberWord least most) word.now }
    ensures within { IfOk result (λ n. n ≤ most) }
{
    match read_number(word, u64::from(most)) {
        Some(n) if n >= u64::from(least) => Ok(n as u32),
        _ => Err(LineFault::Number),
    }
}

/// A number of 32 bits.
pub fn number(word: &[u8]) -> Result<u32, LineFault>
    ensures { result ≡ value_read any_number word.now }
{
    number_from(0, u32::MAX, word)
}

/// The number of a link, 0 to 255.
pub fn link(word: &[u8]) -> Result<u16, LineFault>
    ensures { result ≡ value_read link_number word.now }
{
    match number_from(0, MOST_LINK, word) {
        Ok(link) => Ok(link as u16),
        Err(fault) => Err(fault),
    }
}

/// A charge or a pace, 0 to 86,400,000 ms.
pub fn day(word: &[u8]) -> Result<u32, LineFault>
    ensures { result ≡ value_read link_time word.now }
{
    number_from(0, DAY, word)
}

/// How many octets are read at most, 1 to 65,536.
pub fn max(word: &[u8]) -> Result<u32, LineFault>
    ensures { result ≡ value_read read_count word.now }
{
    number_from(1, MOST_OCTETS, word)
}

/// How many packets a shelf holds at most, 1 to 64.
pub fn room(word: &[u8]) -> Result<u32, LineFault>
    ensures { result ≡ value_read shelf_count word.now }
{
    number_from(1, MOST_SHELVED, word)
}

/// A flow.
pub fn flow(word: &[u8]) -> Result<Flow, LineFault>
    ensures { result ≡ value_read FlowWord word.now }
{
    read_flow(word).ok_or(LineFault::Flow)
}

/// An IPv4 address and a port.
pub fn address(word: &[u8]) -> Result<Address, LineFault>
    ensures { result ≡ value_read AddressWord word.now }
{
    read_address(word).ok_or(LineFault::Number)
}

/// 1 to `most` pairs of hexadecimal digits, as they are written.
fn hex_to(most: u32, word: &[u8]) -> Result<&[u8], LineFault>
    ensures { MatchResult result (λ hex. value_read (HexWord most) word.now ≡ Ok hex.now) (λ fault. value_read (HexWord most) word.now ≡ Err fault) }
{
    if is_hex(word, most) {
        Ok(word)
    } else {
        Err(LineFault::Hex)
    }
}

/// 1 to 65,536 pairs of hexadecimal digits, as they are written.
pub fn hex(word: &[u8]) -> Result<&[u8], LineFault>
    ensures { MatchResult result (λ hex. value_read sent_octets word.now ≡ Ok hex.now) (λ fault. value_read sent_octets word.now ≡ Err fault) }
{
    hex_to(MOST_OCTETS, word)
}

/// 1 to 65,528 pairs of hexadecimal digits, as they are written.
pub fn payload(word: &[u8]) -> Result<&[u8], LineFault>
    ensures { MatchResult result (λ hex. value_read called_octets word.now ≡ Ok hex.now) (λ fault. value_read called_octets word.now ≡ Err fault) }
{
    hex_to(MOST_PAYLOAD, word)
}

/// Whether a message begins with the octets, and whether it ends with them: `be`, `b`, `e`, `-`.
pub fn marks(word: &[u8]) -> Result<(bool, bool), LineFault>
    ensures { result ≡ value_read MarksWord word.now }
{
    if is(word, "be") {
        Ok((true, true))
    } else if is(word, "b") {
        Ok((true, false))
    } else if is(word, "e") {
        Ok((false, true))
    } else if is(word, "-") {
        Ok((false, false))
    } else {
        Err(LineFault::Word)
    }
}

/// Whether a node begins again after an earlier life: `first` or `again`.
pub fn again(word: &[u8]) -> Result<bool, LineFault>
    ensures { result ≡ value_read AgainWord word.now }
{
    if is(word, "first") {
        Ok(false)
    } else if is(word, "again") {
        Ok(true)
    } else {
        Err(LineFault::Word)
    }
}
