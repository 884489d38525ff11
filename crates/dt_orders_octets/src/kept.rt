//! What a server stores: its numbers, its openings, and a row for each lane.
ghost use Rattle.std.specs.Prelude.{◌≡◌, ◌+◌, ◌*◌, ◌≤◌, length};
ghost use Rattle.dt_orders_octets.specs.Spelling.{known_words, maybe_known_words, meta_octets, opening_octets, row_octets};
ghost use Rattle.dt_orders_octets.specs.Reading.{is_32, is_flag, is_known_at, is_meta, is_number, is_row, known_at, maybe_known_at, meta_in, opening_at, read_if, row_in};
ghost use Rattle.dt_orders_octets.specs.Words.{spell};

use crate::codes::{state_code, state_of};
use crate::words::{Octets, small, word};
use dt_orders_model::{Known, Meta, Opening, Row};

/// How many octets a server's numbers have.
pub const META_OCTETS: usize = 32;
/// How many octets an opening has.
pub const OPENING_OCTETS: usize = 16;
/// How many octets a row has.
pub const ROW_OCTETS: usize = 40;

/// Whether a number has 32 bits at most.
pub(crate) fn is_32(number: u64) -> bool
    ensures { result ≡ is_32 number }
{
    number <= 4_294_967_295
}

/// Whether a number is 0 or 1.
pub(crate) fn is_flag(number: u64) -> bool
    ensures { result ≡ is_flag number }
{
    number <= 1
}

/// Whether a number has 63 bits at most.
pub(crate) fn is_number(number: u64) -> bool
    ensures { result ≡ is_number number }
{
    number <= 9_223_372_036_854_775_807
}

/// Writes a commit that somebody heard of.
pub(crate) fn put_known(octets: &mut Octets, known: &Known)
    requires { length octets.old + 24 ≤ 112 }
    ensures { octets.new ≡ spell octets.old (known_words known.now) }
{
    octets.put(u64::from(known.opening));
    octets.put(known.nonce);
    octets.put(known.clock);
}

/// Writes a commit that somebody heard of, or none.
pub(crate) fn put_maybe_known(octets: &mut Octets, known: &Option<Known>)
    requires { length octets.old + 32 ≤ 112 }
    ensures { octets.new ≡ spell octets.old (maybe_known_words known.now) }
{
    match known {
        None => {
            octets.put(0);
            octets.put(0);
            octets.put(0);
            octets.put(0);
        }
        Some(known) => {
            octets.put(1);
            put_known(octets, known);
        }
    }
}

/// A commit that somebody heard of.
pub(crate) fn known_at(octets: &[u8], place: usize) -> Known
    requires { 8 * place + 24 ≤ length octets.now }
    ensures { result ≡ known_at place octets.now }
{
    Known {
        opening: small(word(octets, place)),
        nonce: word(octets, place + 1),
        clock: word(octets, place + 2),
    }
}

/// A commit that somebody heard of, or none.
pub(crate) fn maybe_known_at(octets: &[u8], place: usize) -> Option<Known>
    requires { 8 * place + 32 ≤ length octets.now }
    ensures { result ≡ maybe_known_at place octets.now }
{
    if word(octets, place) == 0 {
        None
    } else {
        Some(known_at(octets, place + 1))
    }
}

/// Whether the octets spell a commit that somebody heard of, or none.
pub(crate) fn is_known_at(octets: &[u8], place: usize) -> bool
    requires { 8 * place + 32 ≤ length octets.now }
    ensures { result ≡ is_known_at place octets.now }
{
    is_flag(word(octets, place)) && is_32(word(octets, place + 1))
}

/// The octets of a server's numbers: clock, horizon, number of the last opening, its nonce.
pub fn write_meta(meta: &Meta) -> Octets
    ensures { result ≡ meta_octets meta.now }
{
    let mut octets = Octets::new();
    octets.put(meta.clock);
    octets.put(meta.horizon);
    octets.put(u64::from(meta.opening));
    octets.put(meta.nonce);
    octets
}

fn is_meta(octets: &[u8]) -> bool
    ensures { result ≡ is_meta octets.now }
{
    octets.len() == META_OCTETS
        && is_number(word(octets, 0))
        && is_number(word(octets, 1))
        && is_32(word(octets, 2))
}

/// What octets say of a server's numbers. `None` if they don't have 32 octets, or a number is too large: the
/// clock and the horizon are below 2^63.
pub fn read_meta(octets: &[u8]) -> Option<Meta>
    ensures { result ≡ read_if (is_meta octets.now) (meta_in octets.now) }
{
    if !is_meta(octets) {
        return None;
    }
    Some(Meta {
        clock: word(octets, 0),
        horizon: word(octets, 1),
        opening: small(word(octets, 2)),
        nonce: word(octets, 3),
    })
}

/// The octets of an opening: the clock of its own commit, and its nonce. None is zeros.
pub fn write_opening(opening: &Option<Opening>) -> Octets
    ensures { result ≡ opening_octets opening.now }
{
    let mut octets = Octets::new();
    match opening {
        None => {
            octets.put(0);
            octets.put(0);
        }
        Some(opening) => {
            octets.put(opening.first);
            octets.put(opening.nonce);
        }
    }
    octets
}

/// What octets say of an opening, of several that stand one behind the other. It is none if its first clock
/// is 0.
pub fn read_opening(octets: &[u8], place: usize) -> Option<Opening>
    requires { 8 * place + 16 ≤ length octets.now }
    ensures { result ≡ opening_at place octets.now }
{
    let first = word(octets, place);
    if first == 0 {
        None
    } else {
        Some(Opening {
            nonce: word(octets, place + 1),
            first,
        })
    }
}

/// The octets of a row: its state, number, tag, stamp, and the horizon that it was born at. No row is zeros.
pub fn write_row(row: &Option<Row>) -> Octets
    ensures { result ≡ row_octets row.now }
{
    let mut octets = Octets::new();
    match row {
        None => {
            octets.put(0);
            octets.put(0);
            octets.put(0);
            octets.put(0);
            octets.put(0);
        }
        Some(row) => {
            octets.put(u64::from(state_code(row.state)));
            octets.put(row.number);
            octets.put(row.tag);
            octets.put(row.stamp);
            octets.put(row.born);
        }
    }
    octets
}

fn is_row(octets: &[u8]) -> bool
    ensures { result ≡ is_row octets.now }
{
    octets.len() == ROW_OCTETS && word(octets, 0) <= 3 && is_number(word(octets, 1))
}

/// What octets say of a lane's row: inside, `None` if it has none. `None` if they don't have 40 octets, the
/// state isn't one, or the number isn't below 2^63.
pub fn read_row(octets: &[u8]) -> Option<Option<Row>>
    ensures { result ≡ read_if (is_row octets.now) (row_in octets.now) }
{
    if !is_row(octets) {
        return None;
    }
    Some(row_in(octets))
}

fn row_in(octets: &[u8]) -> Option<Row>
    requires { length octets.now ≡ 40 }
    ensures { result ≡ row_in octets.now }
{
    let code = word(octets, 0);
    if code == 0 {
        return None;
    }
    Some(Row {
        number: word(octets, 1),
        tag: word(octets, 2),
        state: state_of(code),
        stamp: word(octets, 3),
        born: word(octets, 4),
    })
}
