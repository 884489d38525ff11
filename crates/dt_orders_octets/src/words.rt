//! Numbers as octets, eight octets each, the highest first.
ghost use Rattle.std.specs.Prelude.{◌≡◌, ◌+◌, ◌*◌, ◌≤◌, length, [], ◌++◌};
ghost use Rattle.dt_orders_octets.specs.Words.{eight, small, word_at};

use std::marker::Model;

/// How many octets the longest of all that is written has.
pub const MOST_OCTETS: usize = 112;

/// At most 112 octets that were written, held in place. A contract sees them as a list.
#[derive(Drop)]
pub struct Octets {
    octets: [u8; MOST_OCTETS],
    len: usize,
}

impl Model for Octets {
    ghost use Rattle.std.specs.Prelude.{ℕ, ◌≤◌, List, take};
    ghost use Rattle.dt_orders_octets.specs.declared.words.TheConstants.{MOST_OCTETS};

    ghost Value = { List ℕ };

    ghost view = { λ f. take f.len f.octets };

    ghost invariant = { λ f. f.len ≤ MOST_OCTETS };
}

impl Octets {
    /// No octets.
    pub fn new() -> Octets
        ensures { result ≡ [] }
    {
        Octets {
            octets: [0; MOST_OCTETS],
            len: 0,
        }
    }

    /// What was written.
    pub fn as_slice(&self) -> &[u8]
        ensures { result.now ≡ self.now }
    {
        &self.octets[..self.len]
    }

    /// Writes a number behind what is there.
    pub fn put(&mut self, word: u64)
        requires { length self.old + 8 ≤ 112 }
        ensures { self.new ≡ self.old ++ eight word }
    {
        let end = self.len + 8;
        self.octets[self.len..end].copy_from_slice(&word.to_be_bytes());
        self.len = end;
    }
}

/// The number of this place.
pub fn word(octets: &[u8], place: usize) -> u64
    requires { 8 * place + 8 ≤ length octets.now }
    ensures { result ≡ word_at place octets.now }
{
    let at = 8 * place;
    u64::from_be_bytes([
        octets[at],
        octets[at + 1],
        octets[at + 2],
        octets[at + 3],
        octets[at + 4],
        octets[at + 5],
        octets[at + 6],
        octets[at + 7],
    ])
}

/// A number as one of 32 bits, the greatest one if it is greater.
pub fn small(word: u64) -> u32
    ensures { result ≡ small word }
{
    word.min(4_294_967_295) as u32
}
