//! A slice of octets with two marks, begin and end of a message, and the item of each octet.
ghost use Rattle.std.specs.Prelude.{◌≡◌, ◌+◌, ◌<◌, ◌==◌, ◌&&◌, length, slice_index};

use crate::item::Item;

/// Octets that go together, 0 or more, with what is said of the first of them and of the last.
#[derive(Clone, Copy)]
pub struct MarkedOctets<'a> {
    pub octets: &'a [u8],
    /// A message begins with the first of them.
    pub begin: bool,
    /// A message ends with the last of them.
    pub end: bool,
}

impl MarkedOctets<'_> {
    /// The item of the octet at a place among them, 0 for the first. The first has a run mark where `run`
    /// asks for it.
    pub fn item_at(&self, place: usize, run: bool) -> Item
        requires { place < length self.now.octets.now }
        ensures { let octets = self.now.octets.now in let count = length octets in result ≡ record {
          octet = slice_index octets place;
          begin = self.now.begin && (place == 0);
          end = self.now.end && (place + 1 == count);
          run = run && (place == 0);
        } }
    {
        Item {
            octet: self.octets[place],
            begin: self.begin && place == 0,
            end: self.end && place + 1 == self.octets.len(),
            run: run && place == 0,
        }
    }
}
