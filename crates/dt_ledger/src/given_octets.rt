//! The octets that one call gives to a receiver, with their first place, their life and their time.
ghost use Rattle.std.specs.Prelude.{◌+◌, ◌^◌, ◌<◌, length};

use dt_items::MarkedOctets;

/// Octets that are given to a flow's receiver together, at places below 2^62.
#[derive(Clone, Copy)]
pub struct GivenOctets<'a> {
    pub payload: MarkedOctets<'a>,
    /// The first has a run mark.
    pub run: bool,
    /// The place of the first of them.
    pub place: u64,
    /// The life of the receiving station.
    pub life: u32,
    /// The moment when they are given, in ms.
    pub at: u64,
    ghost below: { place + length payload.octets.now < 2 ^ 62 },
}
