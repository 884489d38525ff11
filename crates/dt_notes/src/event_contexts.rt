//! An event at a station.
ghost use Rattle.std.specs.Prelude.{◌≤◌};
ghost use Rattle.dt_notes.specs.Moments.{most_now};

use dt_items::MarkedOctets;
use dt_units::Rules;

/// What an event brings beyond what is reported: the octets of a send or of a data packet, and the
/// packet's place.
#[derive(Clone, Copy)]
pub struct Brought<'a> {
    pub octets: MarkedOctets<'a>,
    pub place: u64,
}

/// An event at a station, at a moment of the world, in ms: 0 to 2^61.
#[derive(Drop)]
pub struct EventContext<'a> {
    pub rules: &'a Rules,
    pub now: u64,
    pub node: u32,
    /// The station's life number.
    pub life: u32,
    pub brought: Brought<'a>,
    ghost timely: { now ≤ most_now },
}
