//! Which opening of a peer is the present one.
ghost use Rattle.std.specs.Prelude.{◌≡◌, None};
ghost use Rattle.dt_watch.specs.Openings.{is_early, judgement_by, judgement_of, later_of, newcomer, opened, opening_in, openings_after};

use crate::arrivals::{Arrival, Judgement, Opening};
use crate::readings::Reading;

/// The present opening of a peer: the one that proved, by a reading of this clock that it had passed, that
/// it is the latest.
#[derive(Clone, Copy)]
pub struct Openings {
    /// The first octets of the fingerprint of this end's parameters.
    pub fingerprint: u32,
    /// How long after the last frame of an opening no frame of the next one is taken: quiet less mpl.
    pub gap: Reading,
    /// The grain of the clocks, in microseconds.
    pub grain: u32,
    pub present: Option<Opening>,
}

impl Openings {
    /// No opening is known yet.
    pub fn new(fingerprint: u32, gap: Reading, grain: u32) -> Openings
        ensures fingerprint { result.fingerprint ≡ fingerprint }
        ensures gap { result.gap ≡ gap }
        ensures grain { result.grain ≡ grain }
        ensures present { result.present ≡ None }
    {
        Openings {
            fingerprint,
            gap,
            grain,
            present: None,
        }
    }

    /// Judges a datagram. An opening becomes the present one where its datagram had a reading that is later,
    /// by more than the grain, than all that the present one had. A datagram of other parameters, of a
    /// former opening or of one that isn't proved changes nothing.
    pub fn judge(&mut self, arrival: &Arrival) -> Judgement
        ensures judgement { result ≡ judgement_of self.old arrival.now }
        ensures after { self.new ≡ openings_after self.old arrival.now }
    {
        if self.fingerprint != arrival.fingerprint {
            return Judgement::OtherParameters;
        }
        let opening = self.opening_of(arrival);
        if let Some(opening) = opening {
            self.present = Some(opened(self.gap, &opening, arrival));
        }
        judgement_by(self.gap, &opening, arrival)
    }

    /// The opening that a datagram is of, where it is the present one or becomes it.
    fn opening_of(&self, arrival: &Arrival) -> Option<Opening>
        ensures { result ≡ opening_in self.now.grain self.now.present arrival.now }
    {
        match &self.present {
            Some(present) if present.name == arrival.opening => Some(*present),
            present => newcomer(self.grain, present, arrival),
        }
    }
}

/// The opening of a datagram that isn't of the present one, where it becomes the present one.
fn newcomer(grain: u32, present: &Option<Opening>, arrival: &Arrival) -> Option<Opening>
    ensures { result ≡ newcomer grain present.now arrival.now }
{
    let former_frame = match present {
        Some(present) => {
            if arrival.sure.micros <= present.proved.micros + u64::from(grain) {
                return None;
            }
            present.last_frame.or(present.former_frame)
        }
        None => {
            if arrival.sure.micros == 0 {
                return None;
            }
            None
        }
    };
    Some(Opening {
        name: arrival.opening,
        proved: arrival.sure,
        last_frame: None,
        former_frame,
    })
}

/// Whether a frame is taken too soon after the last frame of the opening before.
fn is_early(gap: Reading, opening: &Opening, arrival: &Arrival) -> bool
    ensures { result ≡ is_early gap.micros opening.now arrival.now }
{
    match opening.former_frame {
        Some(last) => arrival.is_frame && arrival.came.micros < last.micros + gap.micros,
        None => false,
    }
}

/// The opening after a datagram of it.
fn opened(gap: Reading, opening: &Opening, arrival: &Arrival) -> Opening
    ensures { result ≡ opened gap.micros opening.now arrival.now }
{
    let mut after = *opening;
    after.proved = later_of(opening.proved, arrival.sure);
    if arrival.is_frame && !is_early(gap, opening, arrival) {
        after.last_frame = Some(arrival.came);
    }
    after
}

/// The later of two readings.
fn later_of(one: Reading, other: Reading) -> Reading
    ensures { result ≡ later_of one other }
{
    if one.micros < other.micros {
        other
    } else {
        one
    }
}

/// The judgement, by the opening that the datagram is of.
fn judgement_by(gap: Reading, opening: &Option<Opening>, arrival: &Arrival) -> Judgement
    ensures { result ≡ judgement_by gap.micros opening.now arrival.now }
{
    match opening {
        Some(opening) => {
            if is_early(gap, opening, arrival) {
                Judgement::Early
            } else {
                Judgement::Present
            }
        }
        None => {
            if arrival.sure.micros == 0 {
                Judgement::Unproved
            } else {
                Judgement::Former
            }
        }
    }
}
