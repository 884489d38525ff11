//! What C hands to a watch.
ghost use Rattle.std.specs.Prelude.{◌≡◌, true};
ghost use Rattle.dt_c.specs.Watching.{SameArrival, SamePassage, is_arrival, is_passage, is_reading, judgement_code};

use dt_watch::{Arrival, Judgement, Passage, Reading};
use std::mem::size_of;

/// How a watch of a peer begins.
#[repr(C)]
#[derive(Clone, Copy)]
pub struct WatchOptions {
    pub size: u32,
    /// The first four octets of the fingerprint of the parameters.
    pub fingerprint: u32,
    /// The reading, and for how long after the last frame of an opening none of the next one is taken, in
    /// microseconds.
    pub at: u64,
    pub gap: u64,
    /// The most octets that may be under way to the peer.
    pub most: u64,
    /// How far two clocks go apart: parts in a million, and microseconds.
    pub drift: u32,
    pub grain: u32,
    /// Octets of a segment.
    pub segment: u32,
    /// 0.
    pub reserved: u32,
}

/// How many octets the options have that say their own size.
pub const WATCH_OPTIONS_SIZE: u32 = 48;

const _: () = prove!(size_of::<WatchOptions>() == WATCH_OPTIONS_SIZE as usize);

/// The readings of a datagram, in microseconds, as [`Passage`] has them.
#[repr(C)]
#[derive(Clone, Copy)]
pub struct CPassage {
    pub made: u64,
    pub sure: u64,
    pub came: u64,
}

/// A datagram as its trailer describes it, as [`Arrival`] has it.
#[repr(C)]
#[derive(Clone, Copy)]
pub struct CArrival {
    pub opening: u64,
    pub sure: u64,
    pub came: u64,
    pub fingerprint: u32,
    /// 0 where it carries no frame.
    pub is_frame: u32,
}

/// The datagram is of the present opening.
pub const PRESENT: u8 = 32;
/// It is of an opening that isn't proved.
pub const UNPROVED: u8 = 33;
/// It is of an opening before the present one.
pub const FORMER: u8 = 34;
/// It is of the present opening, and came too soon after the one before.
pub const EARLY: u8 = 35;
/// Its sender has other parameters.
pub const OTHER_PARAMETERS: u8 = 36;

/// The status that says a judgement.
pub fn judgement_code(judgement: Judgement) -> u8
    ensures { result ≡ judgement_code judgement }
{
    match judgement {
        Judgement::Present => PRESENT,
        Judgement::Unproved => UNPROVED,
        Judgement::Former => FORMER,
        Judgement::Early => EARLY,
        Judgement::OtherParameters => OTHER_PARAMETERS,
    }
}

/// Whether a number is a reading of a clock: below 2^48.
pub fn is_reading(micros: u64) -> bool
    ensures { result ≡ is_reading micros }
{
    micros < 1 << 48
}

impl CPassage {
    pub fn is_fit(&self) -> bool
        ensures { result ≡ is_passage self.now }
    {
        is_reading(self.made) && is_reading(self.sure) && is_reading(self.came)
    }

    pub fn passage(&self) -> Passage
        requires { is_passage self.now ≡ true }
        ensures { SamePassage result self.now }
    {
        Passage {
            made: Reading { micros: self.made },
            sure: Reading { micros: self.sure },
            came: Reading { micros: self.came },
        }
    }
}

impl CArrival {
    pub fn is_fit(&self) -> bool
        ensures { result ≡ is_arrival self.now }
    {
        is_reading(self.sure) && is_reading(self.came)
    }

    pub fn arrival(&self) -> Arrival
        requires { is_arrival self.now ≡ true }
        ensures { SameArrival result self.now }
    {
        Arrival {
            fingerprint: self.fingerprint,
            opening: self.opening,
            sure: Reading { micros: self.sure },
            came: Reading { micros: self.came },
            is_frame: self.is_frame != 0,
        }
    }
}
