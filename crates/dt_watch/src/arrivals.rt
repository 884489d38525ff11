//! What is known of a datagram that came, and of the openings of a peer.
use crate::readings::Reading;

/// A datagram that came, as its trailer describes it.
#[derive(Clone, Copy)]
pub struct Arrival {
    /// The first octets of the fingerprint of its sender's parameters.
    pub fingerprint: u32,
    /// The name of its sender's opening, which no other opening has.
    pub opening: u64,
    /// The reading of the receiver's clock that had passed when it was made: 0 where none is known.
    pub sure: Reading,
    /// The reading of the receiver's clock when it came.
    pub came: Reading,
    /// Whether it carries a frame.
    pub is_frame: bool,
}

/// An opening of a peer that was proved: a datagram of it had a reading of this clock.
#[derive(Clone, Copy)]
pub struct Opening {
    pub name: u64,
    /// The latest reading that a datagram of it had.
    pub proved: Reading,
    /// When the last frame of it was taken.
    pub last_frame: Option<Reading>,
    /// When the last frame of an opening before it was taken.
    pub former_frame: Option<Reading>,
}

/// What becomes of a datagram.
#[derive(Clone, Copy, PartialEq, Eq)]
pub enum Judgement {
    /// It is of the present opening, and can be taken once its age is known.
    Present,
    /// It is of an opening that isn't proved. It can be kept while its sender is asked.
    Unproved,
    /// It is of an opening before the present one, and is dropped.
    Former,
    /// It is of the present opening, but came too soon after the last frame of the one before, and is
    /// dropped.
    Early,
    /// Its sender has other parameters. It is dropped.
    OtherParameters,
}
