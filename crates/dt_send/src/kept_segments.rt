//! The compact form of a sent segment in the ring of a send record: 24 octets a segment.
ghost use Rattle.std.specs.Prelude.{◌≡◌, ◌+◌, ◌^◌, ◌<◌, ◌≤◌};

use crate::sent_segments::SentSegment;
use std::marker::Model;
use std::mem::size_of;

/// A segment that went out, as the ring of a record keeps it. A contract sees the segment.
///
/// The time between its first transmission and its last one is at most a day, so 32 bits keep it.
#[derive(Clone, Copy)]
pub struct KeptSegment {
    offset: u64,
    first: u64,
    length: u32,
    /// How long after its first transmission the last one was, in ms.
    since: u32,
}

// A record has room for 64 of them from the start.
const _: () = prove!(size_of::<KeptSegment>() == 24);

impl Model for KeptSegment {
    ghost use Rattle.std.specs.Prelude.{◌+◌, ◌-◌, ◌^◌, ◌<◌};
    ghost use Rattle.std.proofs.Common.{ap};
    ghost use Rattle.std.proofs.Math.Nat.{add-sub_cancel_left};
    ghost use Rattle.dt_send.specs.declared.sent_segments.SentSegment.{SentSegment};

    ghost Value = { SentSegment };

    ghost view = { λ s. record { offset = s.offset; length = s.length; first = s.first; last = s.first + s.since } };

    ghost invariant = { λ s. s.first + s.since < 2 ^ 64 };

    ghost inverse = { λ v. record { offset = v.offset; first = v.first; length = v.length; since = v.last - v.first } };

    ghost inverse_ok = { λ s h. ap (λ since. record { offset = s.offset; first = s.first; length = s.length; since = since }) (add-sub_cancel_left s.first s.since) };
}

impl KeptSegment {
    /// A segment whose last transmission was less than 2^32 ms after its first.
    pub fn of(segment: &SentSegment) -> KeptSegment
        requires ordered { segment.now.first ≤ segment.now.last }
        requires near { segment.now.last < segment.now.first + 2 ^ 32 }
        ensures { result ≡ segment.now }
    {
        KeptSegment {
            offset: segment.offset,
            first: segment.first,
            length: segment.length,
            since: (segment.last - segment.first) as u32,
        }
    }

    /// The segment.
    pub fn segment(&self) -> SentSegment
        ensures { result ≡ self.now }
    {
        SentSegment {
            offset: self.offset,
            length: self.length,
            first: self.first,
            last: self.first + u64::from(self.since),
        }
    }

    /// The segment when it goes out again: not before its last transmission, and less than 2^32 ms after
    /// its first.
    pub fn again(&self, at: u64) -> KeptSegment
        requires ordered { self.now.last ≤ at }
        requires near { at < self.now.first + 2 ^ 32 }
        ensures { result ≡ record self.now { last = at } }
    {
        KeptSegment {
            since: (at - self.first) as u32,
            ..*self
        }
    }
}
