//! A segment that was sent: its part of the ring of items, and the time from which it is resent.
ghost use Rattle.std.specs.Prelude.{◌≡◌, ◌+◌, ◌^◌, ◌<◌, ◌≤◌, max, nat_lt, nat_le, ◌&&◌, [], length, slice_get, Some};
ghost use Rattle.dt_flow_model.specs.SendActs.{is_late, moment_if};
ghost use Rattle.dt_send.specs.SentSegments.{segment_of};

use crate::kept_segments::KeptSegment;
use circular_buffer::HeapCircularBuffer;
use dt_units::Rules;

/// A segment that went out, as a part of the ring of items. Its begin and end marks are those of
/// its first and of its last item. Moments are milliseconds.
#[derive(Clone, Copy)]
pub struct SentSegment {
    /// The offset of its first octet.
    pub offset: u64,
    /// How many octets it has.
    pub length: u32,
    /// The moment of its first transmission.
    pub first: u64,
    /// The moment of its last transmission.
    pub last: u64,
}

impl SentSegment {
    /// From when on it goes out again, where it may still go out again at now or later.
    pub fn resend_from(&self, rules: &Rules, now: u64) -> Option<u64>
        requires first { self.now.first ≤ 2 ^ 62 }
        requires last { self.now.last ≤ 2 ^ 62 }
        ensures { let g = segment_of self.now [] in let p = rules.now in
            result ≡ moment_if (nat_lt (max now (g.last + p.rto)) (g.first + p.r)) (g.last + p.rto) }
    {
        let params = rules.params();
        let moment = self.last + u64::from(params.rto);
        let end = self.first + u64::from(params.r);
        if now.max(moment) < end {
            Some(moment)
        } else {
            None
        }
    }

    /// Whether it may go out again at now.
    pub fn is_late(&self, rules: &Rules, now: u64) -> bool
        requires first { self.now.first ≤ 2 ^ 62 }
        requires last { self.now.last ≤ 2 ^ 62 }
        ensures { result ≡ is_late rules.now now (segment_of self.now []) }
    {
        let params = rules.params();
        self.last + u64::from(params.rto) <= now && now < self.first + u64::from(params.r)
    }
}

/// The segment at a place of the ring.
pub fn sent_segment_at(
    outstanding_segments: &HeapCircularBuffer<KeptSegment>,
    place: usize,
) -> SentSegment
    requires { place < length outstanding_segments.now.items }
    ensures { slice_get outstanding_segments.now.items place ≡ Some result }
{
    match outstanding_segments.get(place) {
        Some(kept) => kept.segment(),
        None => unreachable!(),
    }
}
