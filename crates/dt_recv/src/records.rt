//! What becomes of a receive record. Moments are readings of the receiving station's clock, in
//! milliseconds.
ghost use Rattle.std.specs.Prelude.{◌≡◌, ◌≤◌, ◌+◌, Some, length};
ghost use Rattle.dt_units.specs.Numbers.{number_after};
ghost use Rattle.dt_units.specs.Times.{receive_time};
ghost use Rattle.dt_flow_model.specs.ReceiveRecord.{due_in, expected_of, owed_after, opens_window, owing, recv_due_of, recv_moments, recv_wake_of, record_read, standing_told, told_in, window_told};
ghost use Rattle.dt_recv.specs.Records.{receive_record_of, standing_of};

use crate::segment::Segment;
use dt_flow_model::{Reading, RecvKind, RecvMoments};
use dt_units::{Rules, earlier, later};

/// A receive record.
#[derive(Clone, Copy)]
pub struct Record {
    /// The number of the octet that comes next.
    pub expected: u32,
    /// The moment of the last acceptance.
    pub touched: Reading,
    /// The moment at which an acknowledgement that is owed goes out, or none.
    pub due: Option<u64>,
    /// The window that was advertised last, in octets.
    pub told: u32,
}

/// When the acknowledgement of a packet goes out that is accepted at `now`, by what was owed before.
fn owed_after(rules: &Rules, now: Reading, due: Option<u64>, message_ends: bool) -> Option<u64>
    ensures { result ≡ owed_after rules.now now.ms due message_ends }
{
    if due.is_some() || message_ends {
        Some(now.ms)
    } else {
        Some(now.ms + u64::from(rules.params().a))
    }
}

/// What a record expects, or none.
pub fn expected(standing: Option<Record>) -> Option<u32>
    ensures { result ≡ expected_of (standing_of standing) }
{
    Some(standing?.expected)
}

/// The record after the octets of a segment were accepted at `now`.
pub fn accepted(
    standing: Option<Record>,
    rules: &Rules,
    now: Reading,
    segment: &Segment<'_>,
) -> Record
    requires few { length segment.now.payload.octets.now ≤ 8192 }
    ensures { receive_record_of result ≡ record {
      expected = number_after segment.now.number (length segment.now.payload.octets.now);
      touched = now.ms;
      due = owed_after rules.now now.ms (due_in (standing_of standing)) segment.now.payload.end;
      told = told_in rules.now (standing_of standing);
    } }
{
    let (due, told) = match standing {
        None => (None, rules.params().rcap),
        Some(record) => (record.due, record.told),
    };
    Record {
        expected: later(segment.number, segment.payload.octets.len() as u32),
        touched: now,
        due: owed_after(rules, now, due, segment.payload.end),
        told,
    }
}

/// The record after an acknowledgement with what it expects and this window: what was owed is paid.
pub fn paid(standing: Option<Record>, window: u32) -> Option<Record>
    ensures { standing_of result ≡ standing_told (standing_of standing) window }
{
    Some(Record {
        due: None,
        told: window,
        ..standing?
    })
}

/// The record after an acknowledgement with another number and this window.
pub fn told(standing: Option<Record>, window: u32) -> Option<Record>
    ensures { standing_of result ≡ window_told (standing_of standing) window }
{
    Some(Record {
        told: window,
        ..standing?
    })
}

/// The record after a read at `now` that raised the free room of the queue.
pub fn read(
    standing: Option<Record>,
    rules: &Rules,
    now: u64,
    before: u32,
    after: u32,
) -> Option<Record>
    ensures { standing_of result ≡ record_read rules.now now before after (standing_of standing) }
{
    let record = standing?;
    if record.is_opened(rules, before, after) {
        Some(Record {
            due: Some(now),
            ..record
        })
    } else {
        Some(record)
    }
}

impl Record {
    /// Whether a read that raised the free room so opened the window far enough that it is worth advertising.
    fn is_opened(&self, rules: &Rules, before: u32, after: u32) -> bool
        ensures { result ≡ opens_window rules.now before after (receive_record_of self.now) }
    {
        let worth_telling = rules.params().seg.min(rules.params().rcap);
        before < worth_telling && worth_telling <= after && self.told < worth_telling
    }

    /// The moment at which it is due for release.
    fn release(&self, rules: &Rules) -> u64
        ensures { result ≡ self.now.touched.ms + receive_time rules.now }
    {
        self.touched.ms + rules.times().receive
    }
}

/// The acknowledgement that is due at `now`, with the moment from which it is.
fn owing(now: u64, due: Option<u64>) -> Option<(RecvKind, u64)>
    ensures { result ≡ owing now due }
{
    let due = due?;
    if due <= now {
        Some((RecvKind::Ack, due))
    } else {
        None
    }
}

/// The first kind of act that is due at `now`, with the moment from which it is.
pub fn due(standing: Option<Record>, rules: &Rules, now: u64) -> Option<(RecvKind, u64)>
    ensures { result ≡ recv_due_of rules.now now (standing_of standing) }
{
    let record = standing?;
    let release = record.release(rules);
    if release <= now {
        Some((RecvKind::Release, release))
    } else {
        owing(now, record.due)
    }
}

/// From when on each kind of act is due.
pub fn moments(standing: Option<Record>, rules: &Rules) -> RecvMoments
    ensures { result ≡ recv_moments rules.now (standing_of standing) }
{
    match standing {
        None => RecvMoments {
            release: None,
            ack: None,
        },
        Some(record) => RecvMoments {
            release: Some(record.release(rules)),
            ack: record.due,
        },
    }
}

/// The least moment at which an act is due.
pub fn wake(standing: Option<Record>, rules: &Rules) -> Option<u64>
    ensures { result ≡ recv_wake_of rules.now (standing_of standing) }
{
    let moments = moments(standing, rules);
    earlier(moments.release, moments.ack)
}
