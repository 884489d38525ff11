//! The rows of the octets that one flow took, with the time of first sending and the fate of each octet.
ghost use Rattle.std.specs.Prelude.{◌≡◌, ◌+◌, ◌<◌, ◌≤◌, ◌++◌, [], false, length, min, map, None, OnErr, OnOk, slice_get, Some, vec_capacity, vec_len};
ghost use Rattle.dt_items.specs.Unread.{items_of};
ghost use Rattle.dt_flow_model.specs.Ledger.{first_unsent, is_open, is_open_in, note_first, open_row, settle, take_rows};
ghost use Rattle.dt_ledger.specs.Rows.{IsPassed, NoneBelow, fates_in, settle_at, waits_in};

use crate::fate_counts::FateCounts;
use crate::optional_moments::Instant;
use crate::progress::{Passed, Progress};
use crate::taken_row::{TakenRow, is_open};
use dt_flow_model::{Fate, Taken};
use dt_items::{MarkedOctets, NoMemory};
use std::alloc::Global;
use std::marker::Model;

/// The rows of the octets that a flow took, in the order of their taking: 16 octets of memory each.
#[derive(Drop)]
pub struct TakenRows {
    rows: Vec<TakenRow>,
    counts: FateCounts,
    progress: Progress,
}

impl Model for TakenRows {
    ghost use Rattle.std.specs.Prelude.{List};
    ghost use Rattle.dt_flow_model.specs.declared.rows.Taken.{Taken};
    ghost use Rattle.dt_ledger.specs.Rows.{AreBeside};

    ghost Value = { List Taken };

    ghost view = { λ t. t.rows.items };

    ghost invariant = { λ t. AreBeside t.counts t.progress t.rows.items };
}

/// For how many rows the first octets make room at least.
const FIRST_ROWS: usize = 64;

/// Appends a row for each octet. There is room for them.
fn append(rows: &mut Vec<TakenRow>, life: u32, taken: &MarkedOctets<'_>)
    requires { vec_len rows.old + length taken.now.octets.now ≤ vec_capacity rows.old }
    ensures { rows.new.items ≡ take_rows life (items_of taken.now) rows.old.items }
{
    for place in 0..taken.octets.len() {
        rows.push_reserved(TakenRow::open(life, taken.item_at(place, false)));
    }
}

/// `count` rows from a place on get their first moment.
fn note_first_at(rows: &mut [TakenRow], place: usize, count: u32, at: Instant)
    requires { place + count ≤ length rows.old }
    ensures { rows.new ≡ note_first at.milliseconds place count rows.old }
{
    for i in place..place + count as usize {
        let row = &mut rows[i];
        row.note_first(at);
    }
}

/// `count` rows from a place on get the fate.
fn settle_from_place(
    rows: &mut [TakenRow],
    counts: &mut FateCounts,
    place: usize,
    count: u32,
    fate: Fate,
)
    requires there { place + count ≤ length rows.old }
    requires counted { counts.old ≡ fates_in rows.old }
    ensures settled { rows.new ≡ settle_at fate place count rows.old }
    ensures counted { counts.new ≡ fates_in rows.new }
{
    for i in place..place + count as usize {
        let row = &mut rows[i];
        counts.change(row.fate(), fate);
        row.settle(fate);
    }
}

/// The `count` leftmost open rows of a life get the fate, which isn't Open. They are sought from
/// where open rows of the life may stand; the answer is from where on they may stand then.
fn settle_leftmost(
    rows: &mut [TakenRow],
    counts: &mut FateCounts,
    from: Passed,
    count: u32,
    fate: Fate,
) -> Passed
    requires passed { IsPassed is_open_in from rows.old }
    requires counted { counts.old ≡ fates_in rows.old }
    requires closed { is_open fate ≡ false }
    ensures settled { rows.new ≡ settle from.life fate count rows.old }
    ensures counted { counts.new ≡ fates_in rows.new }
    ensures passed { IsPassed is_open_in result rows.new }
    ensures life { result.life ≡ from.life }
{
    let mut left = count;
    let mut below = from.below;
    while left > 0 && below < rows.len() {
        if rows[below].is_open_in(from.life) {
            counts.change(Fate::Open, fate);
            rows[below].settle(fate);
            left -= 1;
        }
        below += 1;
    }
    Passed { below, ..from }
}

/// The place of the leftmost row of a life that waits for its first transmission. It is sought from
/// where such rows may stand.
fn first_waiting(rows: &[TakenRow], from: Passed) -> usize
    requires passed { IsPassed waits_in from rows.now }
    ensures place { result ≡ first_unsent from.life rows.now }
    ensures within { result ≤ length rows.now }
{
    let mut place = from.below;
    while place < rows.len() {
        let row = &rows[place];
        if row.is_open_in(from.life) && row.is_unsent() {
            return place;
        }
        place += 1;
    }
    place
}

impl TakenRows {
    /// No rows.
    pub fn new(alloc: Global) -> TakenRows
        ensures { result ≡ [] }
    {
        let none = Passed { life: 0, below: 0 };
        TakenRows {
            rows: Vec::new(alloc),
            counts: FateCounts {
                unsettled: 0,
                acked: 0,
                uncertain: 0,
            },
            progress: Progress {
                latest: 0,
                settled: none,
                sent: none,
            },
        }
    }

    /// The number of rows.
    pub fn count(&self) -> u64
        ensures { result ≡ length self.now }
    {
        self.rows.len() as u64
    }

    /// How many rows there are of each fate.
    pub fn counts(&self) -> FateCounts
        ensures { result ≡ fates_in self.now }
    {
        self.counts
    }

    /// The row at a place.
    pub fn at(&self, place: u64) -> Taken
        requires { place < length self.now }
        ensures { slice_get self.now place ≡ Some result }
    {
        self.rows[place as usize].taken()
    }

    /// Octets are taken: a row each, with no fate and no first moment. `NoMemory` leaves the rows as
    /// they were.
    pub fn push_taken(&mut self, life: u32, taken: &MarkedOctets<'_>) -> Result<(), NoMemory>
        ensures ok { OnOk result (self.new ≡ take_rows life (items_of taken.now) self.old) }
        ensures err { OnErr result (self.new ≡ self.old) }
    {
        // Rows that come one message after another grow less often.
        let least = if self.rows.is_empty() { FIRST_ROWS } else { 0 };
        self.rows.reserve(taken.octets.len().max(least))?;
        self.progress.begin(life, self.rows.len());
        self.counts.unsettled += taken.octets.len() as u64;
        append(&mut self.rows, life, taken);
        Ok(())
    }

    /// `count` rows from a place on get their first moment.
    pub fn note_first(&mut self, place: u64, count: u32, at: Instant)
        requires { place + count ≤ length self.old }
        ensures { self.new ≡ note_first at.milliseconds place count self.old }
    {
        note_first_at(&mut self.rows, place as usize, count, at);
    }

    /// `count` rows from a place on get the fate.
    pub fn settle(&mut self, place: u64, count: u32, fate: Fate)
        requires { place + count ≤ length self.old }
        ensures { self.new ≡ settle_at fate place count self.old }
    {
        let place = place as usize;
        settle_from_place(&mut self.rows, &mut self.counts, place, count, fate);
        self.progress.settled = self.progress.settled.reopened(fate, place);
        self.progress.sent = self.progress.sent.reopened(fate, place);
    }

    /// The `count` leftmost open rows of a life get the fate.
    pub fn settle_open(&mut self, life: u32, count: u32, fate: Fate)
        ensures { self.new ≡ settle life fate count self.old }
    {
        if is_open(fate) {
            return;
        }
        let from = self.progress.settled.of(life);
        self.progress.settled = settle_leftmost(
            &mut self.rows,
            &mut self.counts,
            from,
            count,
            fate,
        );
    }

    /// The rows of a life that wait for their first transmission get their first moment: `count` rows
    /// from the leftmost on. The answer is its place.
    pub fn note_next(&mut self, life: u32, count: u32, at: Instant) -> u64
        ensures place { result ≡ first_unsent life self.old }
        ensures noted { self.new ≡ note_first at.milliseconds (first_unsent life self.old) count self.old }
    {
        let place = first_waiting(&self.rows, self.progress.sent.of(life));
        let there = (self.rows.len() - place).min(count as usize);
        note_first_at(&mut self.rows, place, there as u32, at);
        self.progress.sent = Passed {
            life,
            below: place + there,
        };
        place as u64
    }
}
