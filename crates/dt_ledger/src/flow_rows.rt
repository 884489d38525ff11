//! The ledger of one flow: a row for each octet taken or given, and a count of octets read in each life.
ghost use Rattle.std.specs.Prelude.{◌≡◌, ◌+◌, ◌^◌, ◌<◌, ◌≤◌, ◌↔◌, [], ◌++◌, length, IfSome, IsNone, OnErr, OnOk, slice_get, Some};
ghost use Rattle.dt_items.specs.Unread.{items_of};
ghost use Rattle.dt_flow_model.specs.Ledger.{HasNoEntry, first_unsent, note_first, note_read, settle, take_rows, top};
ghost use Rattle.dt_world_model.specs.Ledgers.{totals_of};
ghost use Rattle.dt_ledger.specs.Additions.{added, MayBeAdded, TakesMemory};
ghost use Rattle.dt_ledger.specs.Gives.{rows_given};
ghost use Rattle.dt_ledger.specs.Reads.{read_of_all};
ghost use Rattle.dt_ledger.specs.Rows.{settle_at};

use crate::additions::Addition;
use crate::given_octets::GivenOctets;
use crate::gives::GivenRows;
use crate::optional_moments::Instant;
use crate::read_counts::ReadCounts;
use crate::taken_rows::TakenRows;
use dt_flow_model::{Fate, Taken};
use dt_items::{MarkedOctets, NoMemory};
use dt_reports::Totals;
use std::alloc::Global;
use std::marker::Model;

/// The ledger of one flow: a row for each octet that it took, a row for each octet that was given to
/// its receiver, and how many octets were read. The place of an octet is its row's position among all
/// that were taken, from 0 on, over all lives of the sending station.
///
/// Moments are milliseconds of the world, at most 2^62. A taken octet takes 16 octets of memory, and a
/// given one takes 1 octet, beside 32 for each call that gives; the first of either take it for 64. Calls
/// that need memory and find none answer `NoMemory` and leave the ledger as it was; all others take none.
#[derive(Drop)]
pub struct FlowRows {
    taken: TakenRows,
    given: GivenRows,
    reads: ReadCounts,
}

impl Model for FlowRows {
    ghost use Rattle.dt_world_model.specs.Ledgers.{FlowLedger};

    ghost Value = { FlowLedger };

    ghost view = { λ f. record { taken = f.taken; given = f.given; reads = f.reads } };
}

impl FlowRows {
    /// A ledger of nothing. What later calls take is taken of `alloc`.
    pub fn new(alloc: Global) -> FlowRows
        ensures { result ≡ record { taken = []; given = []; reads = [] } }
    {
        FlowRows {
            taken: TakenRows::new(alloc),
            given: GivenRows::new(alloc),
            reads: ReadCounts::new(alloc),
        }
    }

    /// Octets are taken in a life of the sending station: a row each, after all others, with no fate
    /// and no first moment. `NoMemory` leaves the ledger as it was. The cost is that of the octets.
    pub fn note_taken(&mut self, life: u32, taken: &MarkedOctets<'_>) -> Result<(), NoMemory>
        ensures ok { OnOk result (self.new ≡ record self.old { taken = take_rows life (items_of taken.now) self.old.taken }) }
        ensures err { OnErr result (self.new ≡ self.old) }
    {
        self.taken.push_taken(life, taken)
    }

    /// `count` taken rows from a place on, which are there, get their first moment. The cost is that of
    /// the rows.
    pub fn note_first(&mut self, place: u64, count: u32, at: Instant)
        requires there { place + count ≤ length self.old.taken }
        ensures { self.new ≡ record self.old { taken = note_first at.milliseconds place count self.old.taken } }
    {
        self.taken.note_first(place, count, at);
    }

    /// `count` taken rows from a place on, which are there, get the fate. The cost is that of the rows.
    pub fn settle(&mut self, place: u64, count: u32, fate: Fate)
        requires there { place + count ≤ length self.old.taken }
        ensures { self.new ≡ record self.old { taken = settle_at fate place count self.old.taken } }
    {
        self.taken.settle(place, count, fate);
    }

    /// The `count` leftmost taken rows of a life without a fate get the fate; all of them do
    /// where there are fewer. No row is looked at twice as long as each call is for the latest life in
    /// which octets were taken and no row gets the fate Open. A call for another life begins at place 0,
    /// and so does the next one for the latest.
    pub fn settle_open(&mut self, life: u32, count: u32, fate: Fate)
        ensures { self.new ≡ record self.old { taken = settle life fate count self.old.taken } }
    {
        self.taken.settle_open(life, count, fate);
    }

    /// `count` taken rows get their first moment, from the leftmost one on that is of a life and has
    /// neither a fate nor a first moment; fewer do where the rows end before. The answer is the place of
    /// that one, or the number of taken rows where there is none. The cost is as [`FlowRows::settle_open`]
    /// says, and that of the rows.
    pub fn note_next(&mut self, life: u32, count: u32, at: Instant) -> u64
        ensures place { result ≡ first_unsent life self.old.taken }
        ensures noted { self.new ≡ record self.old { taken = note_first at.milliseconds (first_unsent life self.old.taken) count self.old.taken } }
    {
        self.taken.note_next(life, count, at)
    }

    /// Octets are given to the receiver: a row each, after all others. `NoMemory` leaves the ledger as it
    /// was. The cost is that of the octets.
    pub fn give(&mut self, given: &GivenOctets<'_>) -> Result<(), NoMemory>
        ensures ok { OnOk result (self.new ≡ record self.old { given = self.old.given ++ rows_given given.entry.now }) }
        ensures err { OnErr result (self.new ≡ self.old) }
    {
        self.given.give(given)
    }

    /// `count` octets more were read in a life of the receiving station. `NoMemory` comes only at the
    /// first read of a life, and leaves the ledger as it was.
    pub fn note_read(&mut self, life: u32, count: u64) -> Result<(), NoMemory>
        requires { read_of_all self.old.reads + count < 2 ^ 62 }
        ensures ok { OnOk result (self.new ≡ record self.old { reads = note_read life count self.old.reads }) }
        ensures err { OnErr result (self.new ≡ self.old) }
        ensures memory { OnErr result (HasNoEntry life self.old.reads) }
    {
        self.reads.note(life, count)
    }

    /// This is added. `NoMemory` leaves the ledger as it was.
    pub(crate) fn extend(&mut self, addition: &Addition<'_>) -> Result<(), NoMemory>
        requires { MayBeAdded addition.now self.old }
        ensures ok { OnOk result (self.new ≡ added addition.now self.old) }
        ensures err { OnErr result (self.new ≡ self.old) }
        ensures memory { OnErr result (TakesMemory addition.now self.old) }
    {
        match addition {
            Addition::Taken { life, octets } => self.note_taken(*life, octets),
            Addition::Given { octets } => self.give(octets),
            Addition::Read { life, count } => self.note_read(*life, *count),
        }
    }

    /// How many octets were taken over all lives, and what became of them. The cost is constant.
    pub fn totals(&self) -> Totals
        ensures { result ≡ totals_of self.now }
    {
        let counts = self.taken.counts();
        Totals {
            taken: self.taken.count(),
            acked: counts.acked,
            uncertain: counts.uncertain,
            unsettled: counts.unsettled,
            given: self.given.count(),
            read: self.reads.all(),
        }
    }

    /// The number of taken rows.
    pub fn taken_count(&self) -> u64
        ensures { result ≡ length self.now.taken }
    {
        self.taken.count()
    }

    /// The taken row at a place. The cost is constant.
    pub fn taken_at(&self, place: u64) -> Taken
        requires { place < length self.now.taken }
        ensures { slice_get self.now.taken place ≡ Some result }
    {
        self.taken.at(place)
    }

    /// The number of octets that were read, over all lives.
    pub fn read_count(&self) -> u64
        ensures { result ≡ read_of_all self.now.reads }
    {
        self.reads.all()
    }

    /// The place of the last given row, below 2^62 - 1. None comes exactly where there is no given row.
    pub fn last_given(&self) -> Option<u64>
        ensures none { IsNone result ↔ (self.now.given ≡ []) }
        ensures last { IfSome result (λ place. place + 1 ≡ top self.now.given) }
        ensures below { IfSome result (λ place. place + 1 < 2 ^ 62) }
    {
        self.given.last_place()
    }
}
