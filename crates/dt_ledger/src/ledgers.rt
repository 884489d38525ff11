//! The ledgers of all flows, each found by its flow: the octets taken, given and read.
ghost use Rattle.std.specs.Prelude.{◌≡◌, ◌+◌, ◌^◌, ◌<◌, ◌≤◌, ◌↔◌, [], ◌++◌, false, length, IfSome, IsNone, IsSome, None, OnErr, OnOk, slice_get, Some};
ghost use Rattle.std.specs.Borrow.{sem};
ghost use Rattle.std.specs.Option.{option_copied, option_copied_mut, option_map};
ghost use Rattle.dt_items.specs.Unread.{marked};
ghost use Rattle.dt_flow_model.specs.Keeping.{most_moment};
ghost use Rattle.dt_flow_model.specs.Ledger.{HasNoEntry, given_rows, note_first, note_read, take_rows, top};
ghost use Rattle.dt_world_model.specs.Ledgers.{totals_of};
ghost use Rattle.dt_world_model.specs.Tables.{Distinct, look, same_flow, write};
ghost use Rattle.dt_ledger.specs.Additions.{added, MayBeAdded, TakesMemory};
ghost use Rattle.dt_ledger.specs.Flows.{ledger_in};
ghost use Rattle.dt_ledger.specs.Reads.{read_of_all};
ghost use Rattle.dt_ledger.specs.Rows.{settle_at};

use crate::additions::Addition;
use crate::flow_rows::FlowRows;
use crate::given_octets::GivenOctets;
use crate::optional_moments::Instant;
use dt_flow_model::{Fate, Taken};
use dt_items::{MarkedOctets, NoMemory};
use dt_reports::Totals;
use dt_units::Flow;
use indexmap::IndexMap;
use std::alloc::Global;
use std::marker::Model;

/// The ledgers of all flows, in the order of the flows' first octets. A contract sees a list of them,
/// each with its flow. A flow is found in constant time.
///
/// Each call is that of [`FlowRows`] on the ledger of its flow: it takes memory, costs and answers as
/// that one does, and leaves all other flows as they are.
#[derive(Drop)]
pub struct Ledger {
    alloc: Global,
    flows: IndexMap<Flow, FlowRows>,
}

impl Model for Ledger {
    ghost use Rattle.std.specs.Prelude.{List};
    ghost use Rattle.dt_units.specs.declared.endpoints.Flow.{Flow};
    ghost use Rattle.dt_world_model.specs.Ledgers.{FlowLedger};

    ghost Value = { List (Flow × FlowLedger) };

    ghost view = { λ l. l.flows.entries };
}

impl Ledger {
    ghost use Rattle.dt_ledger.specs.Lending.{LendsRows};

    /// No flows. What later calls take is taken of `alloc`.
    pub fn new(alloc: Global) -> Ledger
        ensures { result ≡ [] }
    {
        Ledger {
            alloc,
            flows: IndexMap::new(alloc),
        }
    }

    /// The ledger of a flow, or none where it took no octets yet.
    pub fn rows(&self, flow: &Flow) -> Option<&FlowRows>
        ensures { option_copied result ≡ look same_flow flow.now self.now }
    {
        self.flows.get(flow)
    }

    /// The ledger of a flow, to change it, or none where it took no octets yet. What is written is the
    /// flow's ledger then, and all other flows stay.
    pub fn rows_mut(&mut self, flow: &Flow) -> Option<&mut FlowRows>
        ensures* writes_back { sem 𝓛 (LendsRows self.entry flow.now result) }
        ensures value { option_copied_mut result ≡ look same_flow flow.now self.old }
    {
        self.flows.get_mut(flow)
    }

    /// The flow has these rows; one that isn't there comes after all others. `NoMemory` leaves the
    /// ledger as it was.
    fn add(&mut self, flow: &Flow, rows: FlowRows) -> Result<(), NoMemory>
        ensures ok { OnOk result (self.new ≡ write same_flow flow.now rows self.old) }
        ensures err { OnErr result (self.new ≡ self.old) }
    {
        self.flows.insert(*flow, rows)?;
        Ok(())
    }

    /// This is added to the flow. One that isn't there comes after all others. `NoMemory` leaves the
    /// ledger as it was.
    fn extend(&mut self, flow: &Flow, addition: &Addition<'_>) -> Result<(), NoMemory>
        requires { MayBeAdded addition.now (ledger_in self.old flow.now) }
        ensures ok { let before = ledger_in self.old flow.now in
            OnOk result (self.new ≡ write same_flow flow.now (added addition.now before) self.old) }
        ensures err { OnErr result (self.new ≡ self.old) }
        ensures memory { OnErr result (TakesMemory addition.now (ledger_in self.old flow.now)) }
    {
        if let Some(rows) = self.rows_mut(flow) {
            return rows.extend(addition);
        }
        let mut rows = FlowRows::new(self.alloc);
        rows.extend(addition)?;
        self.add(flow, rows)
    }

    /// Octets are taken. A flow that isn't there comes after all others. `NoMemory` leaves the ledger
    /// as it was.
    pub fn take(
        &mut self,
        flow: &Flow,
        life: u32,
        octets: &[u8],
        begin: bool,
        end: bool,
    ) -> Result<(), NoMemory>
        ensures ok { let before = ledger_in self.old flow.now in
            OnOk result (self.new ≡ write same_flow flow.now (record before { taken = take_rows life (marked octets.now begin end false) before.taken }) self.old) }
        ensures err { OnErr result (self.new ≡ self.old) }
    {
        let octets = MarkedOctets { octets, begin, end };
        self.extend(flow, &Addition::Taken { life, octets })
    }

    /// The flow is there afterwards: one that isn't comes after all others, with nothing in its ledger.
    /// `NoMemory` comes only where it wasn't there, and leaves the ledger as it was.
    pub fn begin(&mut self, flow: &Flow) -> Result<(), NoMemory>
        ensures ok { OnOk result (self.new ≡ write same_flow flow.now (ledger_in self.old flow.now) self.old) }
        ensures there { OnOk result (IsSome (look same_flow flow.now self.new)) }
        ensures err { OnErr result (self.new ≡ self.old) }
        ensures memory { OnErr result (look same_flow flow.now self.old ≡ None) }
    {
        if self.rows(flow).is_some() {
            return Ok(());
        }
        let rows = FlowRows::new(self.alloc);
        self.add(flow, rows)
    }

    /// `count` taken rows of the flow from a place on, which are there, get their first moment.
    pub fn note_first(&mut self, flow: &Flow, place: u64, count: u32, at: u64)
        requires flow { IsSome (look same_flow flow.now self.old) }
        requires there { place + count ≤ length (ledger_in self.old flow.now).taken }
        requires moment { at ≤ most_moment }
        ensures { let before = ledger_in self.old flow.now in
            self.new ≡ write same_flow flow.now (record before { taken = note_first at place count before.taken }) self.old }
    {
        match self.rows_mut(flow) {
            Some(rows) => rows.note_first(place, count, Instant { milliseconds: at }),
            None => unreachable!(),
        }
    }

    /// `count` taken rows of the flow from a place on, which are there, get the fate.
    pub fn settle(&mut self, flow: &Flow, place: u64, count: u32, fate: Fate)
        requires flow { IsSome (look same_flow flow.now self.old) }
        requires there { place + count ≤ length (ledger_in self.old flow.now).taken }
        ensures { let before = ledger_in self.old flow.now in
            self.new ≡ write same_flow flow.now (record before { taken = settle_at fate place count before.taken }) self.old }
    {
        match self.rows_mut(flow) {
            Some(rows) => rows.settle(place, count, fate),
            None => unreachable!(),
        }
    }

    /// Octets are given to the receiver of the flow, with the places from `place` on. A flow that isn't
    /// there comes after all others. `NoMemory` leaves the ledger as it was.
    pub fn give(
        &mut self,
        flow: &Flow,
        place: u64,
        octets: &[u8],
        begin: bool,
        end: bool,
        run: bool,
        life: u32,
        at: u64,
    ) -> Result<(), NoMemory>
        requires below { place + length octets.now < 2 ^ 62 }
        ensures ok { let before = ledger_in self.old flow.now in let rows = given_rows life at run place (marked octets.now begin end false) in
            OnOk result (self.new ≡ write same_flow flow.now (record before { given = before.given ++ rows }) self.old) }
        ensures err { OnErr result (self.new ≡ self.old) }
    {
        let octets = GivenOctets {
            payload: MarkedOctets { octets, begin, end },
            run,
            place,
            life,
            at,
        };
        self.extend(flow, &Addition::Given { octets })
    }

    /// `count` octets more of the flow were read in a life of the receiving station. A flow that isn't
    /// there comes after all others. `NoMemory` comes only at the first read of a life, and leaves the
    /// ledger as it was.
    pub fn note_read(&mut self, flow: &Flow, life: u32, count: u64) -> Result<(), NoMemory>
        requires below { read_of_all (ledger_in self.old flow.now).reads + count < 2 ^ 62 }
        ensures ok { let before = ledger_in self.old flow.now in
            OnOk result (self.new ≡ write same_flow flow.now (record before { reads = note_read life count before.reads }) self.old) }
        ensures err { OnErr result (self.new ≡ self.old) }
        ensures memory { OnErr result (HasNoEntry life (ledger_in self.old flow.now).reads) }
    {
        self.extend(flow, &Addition::Read { life, count })
    }

    /// The number of flows. Each stands once.
    pub fn flows(&self) -> u64
        ensures count { result ≡ length self.now }
        ensures distinct { Distinct same_flow self.now }
    {
        self.flows.len() as u64
    }

    /// The flow at a position, in the order of the flows' first octets.
    pub fn flow_at(&self, i: u64) -> Flow
        requires { i < length self.now }
        ensures { option_map (λ e. e.0) (slice_get self.now i) ≡ Some result }
    {
        match self.flows.get_index(i as usize) {
            Some((flow, _)) => *flow,
            None => unreachable!(),
        }
    }

    /// The totals of the flow at a position.
    pub fn totals_at(&self, i: u64) -> Totals
        requires { i < length self.now }
        ensures { option_map (λ e. totals_of e.1) (slice_get self.now i) ≡ Some result }
    {
        match self.flows.get_index(i as usize) {
            Some((_, rows)) => rows.totals(),
            None => unreachable!(),
        }
    }

    /// The number of octets that the flow took, 0 where it isn't there.
    pub fn taken_count(&self, flow: &Flow) -> u64
        ensures { result ≡ length (ledger_in self.now flow.now).taken }
    {
        match self.rows(flow) {
            Some(rows) => rows.taken_count(),
            None => 0,
        }
    }

    /// The taken row of the flow at a place below [`Ledger::taken_count`].
    pub fn taken_at(&self, flow: &Flow, place: u64) -> Taken
        requires { place < length (ledger_in self.now flow.now).taken }
        ensures { slice_get (ledger_in self.now flow.now).taken place ≡ Some result }
    {
        match self.rows(flow) {
            Some(rows) => rows.taken_at(place),
            None => unreachable!(),
        }
    }

    /// The number of octets of the flow that were read, over all lives, 0 where it isn't there.
    pub fn read_count(&self, flow: &Flow) -> u64
        ensures { result ≡ read_of_all (ledger_in self.now flow.now).reads }
    {
        match self.rows(flow) {
            Some(rows) => rows.read_count(),
            None => 0,
        }
    }

    /// The place of the flow's last given row, below 2^62 - 1. None comes exactly where it has no given
    /// row.
    pub fn last_given(&self, flow: &Flow) -> Option<u64>
        ensures none { IsNone result ↔ ((ledger_in self.now flow.now).given ≡ []) }
        ensures last { IfSome result (λ place. place + 1 ≡ top (ledger_in self.now flow.now).given) }
        ensures below { IfSome result (λ place. place + 1 < 2 ^ 62) }
    {
        match self.rows(flow) {
            Some(rows) => rows.last_given(),
            None => None,
        }
    }
}
