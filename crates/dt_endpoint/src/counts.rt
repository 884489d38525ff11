//! What an endpoint counts.
ghost use Rattle.std.specs.Prelude.{◌≡◌};
ghost use Rattle.dt_reports.specs.Matters.{matter_of, matter_seen};
ghost use Rattle.dt_reports.specs.Told.{told};
ghost use Rattle.dt_endpoint.specs.Counts.{addition_by, counted, no_counts, no_octets, octets_told, with_more};

use dt_reports::{Matter, Report};
use dt_units::Flow;

/// Octets by what was reported of them, since the endpoint opened. Each number stays at 2^64 - 1 once it is
/// there.
#[derive(Clone, Copy, Debug, PartialEq, Eq)]
pub struct Octets {
    /// Those that sends were answered `Done` for.
    pub taken: u64,
    /// Those of them that are acknowledged: reports `Settled`.
    pub settled: u64,
    /// Those of them that were given up: reports `Uncertain`.
    pub uncertain: u64,
    /// Those that came and can be read: reports `Accepted`.
    pub accepted: u64,
    /// Those of them that were read.
    pub read: u64,
}

impl Octets {
    /// No octets.
    pub(crate) fn none() -> Octets
        ensures { result ≡ no_octets }
    {
        Octets {
            taken: 0,
            settled: 0,
            uncertain: 0,
            accepted: 0,
            read: 0,
        }
    }

    /// The octets that a report tells are counted.
    pub(crate) fn note(&mut self, report: &Report<'_>)
        ensures { self.new ≡ octets_told (told report.now) self.old }
    {
        match added_by(report) {
            Some(added) => self.add(added.tally, added.by),
            None => {}
        }
    }

    fn add(&mut self, tally: Tally, by: u64)
        ensures { self.new ≡ with_more tally by self.old }
    {
        match tally {
            Tally::Taken => self.taken = more(self.taken, by),
            Tally::Settled => self.settled = more(self.settled, by),
            Tally::Uncertain => self.uncertain = more(self.uncertain, by),
            Tally::Accepted => self.accepted = more(self.accepted, by),
            Tally::Read => self.read = more(self.read, by),
        }
    }
}

/// A number of [`Octets`].
#[derive(Clone, Copy)]
pub(crate) enum Tally {
    Taken,
    Settled,
    Uncertain,
    Accepted,
    Read,
}

/// So many octets more of a flow, and the number that they add to.
#[derive(Clone, Copy)]
pub(crate) struct Addition {
    pub flow: Flow,
    pub tally: Tally,
    pub by: u64,
}

/// What a report adds to the octets of its flow, or none where it tells of none.
pub(crate) fn added_by(report: &Report<'_>) -> Option<Addition>
    ensures { result ≡ addition_by (matter_of (told report.now)) }
{
    added_in(report.matter())
}

fn added_in(matter: Matter<'_>) -> Option<Addition>
    ensures { result ≡ addition_by (matter_seen matter.entry) }
{
    let (flow, tally, by) = match matter {
        Matter::Taken { flow, count } => (flow, Tally::Taken, u64::from(count)),
        Matter::Acknowledged { flow, count, .. } => (flow, Tally::Settled, u64::from(count)),
        Matter::GivenUp { flow, count } => (flow, Tally::Uncertain, u64::from(count)),
        Matter::Accepted { flow, count, .. } => (flow, Tally::Accepted, u64::from(count)),
        Matter::ReadOut { flow, octets, .. } => (flow, Tally::Read, octets.len() as u64),
        Matter::Refused { .. }
        | Matter::Transmitted { .. }
        | Matter::Retransmitted { .. }
        | Matter::Replied { .. }
        | Matter::Dropped { .. }
        | Matter::NothingRead { .. }
        | Matter::Left { .. }
        | Matter::Begun { .. }
        | Matter::Neither => return None,
    };
    Some(Addition { flow, tally, by })
}

/// What a node has counted since its endpoint opened. Each number stays at 2^64 - 1 once it is there.
#[derive(Clone, Copy, Debug, PartialEq, Eq)]
pub struct Counts {
    /// Datagrams that came: an event each, also where it found no memory.
    pub came: u64,
    /// Datagrams that were refused: on no link of the node, not to be read, too old, or after the
    /// endpoint was spent.
    pub refused: u64,
    /// Frames that left.
    pub left: u64,
    /// Octets of all flows.
    pub octets: Octets,
}

impl Counts {
    /// Nothing was counted.
    pub(crate) fn none() -> Counts
        ensures { result ≡ no_counts }
    {
        Counts {
            came: 0,
            refused: 0,
            left: 0,
            octets: Octets::none(),
        }
    }
}

/// So many more, and 2^64 - 1 at most.
pub(crate) fn more(count: u64, by: u64) -> u64
    ensures { result ≡ counted by count }
{
    count.saturating_add(by)
}
