//! The octet totals of a flow over all lives: taken, acknowledged, uncertain, unsettled, given and read.
ghost use Rattle.std.specs.Prelude.{◌≡◌};
ghost use Rattle.dt_reports.specs.Told.{totals_told, told};

use crate::reports::Report;
use dt_units::Flow;

/// How many octets of a flow were taken over all lives of its stations, and what became of them.
#[derive(Clone, Copy, PartialEq, Eq)]
pub struct Totals {
    /// Those that the sender took.
    pub taken: u64,
    /// Those of them that were acknowledged.
    pub acked: u64,
    /// Those of them that were given up.
    pub uncertain: u64,
    /// Those of them that are neither: nothing was reported of them yet.
    pub unsettled: u64,
    /// Those that were put into the unread queue of the receiver.
    pub given: u64,
    /// Those of them that were read.
    pub read: u64,
}

impl Totals {
    /// The report of these totals of a flow.
    pub fn report(&self, flow: Flow) -> Report<'static>
        ensures { told result ≡ totals_told flow self.now }
    {
        Report::FlowTotals {
            flow,
            taken: self.taken,
            acked: self.acked,
            uncertain: self.uncertain,
            unsettled: self.unsettled,
            given: self.given,
            read: self.read,
        }
    }
}
