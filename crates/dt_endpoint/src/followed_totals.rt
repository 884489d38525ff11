//! Octets of the flows that are followed.
ghost use Rattle.std.specs.Prelude.{◌≡◌, [], OnErr, OnOk};
ghost use Rattle.dt_reports.specs.Told.{told};
ghost use Rattle.dt_world_model.specs.Tables.{look, same_flow};
ghost use Rattle.dt_endpoint.specs.Counts.{flow_told, flows_told, with_flow};

use crate::counts::{Octets, added_by};
use dt_items::NoMemory;
use dt_reports::Report;
use dt_units::Flow;
use indexmap::IndexMap;
use std::alloc::Global;
use std::marker::Model;

/// What is reported of the octets of some flows: of those that are followed. A flow is found in constant
/// time.
#[derive(Drop)]
pub struct FollowedTotals {
    flows: IndexMap<Flow, Octets>,
}

impl Model for FollowedTotals {
    ghost use Rattle.std.specs.Prelude.{List};
    ghost use Rattle.dt_units.specs.declared.endpoints.Flow.{Flow};
    ghost use Rattle.dt_endpoint.specs.declared.counts.Octets.{Octets};

    ghost Value = { List (Flow × Octets) };

    ghost view = { λ t. t.flows.entries };
}

impl FollowedTotals {
    /// No flow is followed.
    pub fn new(alloc: Global) -> FollowedTotals
        ensures { result ≡ [] }
    {
        FollowedTotals {
            flows: IndexMap::new(alloc),
        }
    }

    /// What was reported of a flow since it is followed, or none where it isn't.
    pub fn of(&self, flow: &Flow) -> Option<Octets>
        ensures { result ≡ look same_flow flow.now self.now }
    {
        self.flows.get(flow).copied()
    }

    /// The flow is followed from now on. One that is followed already stays as it is. `NoMemory` changes
    /// nothing.
    pub fn follow(&mut self, flow: &Flow) -> Result<(), NoMemory>
        ensures done { OnOk result (self.new ≡ with_flow flow.now self.old) }
        ensures same { OnErr result (self.new ≡ self.old) }
    {
        if self.of(flow).is_some() {
            return Ok(());
        }
        self.flows.insert(*flow, Octets::none())?;
        Ok(())
    }

    /// What a report tells of octets is counted, where its flow is followed.
    pub fn note(&mut self, report: &Report<'_>)
        ensures { self.new ≡ flows_told (told report.now) (flow_told (told report.now)) self.old }
    {
        let Some(flow) = flow_in(report) else {
            return;
        };
        let Some(before) = self.of(&flow) else {
            return;
        };
        let mut octets = before;
        octets.note(report);
        if self.flows.insert(flow, octets).is_err() {
            unreachable!();
        }
    }
}

/// The flow of a report of octets.
fn flow_in(report: &Report<'_>) -> Option<Flow>
    ensures { result ≡ flow_told (told report.now) }
{
    match added_by(report) {
        Some(added) => Some(added.flow),
        None => None,
    }
}
