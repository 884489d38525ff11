//! What a call book hears of its endpoint, and what is due of it.
ghost use Rattle.std.specs.Prelude.{◌≡◌, OnErr, OnOk};
ghost use Rattle.dt_reports.specs.Matters.{matter_seen};
ghost use Rattle.dt_reports.specs.Told.{told};
ghost use Rattle.dt_service_model.specs.Ends.{judge};
ghost use Rattle.dt_service_model.specs.CallBook.{has_room, may_read};
ghost use Rattle.dt_service_model.specs.Hearing.{Accepts, hear, hear_as, heard_by};
ghost use Rattle.dt_service_model.specs.Turns.{deadline_of, sweep};
ghost use Rattle.dt_world_model.specs.Tables.{earliest};

use crate::begun_messages::keep_received;
use crate::call_book::CallBook;
use crate::uncertain::tell_given_up;
use dt_endpoint::Endpoint;
use dt_items::NoMemory;
use dt_reports::{Matter, Report};
use dt_service_model::PortKind;
use dt_units::Flow;

impl CallBook {
    /// A report of the endpoint is heard. `NoMemory` leaves all as it was.
    pub fn hear(&mut self, report: &Report<'_>) -> Result<(), NoMemory>
        ensures heard { OnOk result (self.new ≡ hear self.old (told report.now)) }
        ensures same { OnErr result (self.new ≡ self.old) }
    {
        self.hear_of(report.matter())
    }

    /// What is said of octets is heard. `NoMemory` leaves all as it was.
    fn hear_of(&mut self, matter: Matter<'_>) -> Result<(), NoMemory>
        ensures heard { OnOk result (self.new ≡ hear_as (heard_by (matter_seen matter.entry)) self.old) }
        ensures same { OnErr result (self.new ≡ self.old) }
    {
        match matter {
            Matter::Acknowledged { flow, count, .. } => {
                self.calls.with_fates(false, &flow, count);
            }
            Matter::GivenUp { flow, count } => {
                tell_given_up(&flow, &self.ports, &mut self.happenings)?;
                self.calls.with_fates(true, &flow, count);
            }
            Matter::Accepted { flow, .. } => self.accept(flow)?,
            Matter::Taken { .. }
            | Matter::Refused { .. }
            | Matter::Transmitted { .. }
            | Matter::Retransmitted { .. }
            | Matter::Replied { .. }
            | Matter::Dropped { .. }
            | Matter::ReadOut { .. }
            | Matter::NothingRead { .. }
            | Matter::Left { .. }
            | Matter::Begun { .. }
            | Matter::Neither => {}
        }
        Ok(())
    }

    /// Octets of a flow came in.
    fn accept(&mut self, flow: Flow) -> Result<(), NoMemory>
        ensures heard { OnOk result (self.new ≡ hear_as (Accepts flow) self.old) }
        ensures same { OnErr result (self.new ≡ self.old) }
    {
        if self.kind(flow.to_port).is_some() && !self.unread.contains(&flow) {
            self.unread.push(flow)?;
        }
        Ok(())
    }

    /// Whether a flow to this node may be read.
    pub fn may_read(&self, flow: &Flow) -> bool
        ensures { result ≡ may_read flow.now self.now }
    {
        match self.kind(flow.to_port) {
            Some(PortKind::Caller) => true,
            Some(PortKind::Service) => self.has_room(flow),
            None => false,
        }
    }

    /// Whether there is room for a request of a flow.
    fn has_room(&self, flow: &Flow) -> bool
        ensures { result ≡ has_room flow.now self.now }
    {
        self.tokens.len() < self.most.requests as usize
            && self.tokens.of(flow) < self.most.of_a_flow as usize
            && self.happenings.requests() < self.most.requests as usize
    }

    /// What was begun of a flow of which the endpoint has no receiver goes, and is counted. The cost is a
    /// look-up for each.
    pub fn sweep(&mut self, endpoint: &Endpoint)
        ensures { self.new ≡ sweep endpoint.now.state.host self.old }
    {
        let before = self.begun.len();
        keep_received(endpoint, &mut self.begun);
        let gone = before.saturating_sub(self.begun.len());
        self.counts.cut = self.counts.cut.saturating_add(gone as u64);
    }

    /// The least moment in milliseconds at which the patience of a call that waits is over, or none where
    /// none waits. The cost is a look at one in 64 calls.
    pub fn deadline(&self) -> Option<u64>
        ensures { result ≡ earliest deadline_of self.now.calls }
    {
        self.calls.deadline()
    }

    /// Calls are judged at a moment. `NoMemory` leaves all as it was.
    pub fn judge(&mut self, now: u64) -> Result<(), NoMemory>
        ensures judged { OnOk result (self.new ≡ judge now self.old) }
        ensures same { OnErr result (self.new ≡ self.old) }
    {
        self.happenings.judge(now, &mut self.calls)
    }
}
