//! The parts of a service, and its turns.
ghost use Rattle.std.specs.Prelude.{◌≡◌, ◌&&◌, false, IfOk, OnErr, OnOk, if◌then◌else◌};
ghost use Rattle.dt_service_model.specs.CallBook.{may_read};
ghost use Rattle.dt_service_model.specs.Stopping.{EndStops, ReadStops};
ghost use Rattle.dt_service_model.specs.Turns.{Node, comes_in, hears, read_flow, read_if, read_times, reads, turn_end};
ghost use Rattle.dt_service.specs.Nodes.{FlowStops, HearingStops, node_in};

use crate::reading::{ROOM, read_piece};
use dt_call_book::CallBook;
use dt_endpoint::Endpoint;
use dt_items::NoMemory;
use dt_units::Flow;
use std::alloc::Global;

/// No receiver has more unread octets than 65,536, so one read more finds nothing.
const MOST_READS: u32 = 65_537;

/// An endpoint, and what stands beside it.
#[derive(Drop)]
pub struct ServiceParts {
    pub alloc: Global,
    pub endpoint: Endpoint,
    pub book: CallBook,
    /// The message that is sent.
    pub message: Vec<u8>,
    /// Takes the octets of a read.
    pub room: Box<[u8; ROOM]>,
}

impl ServiceParts {
    /// What the endpoint has reported is heard, and waits no more.
    pub fn hear_reports(&mut self) -> Result<(), NoMemory>
        ensures heard { OnOk result (node_in self.new ≡ hears (node_in self.old)) }
        ensures room { self.new.room.value ≡ self.old.room.value }
        ensures stops { OnErr result (HearingStops (node_in self.old) (node_in self.new)) }
    {
        while let Some(report) = self.endpoint.next_report() {
            self.book.hear(&report)?;
        }
        Ok(())
    }

    /// Whether a flow comes to this node from another, and may be read.
    fn may_read(&self, flow: &Flow) -> bool
        ensures { result ≡ (comes_in (node_in self.now) flow.now && may_read flow.now self.now.book) }
    {
        let me = self.endpoint.me();
        flow.to == me && flow.from != me && self.book.may_read(flow)
    }

    /// Reads a flow once, if it may be read, and answers whether more of it may be.
    fn read(&mut self, now: u64, flow: &Flow) -> Result<bool, NoMemory>
        ensures read { IfOk result (λ goes_on. (again : Node → Node) → read_if again now flow.now (node_in self.old) ≡ (if goes_on then again (node_in self.new) else node_in self.new)) }
        ensures stops { OnErr result (ReadStops now flow.now (node_in self.old) (node_in self.new)) }
    {
        if !self.may_read(flow) {
            return Ok(false);
        }
        let found = read_piece(&mut self.endpoint, now, *flow, &mut *self.room)?;
        self.hear_reports()?;
        let Some(found) = found else {
            self.book.done_with(flow);
            return Ok(false);
        };
        self.book
            .take_piece(self.alloc, *flow, found.marks, &self.room[..found.len])?;
        Ok(true)
    }

    /// Reads a flow `most` times, or until nothing is there or it may be read no more.
    fn read_times(&mut self, most: u32, now: u64, flow: &Flow) -> Result<(), NoMemory>
        ensures read { OnOk result (node_in self.new ≡ read_times most now flow.now (node_in self.old)) }
        ensures stops { OnErr result (FlowStops now flow.now (node_in self.old) (node_in self.new)) }
    {
        for _ in 0..most {
            if !self.read(now, flow)? {
                return Ok(());
            }
        }
        Ok(())
    }

    /// Reads a flow until nothing is there or it may be read no more.
    fn read_flow(&mut self, now: u64, flow: &Flow) -> Result<(), NoMemory>
        ensures read { OnOk result (node_in self.new ≡ read_flow now (node_in self.old) flow.now) }
        ensures stops { OnErr result (FlowStops now flow.now (node_in self.old) (node_in self.new)) }
    {
        self.read_times(MOST_READS, now, flow)
    }

    /// Reads the flows at which something may be unread.
    fn read_all(&mut self, now: u64) -> Result<(), NoMemory>
        ensures read { OnOk result (node_in self.new ≡ reads now (node_in self.old)) }
        ensures stops { OnErr result (EndStops now (node_in self.old) (node_in self.new)) }
    {
        let flows = self.book.unread(self.alloc)?;
        for flow in &flows {
            self.read_flow(now, flow)?;
        }
        Ok(())
    }

    /// The end of a turn: what is unread is read, and then calls are judged.
    pub fn end_turn(&mut self, now: u64) -> Result<(), NoMemory>
        ensures ended { OnOk result (node_in self.new ≡ turn_end now (node_in self.old)) }
        ensures stops { OnErr result (EndStops now (node_in self.old) (node_in self.new)) }
    {
        self.read_all(now)?;
        self.book.sweep(&self.endpoint);
        self.book.judge(self.endpoint.moment_at(now))
    }
}
