//! One event at a station: settling, then the send, read, tick or arrival, then settling again.
ghost use Rattle.std.specs.Prelude.{◌≡◌, ◌<◌, ◌≤◌, length, OnOk};
ghost use Rattle.dt_items.specs.Unread.{items_of, octets_of, piece_told};
ghost use Rattle.dt_layout.specs.Carried.{IsGram};
ghost use Rattle.dt_world_model.specs.Host.{IsCurrentHost, read_octets, send_octets};
ghost use Rattle.dt_world_model.specs.Script.{Concludes, Done, Tell};
ghost use Rattle.dt_world_model.specs.Station.{Arrive, happen, settle_station, station_event, station_with, told_piece, told_sent};
ghost use Rattle.dt_station.specs.Events.{IsBufferNow, LeavesBufferHere, MayHappenHere, MayHappenHereNow, MaySendNow, ReadsIntoHere, local_seen, read_into};
ghost use Rattle.dt_station.specs.Stations.{Stays};

use crate::arrivals::Arrival;
use crate::events::LocalEvent;
use crate::flushing::flush_all;
use crate::stations::Station;
use crate::visitor::Visitor;
use dt_host::{Host, SendFault};
use dt_items::{MarkedOctets, NoMemory};
use dt_relay::Carry;
use dt_reports::{Refusal, Report};
use dt_units::{Flow, Steps};
use std::sync::ledger::{Blank, Ledger};

impl<P: Carry> Station<P> {
    /// Settles, does an event that brings no packet, and settles again, with a count of looks of its own.
    pub(crate) fn do_local_event<V: Visitor<P>, L: Ledger>(
        &mut self,
        event: LocalEvent<'_>,
        buf: &mut [u8],
        ledger: Blank,
        visitor: &mut V,
    ) -> Result<(), NoMemory>
        requires name { ledger.name ≡ L.name }
        requires parts { ledger.parts ≡ L.parts }
        requires some { 0 < ledger.parts }
        requires event { MayHappenHere self.old.rules self.old.latest self.old.state (length buf.old) event }
        ensures ends { Concludes V.tells (V.tags self.old.latest) V.hands V.fails result (station_event self.old.rules self.old.latest (local_seen (length buf.old) event.entry) self.old.state) visitor.old visitor.new self.new.state }
        ensures reads { OnOk result (ReadsIntoHere V.tells (V.tags self.old.latest) V.hands self.old.rules self.old.latest event.entry self.old.state visitor.old buf.old buf.new) }
        ensures leaves { LeavesBufferHere event.entry buf.old buf.new }
        ensures current { OnOk result (IsCurrentHost self.new.rules self.new.latest self.new.state.host) }
        ensures stays { Stays self.old self.new }
    {
        let mut steps = Steps::<L>::new(ledger);
        self.settle(&mut steps, visitor)?;
        self.handle_local(event, buf, &mut steps, visitor)?;
        self.settle(&mut steps, visitor)
    }

    /// Settles, takes in a packet, and settles again, with a count of looks of its own.
    pub(crate) fn do_arrival<V: Visitor<P>, L: Ledger>(
        &mut self,
        came: Arrival<'_, P::Tag>,
        ledger: Blank,
        visitor: &mut V,
    ) -> Result<(), NoMemory>
        requires name { ledger.name ≡ L.name }
        requires parts { ledger.parts ≡ L.parts }
        requires some { 0 < ledger.parts }
        requires gram { IsGram came.frame.now }
        ensures ends { let arrives = Arrive came.entry.link (record { octets = came.entry.frame.now; tag = came.entry.tag }) in
            Concludes V.tells (V.tags self.old.latest) V.hands V.fails result (station_event self.old.rules self.old.latest arrives self.old.state) visitor.old visitor.new self.new.state }
        ensures current { OnOk result (IsCurrentHost self.new.rules self.new.latest self.new.state.host) }
        ensures stays { Stays self.old self.new }
    {
        let mut steps = Steps::<L>::new(ledger);
        self.settle(&mut steps, visitor)?;
        self.receive(came, &mut steps, visitor)?;
        self.settle(&mut steps, visitor)
    }

    /// Flushes each link, in the order of the links, and does what the host has to do.
    fn settle<V: Visitor<P>, L: Ledger>(
        &mut self,
        steps: &mut Steps<L>,
        visitor: &mut V,
    ) -> Result<(), NoMemory>
        ensures ends { Concludes V.tells (V.tags self.old.latest) V.hands V.fails result (settle_station self.old.rules self.old.latest self.old.state) visitor.old visitor.new self.new.state }
        ensures current { OnOk result (IsCurrentHost self.new.rules self.new.latest self.new.state.host) }
        ensures stays { Stays self.old self.new }
    {
        flush_all(&mut *self.relay, self.latest, visitor)?;
        self.do_turns(steps, visitor)
    }

    /// The event itself, which brings no packet. The relay has no part in it.
    fn handle_local<V: Visitor<P>, L: Ledger>(
        &mut self,
        event: LocalEvent<'_>,
        buf: &mut [u8],
        steps: &mut Steps<L>,
        visitor: &mut V,
    ) -> Result<(), NoMemory>
        requires event { MayHappenHereNow self.old.rules self.old.latest self.old.state.host (length buf.old) event }
        requires current { IsCurrentHost self.old.rules self.old.latest self.old.state.host }
        ensures ends { Concludes V.tells (V.tags self.old.latest) V.hands V.fails result (happen self.old.rules self.old.latest (local_seen (length buf.old) event.entry) self.old.state) visitor.old visitor.new self.new.state }
        ensures buf { IsBufferNow self.old.rules self.old.latest self.old.state.host event.entry buf.old buf.new }
        ensures stays { Stays self.old self.new }
    {
        match event {
            LocalEvent::Send { flow, sent } => self.send(&flow, &sent, steps, visitor),
            LocalEvent::Read { flow } => {
                self.read(&flow, buf, steps, visitor);
                Ok(())
            }
            LocalEvent::Tick => Ok(()),
        }
    }

    /// Octets are sent, and it is reported whether they were taken. Want of memory is no refusal: nothing is
    /// reported.
    fn send<V: Visitor<P>, L: Ledger>(
        &mut self,
        flow: &Flow,
        sent: &MarkedOctets<'_>,
        steps: &mut Steps<L>,
        visitor: &mut V,
    ) -> Result<(), NoMemory>
        requires may { MaySendNow self.old.rules self.old.latest self.old.state.host flow.now (length sent.now.octets.now) }
        requires current { IsCurrentHost self.old.rules self.old.latest self.old.state.host }
        ensures ends { let asked = send_octets self.old.rules self.old.latest flow.now (items_of sent.now) self.old.state.host in
            Concludes V.tells (V.tags self.old.latest) V.hands V.fails result (Tell (told_sent flow.now (length sent.now.octets.now) asked.0) (Done (station_with asked.1 self.old.state.relay))) visitor.old visitor.new self.new.state }
        ensures stays { Stays self.old self.new }
    {
        let asked = self.host.send(
            flow,
            sent.octets,
            sent.begin,
            sent.end,
            self.latest.ms,
            steps,
        );
        match asked {
            Ok(()) => {
                let count = taken_count(&*self.host, sent.octets);
                visitor.tell(&Report::Took { flow: *flow, count });
                Ok(())
            }
            Err(SendFault::NoMemory) => Err(NoMemory),
            Err(SendFault::Quiet { until }) => {
                let fault = Refusal::Quiet { until };
                visitor.tell(&Report::Refused { flow: *flow, fault });
                Ok(())
            }
            Err(SendFault::Full { free }) => {
                let fault = Refusal::Full { free };
                visitor.tell(&Report::Refused { flow: *flow, fault });
                Ok(())
            }
        }
    }

    /// Unread octets are read into the buffer and reported, or that there are none.
    fn read<V: Visitor<P>, L: Ledger>(
        &mut self,
        flow: &Flow,
        buf: &mut [u8],
        steps: &mut Steps<L>,
        visitor: &mut V,
    )
        requires room { 0 < length buf.old }
        requires current { IsCurrentHost self.old.rules self.old.latest self.old.state.host }
        ensures told { let taken = read_octets self.old.rules self.old.latest flow.now (length buf.old) self.old.state.host in
            V.tells visitor.old (told_piece flow.now (octets_of taken.0) (piece_told taken.0)) visitor.new }
        ensures after { let taken = read_octets self.old.rules self.old.latest flow.now (length buf.old) self.old.state.host in
            self.new ≡ record self.old { state = station_with taken.1 self.old.state.relay } }
        ensures filled { buf.new ≡ read_into self.old.rules self.old.latest flow.now buf.old self.old.state.host }
    {
        match self.host.read(flow, buf, self.latest.ms, steps) {
            None => visitor.tell(&Report::Nothing { flow: *flow }),
            Some(piece) => visitor.tell(&Report::Read {
                flow: *flow,
                run: piece.run,
                begin: piece.begin,
                end: piece.end,
                octets: &buf[..piece.len],
            }),
        }
    }
}

/// How many octets a host took: at most the capacity of a sender.
fn taken_count(host: &Host, octets: &[u8]) -> u32
    requires { length octets.now ≤ host.now.rules.cap }
    ensures { result ≡ length octets.now }
{
    let cap = host.rules().params().cap;
    let within = octets.len() <= cap as usize;
    prove!(within);
    octets.len() as u32
}
