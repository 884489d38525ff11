//! The steps for a packet that arrives at a station: admit it, then give it to the host or forward it.
ghost use Rattle.std.specs.Prelude.{◌≡◌, ◌==◌, Ok};
ghost use Rattle.dt_layout.specs.Carried.{IsGram, to_of};
ghost use Rattle.dt_layout.specs.Reading.{packet_read};
ghost use Rattle.dt_layout.specs.Spelling.{KeepsRules, gram_of, packet_of};
ghost use Rattle.dt_world_model.specs.Host.{IsCurrentHost};
ghost use Rattle.dt_world_model.specs.Relay.{admit};
ghost use Rattle.dt_world_model.specs.Script.{Concludes};
ghost use Rattle.dt_world_model.specs.Station.{come, come_in, deliver};
ghost use Rattle.dt_station.specs.Stations.{Stays};

use crate::passing::{pass_on, send_off};
use crate::stations::Station;
use crate::telling::report_of_arrival;
use crate::visitor::Visitor;
use dt_flow_model::Arrived;
use dt_host::flow_of_packet;
use dt_items::NoMemory;
use dt_layout::{Deltagram, Frame, Packet, read_packet};
use dt_relay::Carry;
use dt_reports::Report;
use dt_units::{NodeId, Steps};
use std::sync::ledger::Ledger;

/// A packet that comes on a link: its octets are in the frame.
#[derive(Drop)]
pub(crate) struct Arrival<'f, T> {
    pub(crate) link: u16,
    pub(crate) frame: &'f mut Frame,
    pub(crate) tag: T,
}

impl<P: Carry> Station<P> {
    /// A packet comes. It is admitted first, and reported where it isn't.
    pub(crate) fn receive<V: Visitor<P>, L: Ledger>(
        &mut self,
        came: Arrival<'_, P::Tag>,
        steps: &mut Steps<L>,
        visitor: &mut V,
    ) -> Result<(), NoMemory>
        requires gram { IsGram came.frame.now }
        requires current { IsCurrentHost self.old.rules self.old.latest self.old.state.host }
        ensures ends { let admitted = admit came.entry.link (record { octets = came.entry.frame.now; tag = came.entry.tag }) self.old.state.relay in
            Concludes V.tells (V.tags self.old.latest) V.hands V.fails result (come_in self.old.rules self.old.latest came.entry.link admitted self.old.state) visitor.old visitor.new self.new.state }
        ensures stays { Stays self.old self.new }
    {
        let Arrival { link, frame, tag } = came;
        if !self.relay.admit_frame(link, frame) {
            visitor.tell(&Report::ExpiredIn { link });
            return Ok(());
        }
        self.deliver_or_forward(frame, tag, steps, visitor)
    }

    /// An admitted packet is for this node, or is passed on.
    fn deliver_or_forward<V: Visitor<P>, L: Ledger>(
        &mut self,
        frame: &mut Frame,
        tag: P::Tag,
        steps: &mut Steps<L>,
        visitor: &mut V,
    ) -> Result<(), NoMemory>
        requires gram { IsGram frame.old }
        requires current { IsCurrentHost self.old.rules self.old.latest self.old.state.host }
        ensures ends { Concludes V.tells (V.tags self.old.latest) V.hands V.fails result (come self.old.rules self.old.latest (to_of frame.old == self.old.state.host.me) (record { octets = frame.old; tag = tag }) self.old.state) visitor.old visitor.new self.new.state }
        ensures stays { Stays self.old self.new }
    {
        if Carry::to(frame) != self.host.me().0 {
            return pass_on(&mut *self.relay, frame, tag, self.latest, visitor);
        }
        self.deliver(&frame.as_gram().deltagram(), steps, visitor)
    }

    /// A packet for this node is read and given to the host, and its reply goes off. Octets that don't
    /// read are reported.
    fn deliver<V: Visitor<P>, L: Ledger>(
        &mut self,
        gram: &Deltagram<'_>,
        steps: &mut Steps<L>,
        visitor: &mut V,
    ) -> Result<(), NoMemory>
        requires current { IsCurrentHost self.old.rules self.old.latest self.old.state.host }
        ensures ends { let d = gram_of gram.now in
            Concludes V.tells (V.tags self.old.latest) V.hands V.fails result (deliver self.old.rules self.old.latest d.from (packet_read d) self.old.state) visitor.old visitor.new self.new.state }
        ensures stays { Stays self.old self.new }
    {
        match read_packet(gram) {
            Err(fault) => {
                visitor.tell(&Report::Bad { fault });
                Ok(())
            }
            Ok(packet) => self.hand_to_host(NodeId(gram.from), &packet, steps, visitor),
        }
    }

    /// A packet from a node is given to the host, and its reply goes off, which is made in the station's
    /// frame.
    fn hand_to_host<V: Visitor<P>, L: Ledger>(
        &mut self,
        from: NodeId,
        packet: &Packet<'_>,
        steps: &mut Steps<L>,
        visitor: &mut V,
    ) -> Result<(), NoMemory>
        requires rules { KeepsRules (packet_of packet.now) }
        requires current { IsCurrentHost self.old.rules self.old.latest self.old.state.host }
        ensures ends { Concludes V.tells (V.tags self.old.latest) V.hands V.fails result (deliver self.old.rules self.old.latest from.0 (Ok (packet_of packet.now)) self.old.state) visitor.old visitor.new self.new.state }
        ensures stays { Stays self.old self.new }
    {
        let flow = flow_of_packet(from, self.host.me(), packet);
        let answer = self
            .host
            .arrive(from, packet, self.latest.ms, &mut *self.frame, steps)?;
        visitor.tell(&report_of_arrival(flow, packet, answer));
        if let Arrived::Replied { .. } = answer {
            return send_off(
                &*self.host,
                &mut *self.relay,
                &mut *self.frame,
                self.latest,
                visitor,
            );
        }
        Ok(())
    }
}
