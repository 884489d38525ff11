//! The station: a node's host and relay, and the steps they make in one event.
ghost use Rattle.std.specs.Prelude.{◌≡◌, ◌≤◌, IfOk, None, OnErr, OnOk, false, is_some, length, unwrap_or};
ghost use Rattle.std.specs.Option.{ForSome};
ghost use Rattle.dt_flow_model.specs.Keeping.{most_moment};
ghost use Rattle.dt_layout.specs.Carried.{IsGram};
ghost use Rattle.dt_relay.specs.Carrying.{parcel_seen};
ghost use Rattle.dt_world_model.specs.Host.{IsCurrentHost};
ghost use Rattle.dt_world_model.specs.Script.{Concludes};
ghost use Rattle.dt_relay.specs.Places.{link_of, place_of};
ghost use Rattle.dt_world_model.specs.Relay.{new_relay, route_to};
ghost use Rattle.dt_world_model.specs.Station.{Arrive, station_event, station_wake};
ghost use Rattle.dt_station.specs.Events.{LeavesBuffer, LeavesBufferHere, MayHappen, MayHappenHere, ReadsInto, ReadsIntoHere, event_seen, local_seen};
ghost use Rattle.dt_station.specs.Stations.{Stays, host_started, is_spent_by, station_started, with_route};

use crate::arrivals::Arrival;
use crate::events::{LocalEvent, StationEvent};
use crate::starts::Start;
use crate::visitor::Visitor;
use dt_host::Host;
use dt_items::{MarkedOctets, NoMemory};
use dt_layout::Frame;
use dt_layout::limits::{HEADER, PACKET_HEADER};
use dt_relay::{Carry, InLink, OutLink, Reading, Relay, Route};
use dt_units::{NodeId, Rules, earlier};
use std::alloc::Global;
use std::marker::{Brand, Model};
use std::mem::size_of;
use std::sync::ledger::Blank;

/// A node's host and its relay: what they do in one event.
///
/// Moments are readings of the station's clock in milliseconds, at most 2^62. Each moment that it is
/// given is at least that of the one before.
#[derive(Drop)]
pub struct Station<P: Carry> {
    pub(crate) host: Box<Host>,
    pub(crate) relay: Box<Relay<P>>,
    /// In which the host makes its packets.
    pub(crate) frame: Box<Frame>,
    /// The greatest moment that it was given: in an event, that of the event.
    pub(crate) latest: Reading,
    /// An event found no memory.
    pub(crate) spent: bool,
}

// It holds no packet in place, so that it is as small for any kind of packets.
const _: () = prove!(size_of::<Station<Frame>>() <= 512);

impl<P: Carry> Model for Station<P> {
    ghost use Rattle.dt_world_model.specs.Station.{station_with};
    ghost use Rattle.std.specs.Prelude.{◌≤◌};
    ghost use Rattle.dt_station.specs.Stations.{StationValue};

    ghost Value = { StationValue P.Tag };

    ghost view = { λ s. record { rules = s.host.value.rules; latest = s.latest.ms; spent = s.spent; state = station_with s.host.value.state s.relay.value } };

    ghost invariant = { λ s. s.host.value.latest ≤ s.latest.ms };
}

impl<P: Carry> Station<P> {
    /// The station of a node that starts for the first time, or again at the moment `again`: its host
    /// is that of [`Host::first`] or [`Host::restarted`], and its relay that of [`Relay::new`], over
    /// these links and routes. For each link with a pace it takes the room for 64 frames with the longest
    /// segment at once; `NoMemory` where there is none.
    pub fn new(
        alloc: Global,
        rules: &Rules,
        me: NodeId,
        again: Option<u64>,
        outs: &[OutLink],
        ins: &[InLink],
        routes: &[Route],
    ) -> Result<Station<P>, NoMemory>
        requires moment { ForSome again (λ now. now ≤ most_moment) }
        ensures { IfOk result (λ station. station ≡ station_started rules.now me.0 again outs.now ins.now routes.now) }
    {
        let host = start_host(alloc, rules, me, Start { again })?;
        let relay = start_relay(alloc, longest_frame(rules), outs, ins, routes)?;
        let latest = Reading {
            ms: again.unwrap_or(0),
        };
        Ok(Station {
            host,
            relay,
            frame: Box::new(alloc, Frame::new())?,
            latest,
            spent: false,
        })
    }

    /// Settles, does the event at `now`, and settles again.
    ///
    /// 1. To flush a link is to let packets leave it until none does. Each is reported, and handed to the
    ///    visitor after its report; one that has expired is reported.
    /// 2. To settle is to flush each out link, in their order, and then to do the acts of the host until
    ///    none is due. Each act is reported; then the frame that it made, if it made one, is tagged by the
    ///    visitor, enters the relay, and its link is flushed. One that doesn't enter is reported.
    /// 3. Octets to send are given to the host, and it is reported whether it took them.
    /// 4. Octets that are read are reported, with at most as many as `buf` holds. They stand at its head
    ///    afterwards, and after them what stood there. Only a read needs room there, and only a read
    ///    writes to it.
    /// 5. A packet that comes pays the charge of its link first; where it can't, that is reported.
    /// 6. One that isn't for this node enters the relay, and its link is flushed. It keeps its tag.
    /// 7. One for this node is read and given to the host; the answer is reported, and a reply goes as the
    ///    frame of an act does. Octets that don't read are reported, and change nothing.
    ///
    /// What the visitor is told, asked and handed, and the station after it, is in this order that of
    /// the definition `station_event`. After `NoMemory` it was told, asked and handed a first part of
    /// that, and the station is spent: [`Station::is_spent`].
    ///
    /// Its cost is that of the acts, of the octets, and of the packets that move. For each act the host
    /// looks 4 times at most at the record that acts, and beside it at the senders that hold a segment
    /// whose resend was missed: [`Host::next`]. The event itself has room for a packet and is moved whole:
    /// [`Station::local_event`] and [`Station::arrive`] do the same and move none.
    pub fn event<V: Visitor<P>>(
        &mut self,
        now: u64,
        event: StationEvent<'_, P>,
        buf: &mut [u8],
        visitor: &mut V,
    ) -> Result<(), NoMemory>
        requires unspent { self.old.spent ≡ false }
        requires event { MayHappen P.octets self.old.rules now self.old.state (length buf.old) event }
        requires past { self.old.latest ≤ now }
        requires moment { now ≤ most_moment }
        ensures script { let happens = event_seen (parcel_seen P.octets P.label) (length buf.old) event.entry in
            Concludes V.tells (V.tags now) V.hands V.fails result (station_event self.old.rules now happens self.old.state) visitor.old visitor.new self.new.state }
        // The buffer: what a read that ended well leaves in it, and that any other event leaves it.
        ensures reads { OnOk result (ReadsInto V.tells (V.tags now) V.hands self.old.rules now event.entry self.old.state visitor.old buf.old buf.new) }
        ensures leaves { LeavesBuffer event.entry buf.old buf.new }
        ensures current { OnOk result (IsCurrentHost self.new.rules now self.new.state.host) }
        ensures spent { self.new.spent ≡ is_spent_by result }
        // What never changes, after any answer, and that the moment is the latest one then.
        ensures stays { Stays (record self.old { latest = now }) self.new }
    {
        let now = Reading { ms: now };
        match event {
            StationEvent::Send {
                flow,
                octets,
                begin,
                end,
            } => {
                let sent = MarkedOctets { octets, begin, end };
                self.local_event(now, LocalEvent::Send { flow, sent }, buf, visitor)
            }
            StationEvent::Read { flow } => {
                self.local_event(now, LocalEvent::Read { flow }, buf, visitor)
            }
            StationEvent::Tick => self.local_event(now, LocalEvent::Tick, buf, visitor),
            StationEvent::Arrive { link, packet } => {
                let mut frame = Frame::make(packet.frame(), ());
                self.arrive(now, link, &mut frame, packet.into_tag(), visitor)
            }
        }
    }

    /// The same as [`Station::event`] for an event that brings no packet, so that none is moved. `buf` is
    /// that of a read; any other event leaves it as it is, after any answer.
    pub fn local_event<V: Visitor<P>>(
        &mut self,
        now: Reading,
        event: LocalEvent<'_>,
        buf: &mut [u8],
        visitor: &mut V,
    ) -> Result<(), NoMemory>
        requires unspent { self.old.spent ≡ false }
        requires event { MayHappenHere self.old.rules now.ms self.old.state (length buf.old) event }
        requires past { self.old.latest ≤ now.ms }
        ensures script { Concludes V.tells (V.tags now.ms) V.hands V.fails result (station_event self.old.rules now.ms (local_seen (length buf.old) event.entry) self.old.state) visitor.old visitor.new self.new.state }
        // The buffer: what a read that ended well leaves in it, and that any other event leaves it.
        ensures reads { OnOk result (ReadsIntoHere V.tells (V.tags now.ms) V.hands self.old.rules now.ms event.entry self.old.state visitor.old buf.old buf.new) }
        ensures leaves { LeavesBufferHere event.entry buf.old buf.new }
        ensures current { OnOk result (IsCurrentHost self.new.rules now.ms self.new.state.host) }
        ensures spent { self.new.spent ≡ is_spent_by result }
        // What never changes, after any answer, and that the moment is the latest one then.
        ensures stays { Stays (record self.old { latest = now.ms }) self.new }
    {
        self.latest = now;
        let done = self.do_local_event::<V, Brand>(event, buf, Blank::new(1), visitor);
        self.spent = done.is_err();
        done
    }

    /// The same as [`Station::event`] for a packet that comes on a link, of which the frame has the
    /// octets and `tag` is the tag. They must read as a Deltagram.
    ///
    /// The packet stays where it is: its life is lowered in the frame, and where it goes straight on it
    /// is handed out from there. Nothing is said of what the frame holds afterwards, so it is filled anew
    /// before it is used again. A packet is made of it only where it has to wait for its link.
    pub fn arrive<V: Visitor<P>>(
        &mut self,
        now: Reading,
        link: u16,
        frame: &mut Frame,
        tag: P::Tag,
        visitor: &mut V,
    ) -> Result<(), NoMemory>
        requires unspent { self.old.spent ≡ false }
        requires gram { IsGram frame.old }
        requires past { self.old.latest ≤ now.ms }
        ensures script { let arrives = Arrive link (record { octets = frame.old; tag = tag }) in
            Concludes V.tells (V.tags now.ms) V.hands V.fails result (station_event self.old.rules now.ms arrives self.old.state) visitor.old visitor.new self.new.state }
        ensures current { OnOk result (IsCurrentHost self.new.rules now.ms self.new.state.host) }
        ensures spent { self.new.spent ≡ is_spent_by result }
        // What never changes, after any answer, and that the moment is the latest one then.
        ensures stays { Stays (record self.old { latest = now.ms }) self.new }
    {
        self.latest = now;
        let came = Arrival { link, frame, tag };
        let ended = self.do_arrival::<V, Brand>(came, Blank::new(1), visitor);
        self.spent = ended.is_err();
        ended
    }

    /// The least moment at which an act of the host is due or a packet may leave, or none where there
    /// is no such moment. A tick before it reports nothing, hands out nothing and changes no record and no
    /// queue. It looks at no record, goes over the out links, and takes no memory.
    pub fn wake(&self) -> Option<u64>
        ensures { result ≡ station_wake self.now.rules self.now.state }
    {
        earlier(self.host.wake(), self.relay.wake())
    }

    /// The station's host.
    pub fn host(&self) -> &Host
        ensures rules { result.now.rules ≡ self.now.rules }
        ensures state { result.now.state ≡ self.now.state.host }
    {
        &*self.host
    }

    /// Whether a route names the node. Its cost is that of a look-up.
    pub fn has_route(&self, to: u32) -> bool
        ensures { result ≡ is_some (route_to to self.now.state.relay.routes) }
    {
        self.relay.has_route(to)
    }

    /// Whether packets may leave on the link: it is among the out links. Its cost is that of a look-up.
    pub fn has_out_link(&self, link: u16) -> bool
        ensures { result ≡ is_some (place_of link_of link self.now.state.relay.outs) }
    {
        self.relay.place(link).is_some()
    }

    /// From now on packets to the route's node go by its link, as [`Relay::add_route`] says. No route
    /// may name the node so far. `NoMemory` where there is no room for one more, and then nothing has
    /// changed: the station can go on.
    pub fn add_route(&mut self, route: Route) -> Result<(), NoMemory>
        requires fresh { route_to route.to self.old.state.relay.routes ≡ None }
        ensures done { OnOk result (self.new ≡ with_route route self.old) }
        ensures same { OnErr result (self.new ≡ self.old) }
    {
        self.relay.add_route(route)
    }

    /// Whether an event found no memory. Then the station is used no more.
    pub fn is_spent(&self) -> bool
        ensures { result ≡ self.now.spent }
    {
        self.spent
    }
}

/// The host of a node that starts for the first time, or again.
fn start_host(alloc: Global, rules: &Rules, me: NodeId, start: Start) -> Result<Box<Host>, NoMemory>
    ensures { IfOk result (λ host. host.value ≡ record { rules = rules.now; latest = unwrap_or start.again 0; state = host_started rules.now me.0 start.again }) }
{
    let host = match start.again {
        None => Host::first(alloc, rules, me),
        Some(now) => Host::restarted(alloc, rules, me, now),
    };
    Ok(Box::new(alloc, host?)?)
}

/// The octets of a frame with the longest segment.
fn longest_frame(rules: &Rules) -> usize {
    HEADER + PACKET_HEADER + rules.params().seg as usize
}

/// The relay of [`Relay::new`].
fn start_relay<P: Carry>(
    alloc: Global,
    longest: usize,
    outs: &[OutLink],
    ins: &[InLink],
    routes: &[Route],
) -> Result<Box<Relay<P>>, NoMemory>
    ensures { IfOk result (λ relay. relay.value ≡ new_relay outs.now ins.now routes.now) }
{
    Ok(Box::new(alloc, Relay::new(alloc, longest, outs, ins, routes)?)?)
}
