//! A node without a socket, a clock or a thread: its calls, and what is pulled after them.
ghost use Rattle.std.specs.Prelude.{ℕ, [], ◌≡◌, ◌+◌, ◌<◌, ◌≤◌, ◌++◌, false, IfOk, OnOk, OnErr, is_some, drop, length, option_map, option_to_list, take};
ghost use Rattle.std.specs.Result.{result_err};
ghost use Rattle.dt_reports.specs.Told.{told};
ghost use Rattle.dt_flow_model.specs.Keeping.{most_moment, octets_below};
ghost use Rattle.dt_flow_model.specs.ReceiveRecord.{expected_of};
ghost use Rattle.dt_world_model.specs.Host.{receiver_at};
ghost use Rattle.dt_world_model.specs.Relay.{route_to};
ghost use Rattle.dt_world_model.specs.Tables.{has_key, look, same_flow};
ghost use Rattle.dt_station.specs.Events.{MayHappenHere, local_seen};
ghost use Rattle.dt_endpoint.specs.declared.heard_answers.HeardAnswer.TheVariants.{Nothing};
ghost use Rattle.dt_layout.specs.Carried.{life_of};
ghost use Rattle.dt_endpoint.specs.Calls.{AddsRoute, ArriveDoes, Arrives, arrive_event, arrive_refusal, Reads, Sends, Ticks, piece_by, sent_by};
ghost use Rattle.dt_endpoint.specs.Endpoints.{EventEnds, capped, endpoint_wake, moment_of, opened, script_of, waiting_octets, with_followed};
ghost use Rattle.dt_world_laws.specs.Counting.{octets_sent};
ghost use Rattle.dt_endpoint.specs.Hearing.{heard_in, piece_in};
ghost use Rattle.dt_endpoint.specs.Waking.{IsUpToDate};

use crate::answers::{Delivered, Received, Routed, Sent, Ticked};
use crate::collectors::Collector;
use crate::counts::{Counts, Octets};
use crate::events::{collect_event, receive};
use crate::frames::OutFrame;
use crate::heard_answers::HeardAnswer;
use crate::links::{Links, has_link};
use dt_items::{MarkedOctets, NoMemory};
use dt_layout::{Frame, GramOctets};
use dt_reports::{Refusal, Report};
use dt_station::{InLink, LocalEvent, Route, Station};
use dt_units::{Flow, NodeId, Rules};
use std::alloc::Global;
use std::marker::Model;

/// The greatest moment: a later one counts as it.
const MOST_MOMENT: u64 = 1 << 62;

/// A send is refused if all sends and reads together would ask for this many octets or more.
const ASKED_LIMIT: u64 = 1 << 62;

/// A node without a socket, a clock or a thread of its own.
///
/// Each event is handed the moment in milliseconds. One that is before that of an earlier event counts as
/// that, and one above 2^62 as 2^62. What leaves and what is reported waits until it is pulled.
///
/// After an event that found no memory the endpoint is spent: no further event is done. What waits can be
/// pulled.
#[derive(Drop)]
pub struct Endpoint {
    station: Station<Frame>,
    collector: Collector,
    /// The links on which packets come.
    ins: Vec<InLink>,
    /// Holds the datagram that comes.
    slot: Box<Frame>,
    /// The greatest moment that an event had.
    latest: u64,
    /// How many octets sends have handed in.
    asked: u64,
    spent: bool,
}

impl Model for Endpoint {
    ghost use Rattle.dt_endpoint.specs.Endpoints.{EndpointValue, IsEndpoint};

    ghost Value = { EndpointValue };

    ghost view = { λ e. record { rules = e.station.rules; latest = e.latest; spent = e.spent; asked = e.asked; state = e.station.state; frames = e.collector.frames; reports = e.collector.reports; counts = e.collector.counts } };

    ghost invariant = { λ e. IsEndpoint e.latest e.asked e.spent e.ins.items e.station e.collector };
}

impl Endpoint {
    /// The endpoint of a node that starts for the first time, or again at the moment `again`: then it
    /// takes no octets until `3 mpl + r + a` have passed. One that is known to have sent and accepted
    /// nothing for so long may open without `again`: law `node_that_was_away_opens_at_once` of dt_network.
    ///
    /// It takes the room for what may wait on each out link; `NoMemory` where there is none, and it is the
    /// only error.
    pub fn open(
        alloc: Global,
        rules: &Rules,
        me: NodeId,
        again: Option<u64>,
        links: &Links<'_>,
    ) -> Result<Endpoint, NoMemory>
        ensures { IfOk result (λ e. e ≡ opened rules.now me.0 again links.now.outs.now links.now.ins.now links.now.routes.now) }
    {
        let again = cap_moment(again);
        let Links { outs, ins, routes } = *links;
        let station = Station::new(alloc, rules, me, again, outs, ins, routes)?;
        Ok(Endpoint {
            station,
            collector: Collector::new(alloc),
            ins: Vec::from_slice(alloc, ins)?,
            slot: Box::new(alloc, Frame::new())?,
            latest: again.unwrap_or(0),
            asked: 0,
            spent: false,
        })
    }

    /// One event that brings no packet. What is heard of it is answered, and a piece that is read stands at
    /// the head of the buffer.
    fn event(
        &mut self,
        now: u64,
        event: LocalEvent<'_>,
        buf: &mut [u8],
    ) -> Result<HeardAnswer, NoMemory>
        requires unspent { self.old.spent ≡ false }
        requires may { MayHappenHere self.old.rules (moment_of now self.old) self.old.state (length buf.old) event }
        requires few { self.old.asked + octets_sent (local_seen (length buf.old) event) < octets_below }
        ensures ends { EventEnds result now (local_seen (length buf.old) event.entry) self.old self.new }
        ensures heard { IfOk result (λ heard. heard ≡ heard_in (script_of now (local_seen (length buf.old) event.entry) self.old) Nothing) }
        ensures piece { let piece = piece_in (script_of now (local_seen (length buf.old) event.entry) self.old) [] in
            OnOk result (length piece ≤ length buf.old → take (length piece) buf.new ≡ piece) }
    {
        let now = self.moment_at(now);
        self.latest = now;
        self.asked += octets_in(&event);
        let done = collect_event(&mut self.station, &mut self.collector, now, event, buf);
        if done.is_err() {
            self.spent = true;
            return Err(NoMemory);
        }
        let piece = self.collector.piece();
        if piece.len() <= buf.len() {
            buf[..piece.len()].copy_from_slice(piece);
        }
        Ok(self.collector.heard())
    }

    /// A datagram comes on a link, and has more life than it waited.
    fn admit(&mut self, now: u64, link: u16, gram: GramOctets<'_>, waited: u32) -> Received
        requires unspent { self.old.spent ≡ false }
        requires life { waited < life_of gram.octets.now }
        ensures { ArriveDoes result now (arrive_event link gram.entry.octets.now waited) self.old self.new }
    {
        let now = self.moment_at(now);
        gram.copy_into(&mut *self.slot);
        self.slot.lower(waited);
        self.latest = now;
        self.collector.count_arrival();
        let done = receive(
            &mut self.station,
            &mut self.collector,
            now,
            link,
            &mut *self.slot,
        );
        if done.is_err() {
            self.spent = true;
            return Received::NoMemory;
        }
        Received::Done
    }

    /// What is due at `now` is done: frames leave, go again or are given up, records are released. A tick
    /// before [`Endpoint::wake`] does nothing, and one that comes late does all that has become due.
    pub fn tick(&mut self, now: u64) -> Ticked
        ensures { Ticks result now self.old self.new }
    {
        if self.spent {
            return Ticked::Spent;
        }
        match self.event(now, LocalEvent::Tick, &mut []) {
            Ok(_) => Ticked::Done,
            Err(NoMemory) => Ticked::NoMemory,
        }
    }

    /// A datagram came on a link, and waited so many milliseconds on this machine until this call. They are
    /// taken off its life, beside the link's charge: rounded up, no old packet passes for a young one. It
    /// may be any octets. It is copied once.
    pub fn arrive(&mut self, now: u64, link: u16, datagram: &[u8], waited: u32) -> Received
        ensures { Arrives result now link datagram.now waited self.old self.new }
    {
        match self.check(link, datagram, waited) {
            Err(refusal) => {
                self.collector.count_refusal();
                refusal
            }
            Ok(gram) => self.admit(now, link, gram, waited),
        }
    }

    /// A datagram that would come, or why [`Endpoint::arrive`] would refuse it. Nothing changes.
    pub fn check<'a>(
        &self,
        link: u16,
        datagram: &'a [u8],
        waited: u32,
    ) -> Result<GramOctets<'a>, Received>
        ensures refusal { result_err result ≡ arrive_refusal link datagram.now waited self.now }
        ensures unspent { OnOk result (self.now.spent ≡ false) }
        ensures same { IfOk result (λ gram. gram.octets.now ≡ datagram.now) }
        ensures life { IfOk result (λ gram. waited < life_of gram.octets.now) }
    {
        if self.spent {
            return Err(Received::Spent);
        }
        if !has_link(link, &self.ins) {
            return Err(Received::NoLink);
        }
        match GramOctets::read(datagram) {
            Err(fault) => Err(Received::Bad { fault }),
            Ok(gram) if gram.life() <= waited => Err(Received::Stale),
            Ok(gram) => Ok(gram),
        }
    }

    /// From now on packets to the route's node go by its link, as they do by a route of the opening. The
    /// cause of each refusal is that of its name, the first of `Spent`, `NoLink` and `Known`.
    /// [`Endpoint::has_route`] says whether there is a route. Its cost is that of two look-ups. A node
    /// that opens again begins with the routes that are handed in then.
    pub fn add_route(&mut self, route: Route) -> Routed
        ensures { AddsRoute result route self.old self.new }
    {
        if self.spent {
            return Routed::Spent;
        }
        if !self.station.has_out_link(route.link) {
            return Routed::NoLink;
        }
        if self.station.has_route(route.to) {
            return Routed::Known;
        }
        match self.station.add_route(route) {
            Ok(()) => Routed::Done,
            Err(NoMemory) => Routed::NoMemory,
        }
    }

    /// Whether a route names the node.
    pub fn has_route(&self, to: NodeId) -> bool
        ensures { result ≡ is_some (route_to to.0 self.now.state.relay.routes) }
    {
        self.station.has_route(to.0)
    }

    /// Octets are sent on a flow from this node to another. The first begins a message and the last ends
    /// one, where that is asked for. All of them are taken or none. What came of them is said by reports:
    /// `Settled` that they are acknowledged, `Uncertain` that it isn't known whether they came.
    pub fn send(&mut self, now: u64, flow: Flow, octets: &[u8], begin: bool, end: bool) -> Sent
        ensures { Sends result now flow octets.now begin end self.old self.new }
    {
        if self.spent {
            return Sent::Spent;
        }
        let me = self.station.host().me();
        if flow.from != me || flow.to == me {
            return Sent::BadFlow;
        }
        if octets.is_empty() {
            return Sent::Empty;
        }
        if octets.len() as u64 >= ASKED_LIMIT - self.asked {
            return Sent::TooMany;
        }
        let sent = MarkedOctets { octets, begin, end };
        match self.event(now, LocalEvent::Send { flow, sent }, &mut []) {
            Ok(heard) => sent_by(heard),
            Err(NoMemory) => Sent::NoMemory,
        }
    }

    /// Unread octets of a flow from another node to this one are read, at most as many as the buffer
    /// holds. They are of one message, and none between them is lost: where octets before them are, or may
    /// be, the piece has a run mark. After them the buffer may have been written to.
    pub fn read(&mut self, now: u64, flow: Flow, buf: &mut [u8]) -> Delivered
        ensures { Reads result now flow (length buf.old) buf.new self.old self.new }
    {
        if self.spent {
            return Delivered::Spent;
        }
        let me = self.station.host().me();
        if flow.to != me || flow.from == me {
            return Delivered::BadFlow;
        }
        if buf.is_empty() {
            return Delivered::NoRoom;
        }
        match self.event(now, LocalEvent::Read { flow }, buf) {
            Ok(heard) => piece_by(heard),
            Err(NoMemory) => Delivered::NoMemory,
        }
    }

    /// The frame that left first of those that wait, which it goes on doing: a caller without room for it
    /// leaves it.
    pub fn first_frame(&self) -> Option<&OutFrame>
        ensures { self.now.frames ≡ option_to_list (option_map (λ f. f.now) result) ++ drop 1 self.now.frames }
    {
        self.collector.first_frame()
    }

    /// The frame that left first of those that wait. It waits no more.
    pub fn next_frame(&mut self) -> Option<OutFrame>
        ensures first { self.old.frames ≡ option_to_list result ++ self.new.frames }
        ensures others { self.new ≡ record self.old { frames = drop 1 self.old.frames } }
    {
        self.collector.next_frame()
    }

    /// The report that was made first of those that wait. It waits no more. A piece that was read is reported
    /// without its octets.
    pub fn next_report(&mut self) -> Option<Report<'static>>
        ensures first { self.old.reports ≡ option_to_list (option_map told result) ++ self.new.reports }
        ensures others { self.new ≡ record self.old { reports = drop 1 self.old.reports } }
    {
        self.collector.next_report()
    }

    /// The least moment in milliseconds at which something is due, or none where there is no such moment:
    /// the moment of the next tick. Any event may change it. A spent endpoint has none.
    ///
    /// Nothing is due at the greatest moment that an event had, and the wake is after that moment, unless
    /// it is that of a resend that was missed.
    pub fn wake(&self) -> Option<u64>
        ensures wake { result ≡ endpoint_wake self.now }
        ensures idle { self.now.spent ≡ false → IsUpToDate self.now.rules self.now.latest self.now.state }
    {
        if self.spent {
            return None;
        }
        self.station.wake()
    }

    /// The node.
    pub fn me(&self) -> NodeId
        ensures { result.0 ≡ self.now.state.host.me }
    {
        self.station.host().me()
    }

    /// The parameters.
    pub fn rules(&self) -> &Rules
        ensures { result.now ≡ self.now.rules }
    {
        self.station.host().rules()
    }

    /// The greatest moment that an event had, in milliseconds: 0 before the first event of a node that
    /// started for the first time.
    pub fn latest(&self) -> u64
        ensures { result ≡ self.now.latest }
    {
        self.latest
    }

    /// The moment in milliseconds that an event has to which this one is given: no less than that of an
    /// earlier event, and 2^62 at most.
    pub fn moment_at(&self, now: u64) -> u64
        ensures moment { result ≡ moment_of now self.now }
        ensures within { result ≤ most_moment }
    {
        self.latest.max(now.min(MOST_MOMENT))
    }

    /// How many octets sends have handed in since the endpoint opened, also where they weren't taken.
    pub fn asked(&self) -> u64
        ensures { result ≡ self.now.asked }
    {
        self.asked
    }

    /// How many octets of a flow were taken and haven't been sent so far.
    pub fn waiting(&self, flow: &Flow) -> u32
        ensures { result ≡ waiting_octets flow.now self.now.state.host }
    {
        self.station.host().waiting(flow)
    }

    /// Whether a flow has a receiver: one that was released stands as long as it has octets that weren't
    /// read.
    pub fn has_receiver(&self, flow: &Flow) -> bool
        ensures { result ≡ has_key same_flow flow.now self.now.state.host.receivers }
    {
        self.station.host().has_receiver(flow)
    }

    /// The number that a flow's receiver expects next, or none where no receive record stands, as the last
    /// event left it. Its cost is that of a look-up.
    pub fn expected(&self, flow: &Flow) -> Option<u32>
        ensures { result ≡ expected_of (receiver_at self.now.state.host flow.now).standing }
    {
        self.station.host().expected(flow)
    }

    /// How many flows have a receiver, as the last event left them: a tick releases those that are due.
    pub fn receivers(&self) -> usize
        ensures { result ≡ length self.now.state.host.receivers }
    {
        self.station.host().receivers()
    }

    /// What was counted since the endpoint opened. Its cost is that of a copy.
    pub fn counts(&self) -> Counts
        ensures { result ≡ self.now.counts.node }
    {
        self.collector.counts()
    }

    /// From now on it is counted what is reported of the octets of a flow, from this node or to it:
    /// [`Endpoint::totals`]. A flow that is followed already stays as it is. What is followed is the
    /// program's choice, so that strangers don't make the endpoint grow; it is followed until the
    /// endpoint goes. `NoMemory` changes nothing, and the endpoint isn't spent.
    pub fn follow(&mut self, flow: &Flow) -> Result<(), NoMemory>
        ensures done { OnOk result (self.new ≡ with_followed flow.now self.old) }
        ensures same { OnErr result (self.new ≡ self.old) }
    {
        self.collector.follow(flow)
    }

    /// The octets of a flow, by what was reported of them since it is followed, or none where it isn't. Its
    /// cost is that of a look-up.
    pub fn totals(&self, flow: &Flow) -> Option<Octets>
        ensures { result ≡ look same_flow flow.now self.now.counts.flows }
    {
        self.collector.totals(flow)
    }

    /// Whether an event found no memory.
    pub fn is_spent(&self) -> bool
        ensures { result ≡ self.now.spent }
    {
        self.spent
    }
}

/// The moment at which a node starts again, 2^62 at most.
fn cap_moment(again: Option<u64>) -> Option<u64>
    ensures { result ≡ option_map capped again }
{
    match again {
        Some(now) => Some(now.min(MOST_MOMENT)),
        None => None,
    }
}

/// How many octets an event sends.
fn octets_in(event: &LocalEvent<'_>) -> u64
    ensures { (most : ℕ) → result ≡ octets_sent (local_seen most event.now) }
{
    match event {
        LocalEvent::Send { sent, .. } => sent.octets.len() as u64,
        _ => 0,
    }
}

/// The answer to a send, by what was heard.
fn sent_by(heard: HeardAnswer) -> Sent
    ensures { result ≡ sent_by heard }
{
    match heard {
        HeardAnswer::Refused {
            fault: Refusal::Quiet { until },
        } => Sent::Quiet { until },
        HeardAnswer::Refused {
            fault: Refusal::Full { free },
        } => Sent::Full { free },
        _ => Sent::Done,
    }
}

/// The answer to a read, by what was heard.
fn piece_by(heard: HeardAnswer) -> Delivered
    ensures { result ≡ piece_by heard }
{
    match heard {
        HeardAnswer::Piece(read) => Delivered::Read {
            len: read.len,
            run: read.run,
            begin: read.begin,
            end: read.end,
        },
        _ => Delivered::Nothing,
    }
}
