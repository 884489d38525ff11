//! The receivers of a host, and what is noted of when each may act.
ghost use Rattle.std.specs.Prelude.{ℕ, ◌≡◌, ◌+◌, ◌<◌, ◌≤◌, ◌++◌, [], drop, false, length, IfErr, IfOk, IfSome, Some, None, unwrap_or};
ghost use Rattle.std.specs.Option.{option_copied};
ghost use Rattle.std.specs.Map.{lookup};
ghost use Rattle.dt_items.specs.Unread.{items_of, octets_of, piece_told};
ghost use Rattle.dt_layout.specs.Carried.{IsGram};
ghost use Rattle.dt_flow_model.specs.declared.acts.RecvKind.{RecvKind};
ghost use Rattle.dt_flow_model.specs.declared.arrivals.Action.TheVariants.{Make};
ghost use Rattle.dt_flow_model.specs.declared.arrivals.Arrived.TheVariants.{Replied};
ghost use Rattle.dt_flow_model.specs.Frames.{recv_frame, reply_frame};
ghost use Rattle.dt_flow_model.specs.ReceiveRecord.{ReceiveRecord, Receiver as ReceiverState, action_on, after_data, after_meet, after_recv_act, answer_to_close, answer_to_data, answer_to_meet, recv_told_of, recv_wake_of};
ghost use Rattle.dt_world_model.specs.Host.{Host, host_with_receiver, read_octets, receiver_at};
ghost use Rattle.dt_world_model.specs.Tables.{Distinct, earliest, look, same_flow};
ghost use Rattle.dt_host.specs.Notes.{note_of_recv, recv_place};
ghost use Rattle.dt_host.specs.Answers.{IsDataAnswer, IsDataTaken, replied};
ghost use Rattle.dt_host.specs.declared.dues.DueKind.TheVariants as due;
ghost use Rattle.dt_host.specs.Dues.{HasRecvDue, soonest_recv};
ghost use Rattle.dt_host.specs.Hosts.{AreReceiveEntries, receivers_of};
ghost use Rattle.dt_host.specs.Notes.{recv_noted};
ghost use Rattle.dt_table.specs.Places.{equal_flows};
ghost use Rattle.dt_host.specs.Soonest.{IsQuiet, IsSoonest, receiver_moment};

use crate::dues::{DueAct, DueKind};
use dt_flow_model::{Action, Arrived, Reading, RecvAct, RecvKind};
use dt_items::{NoMemory, Piece};
use dt_layout::{Frame, Packet, write_frame};
use dt_recv::{Receiver, Segment, action};
use dt_table::Table;
use dt_units::{Flow, Rules, Steps, earlier};
use std::alloc::Global;
use std::marker::Model;
use std::rc::Rc;
use std::sync::ledger::Ledger;

/// How many moments are noted of a receiver: those of its acts, in the order of their kinds. It is to be
/// woken when an act of any kind is due.
const KINDS: usize = 2;

/// The receivers of a host, and what is noted of when each may act. None of them is idle. A contract sees
/// the parameters, the latest moment, and the receivers with their flows in the order of their making.
#[derive(Drop)]
pub struct RecvSide {
    rules: Rc<Rules>,
    /// The greatest moment that it was given.
    latest: Reading,
    table: Table<Receiver>,
}

impl Model for RecvSide {
    ghost use Rattle.dt_table.specs.Places.{present};
    ghost use Rattle.dt_host.specs.Sides.{IsRecvSide, RecvSideValue};

    ghost Value = { RecvSideValue };

    ghost view = { λ s. record { rules = s.rules.value; latest = s.latest.ms; entries = present s.table.slots.items } };

    ghost invariant = { λ s. IsRecvSide s.rules.value s.table.places s.table.slots.items s.table.agenda };
}

impl RecvSide {
    /// No receivers. What later calls take is taken of `alloc`.
    pub fn new(alloc: Global, rules: Rc<Rules>, latest: Reading) -> Result<RecvSide, NoMemory>
        ensures { IfOk result (λ side. side ≡ record { rules = rules.value; latest = latest.ms; entries = [] }) }
    {
        Ok(RecvSide {
            rules,
            latest,
            table: Table::new(alloc, KINDS)?,
        })
    }

    /// Now becomes the latest moment.
    pub fn reach(&mut self, now: Reading)
        requires past { self.old.latest ≤ now.ms }
        ensures { self.new ≡ record self.old { latest = now.ms } }
    {
        self.latest = now;
    }

    /// The flow's receiver.
    pub fn receiver(&self, flow: &Flow) -> Option<&Receiver>
        ensures value { option_copied result ≡ lookup (equal_flows flow.now) self.now.entries }
    {
        self.table.find(flow)
    }

    /// How many flows have a receiver.
    pub fn count(&self) -> usize
        ensures count { result ≡ length self.now.entries }
        ensures entries { AreReceiveEntries self.now.rules self.now.entries }
        ensures distinct { Distinct same_flow (receivers_of self.now.entries) }
    {
        self.table.places.count()
    }

    /// The act that comes first at now: the best so far, or one of these receivers. Each is looked at.
    pub fn soonest<L: Ledger>(
        &self,
        now: u64,
        best: Option<DueAct>,
        steps: &mut Steps<L>,
    ) -> Option<DueAct>
        ensures { result ≡ soonest_recv now best self.now.entries }
    {
        let mut best = best;
        for slot in self.table.slots.iter() {
            if let Some((flow, receiver)) = slot
                && let Some((kind, moment)) = receiver.due(now, steps)
            {
                let due = DueAct {
                    kind: DueKind::Recv(kind),
                    moment,
                    flow: *flow,
                };
                best = due.first_of(best);
            }
        }
        best
    }

    /// A data packet goes to the flow's receiver. Without one it is made where the table of cases says
    /// so, and else replied to or dropped.
    pub fn on_data<L: Ledger>(
        &mut self,
        flow: &Flow,
        segment: &Segment<'_>,
        reply: &mut Frame,
        steps: &mut Steps<L>,
    ) -> Result<Arrived, NoMemory>
        requires some { 1 ≤ length segment.now.payload.octets.now }
        requires few { length segment.now.payload.octets.now ≤ 8192 }
        ensures answer { let items = items_of segment.now.payload in
            IsDataAnswer self.old.rules flow.now segment.now.drf segment.now.number items self.old.entries result }
        ensures after { let items = items_of segment.now.payload in
            IsDataTaken self.old.rules self.old.latest flow.now segment.now.drf segment.now.number items self.old.entries self.new.entries result }
        ensures reply { reply.new ≡ unwrap_or (replied self.old.rules flow.now result) reply.old }
        ensures gram { IfSome (replied self.old.rules flow.now result) (λ octets. IsGram octets) }
        ensures same { self.new ≡ record self.old { entries = self.new.entries } }
        ensures memory { (host : Host) → let before = record host { receivers = receivers_of self.old.entries } in
            let items = items_of segment.now.payload in
            IfErr result (λ _. (look same_flow flow.now (receivers_of self.old.entries) ≡ None) × (action_on self.old.rules (receiver_at before flow.now) segment.now.drf segment.now.number items ≡ Make)) }
        ensures looks { steps.new ≤ steps.old + 2 }
    {
        if let Some(place) = self.table.place(flow) {
            let Some((_, receiver)) = &mut self.table.slots[place] else {
                unreachable!();
            };
            let arrived = receiver.on_segment(segment, self.latest, reply, steps);
            let note = note_of(receiver, steps);
            self.table.agenda.note(place, &note);
            return Ok(arrived);
        }
        let count = segment.payload.octets.len() as u32;
        let free = self.rules.params().rcap;
        match action(None, segment.drf, segment.number, count, free) {
            Action::Make => self.make(flow, segment, reply, steps),
            Action::TellNumber => Ok(reply_without(&*self.rules, flow, segment.number, reply)),
            _ => Ok(Arrived::Dropped),
        }
    }

    /// Makes the flow's receiver, with these octets unread in it.
    fn make<L: Ledger>(
        &mut self,
        flow: &Flow,
        segment: &Segment<'_>,
        reply: &mut Frame,
        steps: &mut Steps<L>,
    ) -> Result<Arrived, NoMemory>
        requires some { 1 ≤ length segment.now.payload.octets.now }
        requires few { length segment.now.payload.octets.now ≤ 8192 }
        requires none { lookup (equal_flows flow.now) self.old.entries ≡ None }
        requires makes { let items = items_of segment.now.payload in
            action_on self.old.rules (record { unread = []; standing = None }) segment.now.drf segment.now.number items ≡ Make }
        ensures answer { let items = items_of segment.now.payload in
            IsDataAnswer self.old.rules flow.now segment.now.drf segment.now.number items self.old.entries result }
        ensures after { let items = items_of segment.now.payload in
            IsDataTaken self.old.rules self.old.latest flow.now segment.now.drf segment.now.number items self.old.entries self.new.entries result }
        ensures reply { reply.new ≡ unwrap_or (replied self.old.rules flow.now result) reply.old }
        ensures gram { IfSome (replied self.old.rules flow.now result) (λ octets. IsGram octets) }
        ensures same { self.new ≡ record self.old { entries = self.new.entries } }
        ensures looks { steps.new ≤ steps.old + 2 }
    {
        let mut receiver = Receiver::sharing(*self.table.slots.allocator(), &self.rules, *flow)?;
        let arrived = receiver.on_segment(segment, self.latest, reply, steps);
        let note = note_of(&receiver, steps);
        self.table.add(flow, receiver, &note)?;
        Ok(arrived)
    }

    /// A rendezvous packet goes to the flow's receiver. Without one it is replied to with its own number.
    pub fn on_meet<L: Ledger>(
        &mut self,
        flow: &Flow,
        number: u32,
        reply: &mut Frame,
        steps: &mut Steps<L>,
    ) -> Arrived
        ensures met { (host : Host) → let before = record host { receivers = receivers_of self.old.entries } in
            (result ≡ answer_to_meet self.old.rules (receiver_at before flow.now) number)
            × (record host { receivers = receivers_of self.new.entries } ≡ host_with_receiver before flow.now (after_meet self.old.rules (receiver_at before flow.now))) }
        ensures reply { reply.new ≡ unwrap_or (reply_frame self.old.rules flow.now result) reply.old }
        ensures gram { IfSome (reply_frame self.old.rules flow.now result) (λ octets. IsGram octets) }
        ensures same { self.new ≡ record self.old { entries = self.new.entries } }
        ensures looks { steps.new ≤ steps.old + 2 }
    {
        let Some(place) = self.table.place(flow) else {
            return reply_without(&*self.rules, flow, number, reply);
        };
        let Some((_, receiver)) = &mut self.table.slots[place] else {
            unreachable!();
        };
        let arrived = receiver.on_meet(number, self.latest.ms, reply, steps);
        let note = note_of(receiver, steps);
        self.table.agenda.note(place, &note);
        arrived
    }

    /// A closing packet is reported or dropped.
    pub fn on_close<L: Ledger>(&self, flow: &Flow, number: u32, steps: &mut Steps<L>) -> Arrived
        ensures answer { (host : Host) → result ≡ answer_to_close (receiver_at (record host { receivers = receivers_of self.now.entries }) flow.now) number }
        ensures looks { steps.new ≤ steps.old + 1 }
    {
        match self.receiver(flow) {
            Some(receiver) => receiver.on_close(number, steps),
            None => Arrived::Dropped,
        }
    }

    /// Reads unread octets of a flow at the latest moment. A receiver that becomes idle goes.
    pub fn read<L: Ledger>(
        &mut self,
        flow: &Flow,
        buf: &mut [u8],
        steps: &mut Steps<L>,
    ) -> Option<Piece>
        requires room { 0 < length buf.old }
        ensures piece { (host : Host) → let taken = read_octets self.old.rules self.old.latest flow.now (length buf.old) (record host { receivers = receivers_of self.old.entries }) in
            result ≡ piece_told taken.0 }
        ensures octets { (host : Host) → let taken = read_octets self.old.rules self.old.latest flow.now (length buf.old) (record host { receivers = receivers_of self.old.entries }) in
            buf.new ≡ octets_of taken.0 ++ drop (length taken.0) buf.old }
        ensures after { (host : Host) → let taken = read_octets self.old.rules self.old.latest flow.now (length buf.old) (record host { receivers = receivers_of self.old.entries }) in
            record host { receivers = receivers_of self.new.entries } ≡ taken.1 }
        ensures same { self.new ≡ record self.old { entries = self.new.entries } }
        ensures looks { steps.new ≤ steps.old + 2 }
    {
        let place = self.table.place(flow)?;
        let Some((_, receiver)) = &mut self.table.slots[place] else {
            unreachable!();
        };
        let piece = receiver.read(buf, self.latest.ms, steps)?;
        let idle = receiver.is_idle();
        if idle {
            self.table.remove(place, flow);
        } else {
            let note = note_of(receiver, steps);
            self.table.agenda.note(place, &note);
        }
        Some(piece)
    }

    /// Does the act that the flow's receiver has due at the latest moment. A receiver that becomes idle
    /// goes, as after a read.
    pub fn act<L: Ledger>(
        &mut self,
        flow: &Flow,
        frame: &mut Frame,
        steps: &mut Steps<L>,
    ) -> RecvAct
        requires due { (r : ReceiverState) × (y : ReceiveRecord) × (kind : RecvKind) × (moment : ℕ) × HasRecvDue self.old.rules self.old.latest (look same_flow flow.now (receivers_of self.old.entries)) r y kind moment }
        ensures told { (r : ReceiverState) (y : ReceiveRecord) (kind : RecvKind) (moment : ℕ) → HasRecvDue self.old.rules self.old.latest (look same_flow flow.now (receivers_of self.old.entries)) r y kind moment
            → result ≡ recv_told_of self.old.rules r.unread y kind }
        ensures frame { frame.new ≡ unwrap_or (recv_frame self.old.rules flow.now result) frame.old }
        ensures gram { IfSome (recv_frame self.old.rules flow.now result) (λ octets. IsGram octets) }
        ensures after { (r : ReceiverState) (y : ReceiveRecord) (kind : RecvKind) (moment : ℕ) → HasRecvDue self.old.rules self.old.latest (look same_flow flow.now (receivers_of self.old.entries)) r y kind moment
            → (host : Host) → record host { receivers = receivers_of self.new.entries } ≡ host_with_receiver (record host { receivers = receivers_of self.old.entries }) flow.now (after_recv_act self.old.rules r kind) }
        ensures same { self.new ≡ record self.old { entries = self.new.entries } }
        ensures looks { steps.new ≤ steps.old + 2 }
    {
        let Some(place) = self.table.place(flow) else {
            unreachable!();
        };
        let Some((_, receiver)) = &mut self.table.slots[place] else {
            unreachable!();
        };
        let act = receiver.act(self.latest.ms, frame, steps);
        let idle = receiver.is_idle();
        if idle {
            self.table.remove(place, flow);
        } else {
            let note = note_of(receiver, steps);
            self.table.agenda.note(place, &note);
        }
        act
    }

    /// The act of a kind that comes first, where one is due at the latest moment.
    pub fn due(&self, kind: RecvKind) -> Option<DueAct>
        ensures quiet { result ≡ None → IsQuiet (receiver_moment self.now.rules kind) self.now.latest self.now.entries }
        ensures found { IfSome result (λ d. IsSoonest (receiver_moment self.now.rules kind) self.now.latest self.now.entries (due.Recv kind) d) }
    {
        let (moment, place) = self.table.agenda.first(place_of(kind))?;
        if moment > self.latest.ms {
            return None;
        }
        let Some((flow, _)) = &self.table.slots[place] else {
            unreachable!();
        };
        Some(DueAct {
            kind: DueKind::Recv(kind),
            moment,
            flow: *flow,
        })
    }

    /// The least moment at which an act of a receiver is due.
    pub fn wake(&self) -> Option<u64>
        ensures { result ≡ earliest (λ e. recv_wake_of self.now.rules e.1.standing) (receivers_of self.now.entries) }
    {
        earlier(
            self.soonest_of(RecvKind::Release),
            self.soonest_of(RecvKind::Ack),
        )
    }

    /// The least moment at which an act of a kind is due.
    fn soonest_of(&self, kind: RecvKind) -> Option<u64>
        ensures { result ≡ earliest (λ e. receiver_moment self.now.rules kind e.1) self.now.entries }
    {
        let (moment, _) = self.table.agenda.first(place_of(kind))?;
        Some(moment)
    }
}

/// Where the moment of a kind of acts stands in a note.
fn place_of(kind: RecvKind) -> usize
    ensures { result ≡ recv_place kind }
{
    match kind {
        RecvKind::Release => 0,
        RecvKind::Ack => 1,
    }
}

/// What is noted of a receiver.
fn note_of<L: Ledger>(receiver: &Receiver, steps: &mut Steps<L>) -> [Option<u64>; KINDS]
    ensures note { result ≡ note_of_recv (recv_noted receiver.now.rules receiver.now.state) }
    ensures looks { steps.new ≡ steps.old + 1 }
{
    let moments = receiver.moments(steps);
    [moments.release, moments.ack]
}

/// Replies for a flow without a receiver: with this number and the whole queue.
fn reply_without(rules: &Rules, flow: &Flow, number: u32, reply: &mut Frame) -> Arrived
    ensures answer { result ≡ Replied number rules.now.rcap }
    ensures reply { reply.new ≡ unwrap_or (reply_frame rules.now flow.now result) reply.old }
    ensures gram { IfSome (reply_frame rules.now flow.now result) (λ octets. IsGram octets) }
{
    let window = rules.params().rcap;
    let packet = Packet::Ack {
        from_port: flow.to_port,
        to_port: flow.from_port,
        number,
        window,
    };
    write_frame(reply, rules.params().mpl, flow.to.0, flow.from.0, &packet);
    Arrived::Replied { number, window }
}
