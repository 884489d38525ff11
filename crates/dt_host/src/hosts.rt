//! The host of a node: its senders, its receivers, and which of them acts next.
ghost use Rattle.std.specs.Prelude.{◌≡◌, ◌≢◌, ◌+◌, ◌<◌, ◌≤◌, ◌↔◌, [], ◌++◌, drop, false, length, IfErr, IfOk, IfSome, IsErr, IsTrue, Some, None, option_map, unwrap_or};
ghost use Rattle.dt_items.specs.Unread.{marked, octets_of, piece_told};
ghost use Rattle.dt_layout.specs.Carried.{IsGram};
ghost use Rattle.dt_layout.specs.Spelling.{KeepsRules, packet_of};
ghost use Rattle.dt_flow_model.specs.Acting.{record_for};
ghost use Rattle.dt_flow_model.specs.Frames.{flow_of};
ghost use Rattle.dt_flow_model.specs.Keeping.{most_moment, octets_below, taken_by};
ghost use Rattle.dt_flow_model.specs.Numbering.{number_of};
ghost use Rattle.dt_flow_model.specs.ReceiveRecord.{expected_of};
ghost use Rattle.dt_flow_model.specs.SendRecord.{next_of};
ghost use Rattle.dt_world_model.specs.Host.{IsCurrentHost, arrive, first_host, host_wake, next_turn, read_octets, receiver_at, restarted_host, send_octets, sender_at, work};
ghost use Rattle.dt_world_model.specs.Tables.{has_key, same_flow};
ghost use Rattle.dt_host.specs.Answers.{IsAnswerTo, IsMade, frame_made, host_after, or_stays, replied, told_done};
ghost use Rattle.dt_host.specs.Dues.{IsNext};
ghost use Rattle.dt_host.specs.Soonest.{missed_senders};
ghost use Rattle.dt_host.specs.declared.faults.SendFault.TheVariants as send_fault;

use crate::acts::{Act, Done};
use crate::dues::{DueAct, DueKind};
use crate::faults::SendFault;
use crate::recv_side::RecvSide;
use crate::send_side::SendSide;
use dt_flow_model::{Arrived, Reading, RecvKind, SendKind};
use dt_items::{MarkedOctets, NoMemory, Piece};
use dt_layout::{Frame, Packet};
use dt_recv::Segment;
use dt_units::{Flow, NodeId, Rules, Steps, earlier};
use std::alloc::Global;
use std::marker::Model;
use std::mem::size_of;
use std::rc::Rc;
use std::sync::ledger::Ledger;

/// All records of one node: its senders and its receivers, each in the order of their making. A sender
/// goes when it is released, and a receiver when it has neither a record nor unread octets.
///
/// Moments are readings of the host's clock in milliseconds, at most 2^62, and sizes are octets. Each
/// moment that a call by `&mut self` is given is at least that of the one before, and a refused call
/// raises it too.
#[derive(Drop)]
pub struct Host {
    me: NodeId,
    /// It is silent before this moment.
    until: u64,
    senders: Box<SendSide>,
    receivers: Box<RecvSide>,
}

// It is moved by value where a station is made, so its two sides aren't in place.
const _: () = prove!(size_of::<Host>() <= 512);

impl Model for Host {
    ghost use Rattle.std.specs.Prelude.{◌≡◌};
    ghost use Rattle.dt_host.specs.Hosts.{HostValue, receivers_of, send_records};

    ghost Value = { HostValue };

    ghost view = { λ h. record { rules = h.senders.value.rules; latest = h.senders.value.latest; state = record { me = h.me.0; until = h.until; senders = send_records h.senders.value.entries; receivers = receivers_of h.receivers.value.entries } } };

    ghost invariant = { λ h. (h.receivers.value.rules ≡ h.senders.value.rules) × (h.receivers.value.latest ≡ h.senders.value.latest) };
}

impl Host {
    /// The host of a node that starts for the first time: no records, and it isn't silent. It takes the
    /// memory for the parameters and for two tables without records, and what later calls take is taken of
    /// `alloc` too.
    pub fn first(alloc: Global, rules: &Rules, me: NodeId) -> Result<Host, NoMemory>
        ensures { IfOk result (λ host. host ≡ record { rules = rules.now; latest = 0; state = first_host me.0 }) }
    {
        let latest = Reading { ms: 0 };
        let rules = Rc::new(alloc, *rules)?;
        Ok(Host {
            me,
            until: 0,
            senders: Box::new(alloc, SendSide::new(alloc, rules.clone()?, latest)?)?,
            receivers: Box::new(alloc, RecvSide::new(alloc, rules, latest)?)?,
        })
    }

    /// The host of a node that starts again at `now`: no records, and it is silent until `quiet` after
    /// now, by when the packets and records of its former lives are gone. It takes the memory that a first
    /// start takes.
    pub fn restarted(alloc: Global, rules: &Rules, me: NodeId, now: u64) -> Result<Host, NoMemory>
        requires moment { now ≤ most_moment }
        ensures { IfOk result (λ host. host ≡ record { rules = rules.now; latest = now; state = restarted_host rules.now me.0 now }) }
    {
        let latest = Reading { ms: now };
        let until = now + rules.times().quiet;
        let rules = Rc::new(alloc, *rules)?;
        Ok(Host {
            me,
            until,
            senders: Box::new(alloc, SendSide::new(alloc, rules.clone()?, latest)?)?,
            receivers: Box::new(alloc, RecvSide::new(alloc, rules, latest)?)?,
        })
    }

    /// Whether no act is due at `now`. It takes no memory, and its cost is that of a look at every
    /// record.
    pub fn is_current<L: Ledger>(&self, now: u64, steps: &mut Steps<L>) -> bool
        requires moment { now ≤ most_moment }
        requires past { self.now.latest ≤ now }
        ensures { IsTrue result ↔ IsCurrentHost self.now.rules now self.now.state }
    {
        self.soonest(now, steps).is_none()
    }

    /// Octets are sent at `now` on a flow from this node to another: 1 or more, where the host is
    /// current. The first begins a message and the last ends one, where that is asked for.
    ///
    /// - `Quiet`: the host is silent, until the moment that is given.
    /// - `Full`: the octets don't fit into the flow's sender, of whose capacity so much is free. That is
    ///   all of it where the flow has no sender.
    /// - `NoMemory`: there was none for the sender, which the flow doesn't have yet.
    ///
    /// They are tested in this order, and after each the records are as they were. Else the octets go to
    /// the flow's sender, which is made where there is none and comes last in the order of making. It
    /// takes memory for a new sender alone. The cost is that of the octets, and of the sender's room
    /// where it is made.
    pub fn send<L: Ledger>(
        &mut self,
        flow: &Flow,
        octets: &[u8],
        begin: bool,
        end: bool,
        now: u64,
        steps: &mut Steps<L>,
    ) -> Result<(), SendFault>
        requires from { flow.now.from.0 ≡ self.old.state.me }
        requires to { flow.now.to.0 ≢ self.old.state.me }
        requires some { 1 ≤ length octets.now }
        requires counted { taken_by (record_for self.old.rules now (sender_at self.old.state flow.now)) + length octets.now < octets_below }
        requires moment { now ≤ most_moment }
        requires past { self.old.latest ≤ now }
        requires current { IsCurrentHost self.old.rules now self.old.state }
        ensures answer { let asked = send_octets self.old.rules now flow.now (marked octets.now begin end false) self.old.state in IsAnswerTo asked.0 result }
        ensures after { let asked = send_octets self.old.rules now flow.now (marked octets.now begin end false) self.old.state in
            self.new ≡ record self.old { latest = now; state = or_stays result asked.1 self.old.state } }
        ensures memory { IfErr result (λ fault. fault ≡ send_fault.NoMemory → sender_at self.old.state flow.now ≡ None) }
        ensures looks { steps.new ≤ steps.old + 4 }
    {
        self.reach(Reading { ms: now });
        if now < self.until {
            return Err(SendFault::Quiet { until: self.until });
        }
        let asked = MarkedOctets { octets, begin, end };
        self.senders.put(flow, &asked, steps)
    }

    /// Unread octets of a flow are read at `now` into the buffer, which isn't empty, where the host is
    /// current: the most that fit, such that an end mark stands only on the last and a begin or run mark
    /// only on the first. They are written to the buffer's front, and its rest stays. None comes exactly
    /// where the flow has nothing unread, and then nothing changes.
    ///
    /// A host that is silent lets read. A receiver without a record from which all is read goes. The
    /// cost is that of the octets. It takes no memory.
    pub fn read<L: Ledger>(
        &mut self,
        flow: &Flow,
        buf: &mut [u8],
        now: u64,
        steps: &mut Steps<L>,
    ) -> Option<Piece>
        requires room { 0 < length buf.old }
        requires moment { now ≤ most_moment }
        requires past { self.old.latest ≤ now }
        requires current { IsCurrentHost self.old.rules now self.old.state }
        ensures piece { let taken = read_octets self.old.rules now flow.now (length buf.old) self.old.state in
            result ≡ piece_told taken.0 }
        ensures octets { let taken = read_octets self.old.rules now flow.now (length buf.old) self.old.state in
            buf.new ≡ octets_of taken.0 ++ drop (length taken.0) buf.old }
        ensures after { let taken = read_octets self.old.rules now flow.now (length buf.old) self.old.state in
            self.new ≡ record self.old { latest = now; state = taken.1 } }
        ensures looks { steps.new ≤ steps.old + 4 }
    {
        self.reach(Reading { ms: now });
        self.receivers.read(flow, buf, steps)
    }

    /// A packet came from a node at `now`, where the host is current. A silent host answers `Quiet` to
    /// any.
    ///
    /// - Data, a rendezvous and a closing packet are of the flow from that node and the packet's first
    ///   port to this node and its second, and go to its receiver. Without one, data is accepted where
    ///   the table of cases makes a record, and the flow's receiver is made, last in the order of making;
    ///   data that doesn't fit and a rendezvous are replied to with their own number and the room of a
    ///   whole queue; and anything else is dropped.
    /// - An acknowledgement is of the flow the other way, and goes to its sender. It is dropped where
    ///   there is none, or where its number isn't one that the sender waits for.
    ///
    /// Where the answer is `Replied` the acknowledgement is in the frame, a Deltagram of life `mpl`, and
    /// else the frame is as it was. `NoMemory` comes only where the host isn't silent and a receiver was to
    /// be made, and leaves all as it was. It takes memory for a new receiver alone. The cost is that of
    /// the octets, and of the receiver's queue where it is made.
    pub fn arrive<L: Ledger>(
        &mut self,
        from: NodeId,
        packet: &Packet<'_>,
        now: u64,
        reply: &mut Frame,
        steps: &mut Steps<L>,
    ) -> Result<Arrived, NoMemory>
        requires rules { KeepsRules (packet_of packet.now) }
        requires moment { now ≤ most_moment }
        requires past { self.old.latest ≤ now }
        requires current { IsCurrentHost self.old.rules now self.old.state }
        ensures answer { let answered = arrive self.old.rules now from.0 (packet_of packet.now) self.old.state in
            IfOk result (λ answer. answer ≡ answered.0) }
        ensures after { let answered = arrive self.old.rules now from.0 (packet_of packet.now) self.old.state in
            self.new ≡ record self.old { latest = now; state = or_stays result answered.1 self.old.state } }
        ensures reply { let flow = flow_of from.0 self.old.state.me (packet_of packet.now) in
            reply.new ≡ unwrap_or (replied self.old.rules flow result) reply.old }
        ensures gram { let flow = flow_of from.0 self.old.state.me (packet_of packet.now) in
            IfSome (replied self.old.rules flow result) (λ octets. IsGram octets) }
        ensures memory { let flow = flow_of from.0 self.old.state.me (packet_of packet.now) in
            IsErr result → IsMade self.old.rules flow (packet_of packet.now) self.old.state }
        ensures awake { IsErr result → self.old.state.until ≤ now }
        ensures looks { steps.new ≤ steps.old + 4 }
    {
        self.reach(Reading { ms: now });
        if now < self.until {
            return Ok(Arrived::Quiet { until: self.until });
        }
        let flow = flow_of_packet(from, self.me, packet);
        match *packet {
            Packet::Data {
                number,
                drf,
                begin,
                end,
                octets,
                ..
            } => {
                let payload = MarkedOctets { octets, begin, end };
                let segment = Segment {
                    number,
                    drf,
                    payload,
                };
                self.receivers.on_data(&flow, &segment, reply, steps)
            }
            Packet::Ack { number, window, .. } => {
                Ok(self.senders.on_ack(&flow, number, window, steps))
            }
            Packet::Meet { number, .. } => Ok(self.receivers.on_meet(&flow, number, reply, steps)),
            Packet::Close { number, .. } => Ok(self.receivers.on_close(&flow, number, steps)),
        }
    }

    /// Now becomes the latest moment.
    fn reach(&mut self, now: Reading)
        requires past { self.old.latest ≤ now.ms }
        ensures { self.new ≡ record self.old { latest = now.ms } }
    {
        self.senders.reach(now);
        self.receivers.reach(now);
    }

    /// Does the act that comes next at `now`, and says whose it was. None comes exactly where no act is
    /// due, and then nothing changes.
    ///
    /// The classes of acts come in this order: a segment is given up; a sender is released or renewed; a
    /// receive record is released; an acknowledgement that is owed goes out; a segment goes out again; a
    /// segment goes out for the first time; a rendezvous goes out. In a class the act comes first that is
    /// due since the earliest moment, and of equals that of the record that was made first.
    ///
    /// What goes out is in the frame, a Deltagram of life `mpl`, and else the frame is as it was. Each
    /// act lowers the work that is left at `now`, so that calls at one moment come to an end.
    ///
    /// It takes no memory. Of the records it looks at the senders that hold a segment whose resend was
    /// missed: it was to go out again before now, and may do so no more. Beside these it looks at the
    /// record that acts, 4 times at most. Its further cost grows with the number of records as its
    /// logarithm does, also where a sender that is released or a receiver that is idle goes.
    pub fn next<L: Ledger>(
        &mut self,
        now: u64,
        frame: &mut Frame,
        steps: &mut Steps<L>,
    ) -> Option<Done>
        requires moment { now ≤ most_moment }
        requires past { self.old.latest ≤ now }
        ensures turn { let turn = next_turn self.old.rules now self.old.state in
            option_map told_done result ≡ option_map (λ done. done.told) turn }
        ensures frame { let turn = next_turn self.old.rules now self.old.state in
            frame.new ≡ unwrap_or (frame_made turn) frame.old }
        ensures after { let turn = next_turn self.old.rules now self.old.state in
            self.new ≡ record self.old { latest = now; state = host_after self.old.state turn } }
        ensures gram { let turn = next_turn self.old.rules now self.old.state in
            IfSome (frame_made turn) (λ octets. IsGram octets) }
        ensures falls { IfSome result (λ done. work self.old.rules now self.new.state < work self.old.rules now self.old.state) }
        ensures looks { steps.new ≤ steps.old + missed_senders self.old.rules now self.old.state.senders + 4 }
        ensures none { result ≡ None → steps.new ≤ steps.old + missed_senders self.old.rules now self.old.state.senders }
    {
        self.reach(Reading { ms: now });
        let due = self.upcoming(steps)?;
        Some(self.act(due, frame, steps))
    }

    /// The act that comes first of those that are due at the latest moment, by the agendas. A look is
    /// taken at the senders whose resend was missed, and at the one whose segment goes out again.
    fn upcoming<L: Ledger>(&mut self, steps: &mut Steps<L>) -> Option<DueAct>
        ensures next { IsNext self.old.rules self.old.latest self.old.state result }
        ensures same { self.new ≡ self.old }
        ensures looks { steps.new ≤ steps.old + missed_senders self.old.rules self.old.latest self.old.state.senders + 1 }
        ensures none { result ≡ None → steps.new ≤ steps.old + missed_senders self.old.rules self.old.latest self.old.state.senders }
    {
        let senders = &mut *self.senders;
        let receivers = &*self.receivers;
        // With their counts the sides tell that each flow has one record.
        let _senders = senders.count();
        let _receivers = receivers.count();
        if let Some(due) = senders.due(SendKind::GiveUp) {
            return Some(due);
        }
        if let Some(due) = senders.due(SendKind::Release) {
            return Some(due);
        }
        if let Some(due) = receivers.due(RecvKind::Release) {
            return Some(due);
        }
        if let Some(due) = receivers.due(RecvKind::Ack) {
            return Some(due);
        }
        if let Some(due) = senders.resend_due(steps) {
            return Some(due);
        }
        if let Some(due) = senders.due(SendKind::Send) {
            return Some(due);
        }
        senders.due(SendKind::Meet)
    }

    /// Does the act that comes next at the latest moment.
    fn act<L: Ledger>(&mut self, due: DueAct, frame: &mut Frame, steps: &mut Steps<L>) -> Done
        requires next { IsNext self.old.rules self.old.latest self.old.state (Some due) }
        ensures turn { let turn = next_turn self.old.rules self.old.latest self.old.state in
            Some (told_done result) ≡ option_map (λ done. done.told) turn }
        ensures frame { let turn = next_turn self.old.rules self.old.latest self.old.state in
            frame.new ≡ unwrap_or (frame_made turn) frame.old }
        ensures after { let turn = next_turn self.old.rules self.old.latest self.old.state in
            self.new ≡ record self.old { state = host_after self.old.state turn } }
        ensures gram { let turn = next_turn self.old.rules self.old.latest self.old.state in
            IfSome (frame_made turn) (λ octets. IsGram octets) }
        ensures falls { work self.old.rules self.old.latest self.new.state < work self.old.rules self.old.latest self.old.state }
        ensures looks { steps.new ≤ steps.old + 3 }
    {
        // With their parameters the rules tell that these are in their limits.
        let _params = self.senders.rules().params();
        let DueAct { kind, flow, .. } = due;
        let act = match kind {
            DueKind::Send(_) => Act::Send(self.senders.act(&flow, frame, steps)),
            DueKind::Recv(_) => Act::Recv(self.receivers.act(&flow, frame, steps)),
        };
        Done { flow, act }
    }

    /// The act that comes first of those that are due at `now`.
    fn soonest<L: Ledger>(&self, now: u64, steps: &mut Steps<L>) -> Option<DueAct>
        ensures { IsNext self.now.rules now self.now.state result }
    {
        let senders = &*self.senders;
        let receivers = &*self.receivers;
        // With their counts the sides tell that each flow has one record.
        let _senders = senders.count();
        let _receivers = receivers.count();
        let best = senders.soonest(now, None, steps);
        receivers.soonest(now, best, steps)
    }

    /// The least moment at which an act of any record is due, or none where there is no record that has
    /// one. It takes no memory, looks at no record, and its cost doesn't grow.
    pub fn wake(&self) -> Option<u64>
        ensures { result ≡ host_wake self.now.rules self.now.state }
    {
        earlier(self.senders.wake(), self.receivers.wake())
    }

    /// The node that it is the host of.
    pub fn me(&self) -> NodeId
        ensures { result.0 ≡ self.now.state.me }
    {
        self.me
    }

    /// The parameters of its records.
    pub fn rules(&self) -> &Rules
        ensures { result.now ≡ self.now.rules }
    {
        self.senders.rules()
    }

    /// How many octets of the flow wait for their first transmission: 0 where it has no sender.
    pub fn waiting(&self, flow: &Flow) -> u32
        ensures { result ≡ unwrap_or (option_map (λ x. length x.waiting) (sender_at self.now.state flow.now)) 0 }
    {
        match self.senders.sender(flow) {
            Some(sender) => sender.waiting(),
            None => 0,
        }
    }

    /// The number of the flow's next octet that goes out, or none where it has no sender.
    pub fn next_number(&self, flow: &Flow) -> Option<u32>
        ensures { result ≡ option_map (λ x. number_of self.now.rules (next_of x)) (sender_at self.now.state flow.now) }
    {
        Some(self.senders.sender(flow)?.next_number())
    }

    /// The number of the flow's leftmost octet that is neither acknowledged nor given up, or none where
    /// it has no sender.
    pub fn left(&self, flow: &Flow) -> Option<u32>
        ensures { result ≡ option_map (λ x. number_of self.now.rules x.left) (sender_at self.now.state flow.now) }
    {
        Some(self.senders.sender(flow)?.left())
    }

    /// The number that the flow's receiver expects next, or none where no receive record stands.
    pub fn expected(&self, flow: &Flow) -> Option<u32>
        ensures { result ≡ expected_of (receiver_at self.now.state flow.now).standing }
    {
        self.receivers.receiver(flow)?.expected()
    }

    /// Whether the flow has a receiver: one whose receive record was released stands as long as it has
    /// octets that weren't read.
    pub fn has_receiver(&self, flow: &Flow) -> bool
        ensures { result ≡ has_key same_flow flow.now self.now.state.receivers }
    {
        self.receivers.receiver(flow).is_some()
    }

    /// How many flows have a receiver.
    pub fn receivers(&self) -> usize
        ensures { result ≡ length self.now.state.receivers }
    {
        self.receivers.count()
    }
}

/// The flow that a packet from a node to a host's node is of: an acknowledgement goes the other way
/// than its flow.
pub fn flow_of_packet(from: NodeId, me: NodeId, packet: &Packet<'_>) -> Flow
    ensures { result ≡ flow_of from.0 me.0 (packet_of packet.now) }
{
    match *packet {
        Packet::Data {
            from_port,
            to_port,
            ..
        }
        | Packet::Meet {
            from_port,
            to_port,
            ..
        }
        | Packet::Close {
            from_port,
            to_port,
            ..
        } => Flow {
            from,
            from_port,
            to: me,
            to_port,
        },
        Packet::Ack {
            from_port,
            to_port,
            ..
        } => Flow {
            from: me,
            from_port: to_port,
            to: from,
            to_port: from_port,
        },
    }
}
