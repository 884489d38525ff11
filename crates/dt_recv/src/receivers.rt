//! The receiver of one flow: its unread octets, its receive record, and its answer to each packet.
ghost use Rattle.std.specs.Prelude.{ℕ, Bool, ◌≡◌, ◌≤◌, ◌<◌, ◌+◌, ◌^◌, ◌↔◌, [], ◌++◌, drop, length, unwrap_or, false, true, IfOk, IsTrue, IfSome, IsNone, IsSome, Some, None};
ghost use Rattle.circular_buffer.specs.Buffer.{buffer};
ghost use Rattle.dt_items.specs.Unread.{IsLongestPiece, first_piece, items_of, marked, octets_of, piece_told};
ghost use Rattle.dt_layout.specs.Carried.{IsGram};
ghost use Rattle.dt_flow_model.specs.declared.arrivals.Arrived.TheVariants.{Accepted, Replied};
ghost use Rattle.dt_flow_model.specs.declared.acts.RecvKind.{RecvKind};
ghost use Rattle.dt_flow_model.specs.declared.acts.RecvKind.TheVariants.{Ack};
ghost use Rattle.dt_flow_model.specs.Frames.{recv_frame, reply_frame};
ghost use Rattle.dt_flow_model.specs.Keeping.{IsReceiverKept};
ghost use Rattle.dt_recv.specs.Records.{receive_record_of};
ghost use Rattle.dt_flow_model.specs.ReceiveRecord.{ReceiveRecord, IsRecvDue, action_of, action_on, after_close, after_data, after_meet, after_read, after_recv_act, answer_to_close, answer_to_data, answer_to_meet, expected_of, free_of, receiver_accepted, recv_due_of, recv_moments, recv_told_of, recv_wake_of, window_told};

use crate::acknowledgements::Acknowledgement;
use crate::cases::{action, closing};
use crate::records;
use crate::records::Record;
use crate::segment::Segment;
use circular_buffer::HeapCircularBuffer;
use dt_flow_model::{Action, Arrived, Reading, RecvAct, RecvKind, RecvMoments};
use dt_items::{Item, MarkedOctets, NoMemory, Piece, Queue};
use dt_layout::Frame;
use dt_units::{Flow, Rules, Steps};
use std::alloc::Global;
use std::marker::Model;
use std::rc::Rc;
use std::sync::ledger::Ledger;

/// The receiver of one flow: a queue of the octets that were accepted and not read yet, and a receive
/// record or none.
///
/// Moments are readings of the receiving station's clock in milliseconds, at most 2^62, and sizes are
/// octets. Each call that looks at the record counts one look. The memory for the queue is taken by
/// [`Receiver::new`] or [`Receiver::sharing`], and no other call takes any.
#[derive(Drop)]
pub struct Receiver {
    /// The receivers of a host share them: so a receiver takes less room, and reads what is at hand.
    rules: Rc<Rules>,
    flow: Flow,
    queue: Queue,
    standing: Option<Record>,
}

impl Model for Receiver {
    ghost use Rattle.std.specs.Prelude.{◌≡◌};
    ghost use Rattle.dt_recv.specs.Receivers.{ReceiverValue};
    ghost use Rattle.dt_flow_model.specs.Keeping.{IsReceiverKept};
    ghost use Rattle.dt_recv.specs.Records.{standing_of};

    ghost Value = { ReceiverValue };

    ghost view = { λ r. record { rules = r.rules.value; flow = r.flow; state = record { unread = r.queue.items; standing = standing_of r.standing } } };

    ghost invariant = { λ r. (r.queue.room ≡ r.rules.value.rcap) × IsReceiverKept r.rules.value (record { unread = r.queue.items; standing = standing_of r.standing }) };
}

impl Receiver {
    /// A receiver of the flow with nothing unread and no record. Takes the memory for `rcap` unread
    /// octets and for the parameters; `NoMemory` where there is none.
    pub fn new(alloc: Global, rules: &Rules, flow: Flow) -> Result<Receiver, NoMemory>
        ensures { IfOk result (λ receiver. receiver ≡ record {
          rules = rules.now;
          flow = flow;
          state = record { unread = []; standing = None };
        }) }
    {
        let rules = Rc::new(alloc, *rules)?;
        Receiver::sharing(alloc, &rules, flow)
    }

    /// The same as [`Receiver::new`], over parameters that other receivers have too.
    pub fn sharing(alloc: Global, rules: &Rc<Rules>, flow: Flow) -> Result<Receiver, NoMemory>
        ensures { IfOk result (λ receiver. receiver ≡ record {
          rules = rules.now.value;
          flow = flow;
          state = record { unread = []; standing = None };
        }) }
    {
        Ok(Receiver {
            queue: Queue::with_room(alloc, rules.params().rcap)?,
            rules: rules.clone()?,
            flow,
            standing: None,
        })
    }

    /// The number that is expected next, or none where no record stands.
    pub fn expected(&self) -> Option<u32>
        ensures { result ≡ expected_of self.now.state.standing }
    {
        records::expected(self.standing)
    }

    /// How many more octets the queue takes: `rcap` less those that are unread.
    pub fn free(&self) -> u32
        ensures value { result ≡ free_of self.now.rules self.now.state.unread }
        ensures kept { IsReceiverKept self.now.rules self.now.state }
    {
        self.queue.free()
    }

    /// Whether there is no record, and nothing is unread.
    pub fn is_idle(&self) -> bool
        ensures { IsTrue result ↔ ((self.now.state.standing ≡ None) × (self.now.state.unread ≡ [])) }
    {
        self.standing.is_none() && self.queue.len() == 0
    }

    /// The ring that holds the unread octets, the next to be read first. Its capacity is `rcap`.
    pub fn ring(&self) -> &HeapCircularBuffer<Item>
        ensures { result.now ≡ buffer self.now.state.unread self.now.rules.rcap }
    {
        self.queue.ring()
    }

    /// A data packet came at `now`: octets from the sequence number `number` on, 1 to 8,192 of them, with
    /// the data-run flag and the marks that a message begins with the first or ends with the last.
    ///
    /// The receiver does what [`action`] says of it:
    ///
    /// - `Dropped`: no record stands and the flag is off. Nothing changes.
    /// - `Accepted { run, count }`: the octets fit into the queue and are unread now, and the record,
    ///   which is made where none stands, expects what follows. An acknowledgement is owed: at once where
    ///   a message ends or one was owed already, else after `a`. `run` is true where the record was made,
    ///   or where octets before these were passed over. No frame is written.
    /// - `Replied { number, window }`: the acknowledgement with the life `mpl` is in the frame. Its number
    ///   is the expected one where the packet's octets are below it, come without the flag from beyond
    ///   it, or are the next ones and don't fit; what was owed is then paid. It is the packet's own where
    ///   octets with the flag don't fit that would have made the record or skipped to them. The last
    ///   acceptance stays when it was.
    ///
    /// It never answers anything else. The cost is that of the octets.
    pub fn on_data<L: Ledger>(
        &mut self,
        number: u32,
        drf: bool,
        begin: bool,
        end: bool,
        octets: &[u8],
        now: u64,
        reply: &mut Frame,
        steps: &mut Steps<L>,
    ) -> Arrived
        requires some { 1 ≤ length octets.now }
        requires few { length octets.now ≤ 8192 }
        requires moment { now ≤ 2 ^ 62 }
        ensures after { let items = marked octets.now begin end false in
            self.new ≡ record self.old { state = after_data self.old.rules now self.old.state drf number items } }
        ensures answer { let items = marked octets.now begin end false in
            result ≡ answer_to_data self.old.rules self.old.state drf number items }
        ensures reply { reply.new ≡ unwrap_or (reply_frame self.old.rules self.old.flow result) reply.old }
        ensures gram { IfSome (reply_frame self.old.rules self.old.flow result) (λ octets. IsGram octets) }
        ensures looks { steps.new ≡ steps.old + 1 }
    {
        let payload = MarkedOctets { octets, begin, end };
        let segment = Segment {
            number,
            drf,
            payload,
        };
        self.on_segment(&segment, Reading { ms: now }, reply, steps)
    }

    /// The same as [`Receiver::on_data`], for octets with what their packet says of them in one value.
    pub fn on_segment<L: Ledger>(
        &mut self,
        segment: &Segment<'_>,
        now: Reading,
        reply: &mut Frame,
        steps: &mut Steps<L>,
    ) -> Arrived
        requires some { 1 ≤ length segment.now.payload.octets.now }
        requires few { length segment.now.payload.octets.now ≤ 8192 }
        ensures after { let items = items_of segment.now.payload in
            self.new ≡ record self.old { state = after_data self.old.rules now.ms self.old.state segment.now.drf segment.now.number items } }
        ensures answer { let items = items_of segment.now.payload in
            result ≡ answer_to_data self.old.rules self.old.state segment.now.drf segment.now.number items }
        ensures reply { reply.new ≡ unwrap_or (reply_frame self.old.rules self.old.flow result) reply.old }
        ensures gram { IfSome (reply_frame self.old.rules self.old.flow result) (λ octets. IsGram octets) }
        ensures looks { steps.new ≡ steps.old + 1 }
    {
        steps.tick();
        let number = segment.number;
        match self.action_on(segment) {
            Action::Drop => Arrived::Dropped,
            Action::Make | Action::Skip => self.accept(segment, true, now),
            Action::TellNumber => self.reply_number(number, reply),
            Action::TellExpected => self.reply_expected(number, reply),
            Action::Accept => self.accept(segment, false, now),
            Action::Close => Arrived::Closing { number },
        }
    }

    /// A rendezvous packet came. It is always `Replied`: with the expected number where a record stands,
    /// and what was owed is then paid, else with the packet's own. The acknowledgement with the life
    /// `mpl` is in the frame. The moment changes nothing.
    pub fn on_meet<L: Ledger>(
        &mut self,
        number: u32,
        _now: u64,
        reply: &mut Frame,
        steps: &mut Steps<L>,
    ) -> Arrived
        ensures after { self.new ≡ record self.old { state = after_meet self.old.rules self.old.state } }
        ensures answer { result ≡ answer_to_meet self.old.rules self.old.state number }
        ensures reply { reply.new ≡ unwrap_or (reply_frame self.old.rules self.old.flow result) reply.old }
        ensures gram { IfSome (reply_frame self.old.rules self.old.flow result) (λ octets. IsGram octets) }
        ensures looks { steps.new ≡ steps.old + 1 }
    {
        steps.tick();
        self.reply_expected(number, reply)
    }

    /// A closing packet came. It is `Closing` with its number exactly where a record stands that expects
    /// this number, else `Dropped`. Nothing changes.
    pub fn on_close<L: Ledger>(&self, number: u32, steps: &mut Steps<L>) -> Arrived
        ensures answer { result ≡ answer_to_close self.now.state number }
        // The receiver after it is that of the model, at any moment.
        ensures after { (now : ℕ) → after_close self.now.rules now self.now.state number ≡ self.now.state }
        ensures looks { steps.new ≡ steps.old + 1 }
    {
        steps.tick();
        if let Action::Close = closing(self.expected(), number) {
            Arrived::Closing { number }
        } else {
            Arrived::Dropped
        }
    }

    /// Reads unread octets at `now` into the buffer, which isn't empty: the most that fit, such that an
    /// end mark stands only on the last and a begin or run mark only on the first. They are written to
    /// its front, and its rest stays. None comes exactly where nothing is unread, and then nothing
    /// changes.
    ///
    /// Where the read raises the free room of the queue to at least the lesser of `seg` and `rcap` from
    /// below that, and a record stands that advertised less, an acknowledgement is due at once. The cost is
    /// that of the octets.
    pub fn read<L: Ledger>(
        &mut self,
        buf: &mut [u8],
        now: u64,
        steps: &mut Steps<L>,
    ) -> Option<Piece>
        requires { 0 < length buf.old }
        ensures none { IsNone result ↔ (self.old.state.unread ≡ []) }
        ensures piece { result ≡ piece_told (first_piece (length buf.old) self.old.state.unread) }
        ensures longest { let unread = self.old.state.unread in
            IsLongestPiece (length buf.old) unread (first_piece (length buf.old) unread) }
        ensures octets { let piece = first_piece (length buf.old) self.old.state.unread in
            buf.new ≡ octets_of piece ++ drop (length piece) buf.old }
        ensures after { let piece = first_piece (length buf.old) self.old.state.unread in
            self.new ≡ record self.old { state = after_read self.old.rules now (length piece) self.old.state } }
        ensures looks { steps.new ≡ steps.old + 1 }
    {
        steps.tick();
        let before = self.queue.free();
        let piece = self.queue.read_into(buf);
        let after = self.queue.free();
        self.standing = records::read(self.standing, &*self.rules, now, before, after);
        piece
    }

    /// The first kind of act, in the order of [`RecvKind`], that is due at `now`, with the moment from
    /// which it is. None comes exactly where no act is due.
    pub fn due<L: Ledger>(&self, now: u64, steps: &mut Steps<L>) -> Option<(RecvKind, u64)>
        ensures due { result ≡ recv_due_of self.now.rules now self.now.state.standing }
        ensures none { IsNone result ↔ ((kind : RecvKind) → IsRecvDue self.now.rules self.now.state.standing kind now → ⊥) }
        ensures looks { steps.new ≡ steps.old + 1 }
    {
        steps.tick();
        records::due(self.standing, &*self.rules, now)
    }

    /// Does the act that is due at `now`, as [`Receiver::due`] says.
    ///
    /// - `Released`: the record goes with what it owes, and what is unread stays. The frame is as it
    ///   was.
    /// - `Acked { number, window }`: the acknowledgement with what is expected and the free room of the
    ///   queue is in the frame, with the life `mpl`. Nothing is owed after it.
    pub fn act<L: Ledger>(&mut self, now: u64, frame: &mut Frame, steps: &mut Steps<L>) -> RecvAct
        requires { IsSome (recv_due_of self.old.rules now self.old.state.standing) }
        ensures after { (kind : RecvKind) (moment : ℕ) → recv_due_of self.old.rules now self.old.state.standing ≡ Some (kind, moment)
            → self.new ≡ record self.old { state = after_recv_act self.old.rules self.old.state kind } }
        ensures told { (kind : RecvKind) (moment : ℕ) (y : ReceiveRecord) → recv_due_of self.old.rules now self.old.state.standing ≡ Some (kind, moment)
            → self.old.state.standing ≡ Some y → result ≡ recv_told_of self.old.rules self.old.state.unread y kind }
        ensures frame { frame.new ≡ unwrap_or (recv_frame self.old.rules self.old.flow result) frame.old }
        ensures gram { IfSome (recv_frame self.old.rules self.old.flow result) (λ octets. IsGram octets) }
        ensures looks { steps.new ≡ steps.old + 1 }
    {
        let Some(standing) = self.standing else {
            unreachable!();
        };
        match self.due(now, steps) {
            Some((RecvKind::Release, _)) => {
                self.standing = None;
                RecvAct::Released
            }
            Some((RecvKind::Ack, _)) => self.acknowledge(standing, frame),
            None => unreachable!(),
        }
    }

    /// From when on each kind of act is due, if nothing else is called: release `receive` after the last
    /// acceptance, and an acknowledgement that is owed when it goes out. A kind that is due at no moment
    /// has none, and without a record there is none.
    pub fn moments<L: Ledger>(&self, steps: &mut Steps<L>) -> RecvMoments
        ensures moments { result ≡ recv_moments self.now.rules self.now.state.standing }
        ensures looks { steps.new ≡ steps.old + 1 }
    {
        steps.tick();
        records::moments(self.standing, &*self.rules)
    }

    /// The least moment at which an act is due, if nothing else is called. None comes exactly where no
    /// record stands.
    pub fn wake<L: Ledger>(&self, steps: &mut Steps<L>) -> Option<u64>
        ensures wake { result ≡ recv_wake_of self.now.rules self.now.state.standing }
        ensures none { IsNone result ↔ (self.now.state.standing ≡ None) }
        ensures looks { steps.new ≡ steps.old + 1 }
    {
        steps.tick();
        records::wake(self.standing, &*self.rules)
    }

    /// What is to be done with a data packet of these octets.
    fn action_on(&self, segment: &Segment<'_>) -> Action
        requires { length segment.now.payload.octets.now ≤ 8192 }
        ensures packet { result ≡ action_on self.now.rules self.now.state segment.now.drf segment.now.number (items_of segment.now.payload) }
        ensures looked_up { let free = free_of self.now.rules self.now.state.unread in
            result ≡ action_of (expected_of self.now.state.standing) segment.now.drf segment.now.number (length segment.now.payload.octets.now) free }
    {
        action(
            self.expected(),
            segment.drf,
            segment.number,
            segment.payload.octets.len() as u32,
            self.free(),
        )
    }

    /// Accepts the octets of a segment that fit into the queue, at `now`, as a new run or following the ones before.
    fn accept(&mut self, segment: &Segment<'_>, run: bool, now: Reading) -> Arrived
        requires some { 0 < length segment.now.payload.octets.now }
        requires few { length segment.now.payload.octets.now ≤ 8192 }
        requires fits { length segment.now.payload.octets.now ≤ free_of self.old.rules self.old.state.unread }
        ensures after { let items = items_of segment.now.payload in
            self.new ≡ record self.old { state = receiver_accepted self.old.rules now.ms self.old.state.unread self.old.state.standing segment.now.number items run } }
        ensures answer { result ≡ Accepted run (length segment.now.payload.octets.now) }
    {
        let payload = segment.payload;
        self.queue
            .push_all(payload.octets, payload.begin, payload.end, run);
        self.standing = Some(records::accepted(self.standing, &*self.rules, now, segment));
        Arrived::Accepted {
            run,
            count: payload.octets.len() as u32,
        }
    }

    /// What is advertised with this number: the free room of the queue beside it.
    fn acknowledgement(&self, number: u32) -> Acknowledgement
        ensures told { result ≡ record { number = number; window = free_of self.now.rules self.now.state.unread } }
        ensures within { result.window ≤ self.now.rules.rcap }
    {
        Acknowledgement {
            number,
            window: self.free(),
        }
    }

    /// Replies with the number that is expected, or with this one where no record stands.
    fn reply_expected(&mut self, number: u32, reply: &mut Frame) -> Arrived
        ensures after { self.new ≡ record self.old { state = after_meet self.old.rules self.old.state } }
        ensures answer { result ≡ answer_to_meet self.old.rules self.old.state number }
        ensures reply { reply.new ≡ unwrap_or (reply_frame self.old.rules self.old.flow result) reply.old }
        ensures gram { IfSome (reply_frame self.old.rules self.old.flow result) (λ octets. IsGram octets) }
    {
        let told = self.acknowledgement(self.expected().unwrap_or(number));
        self.standing = records::paid(self.standing, told.window);
        told.write(&*self.rules, &self.flow, reply);
        told.replied()
    }

    /// Replies with this number, which isn't the expected one.
    fn reply_number(&mut self, number: u32, reply: &mut Frame) -> Arrived
        ensures after { let window = free_of self.old.rules self.old.state.unread in
            self.new ≡ record self.old { state = record self.old.state { standing = window_told self.old.state.standing window } } }
        ensures answer { result ≡ Replied number (free_of self.old.rules self.old.state.unread) }
        ensures reply { reply.new ≡ unwrap_or (reply_frame self.old.rules self.old.flow result) reply.old }
        ensures gram { IfSome (reply_frame self.old.rules self.old.flow result) (λ octets. IsGram octets) }
    {
        let told = self.acknowledgement(number);
        self.standing = records::told(self.standing, told.window);
        told.write(&*self.rules, &self.flow, reply);
        told.replied()
    }

    /// Sends the acknowledgement that a record owes.
    fn acknowledge(&mut self, standing: Record, frame: &mut Frame) -> RecvAct
        requires { self.old.state.standing ≡ Some (receive_record_of standing) }
        ensures after { self.new ≡ record self.old { state = after_recv_act self.old.rules self.old.state Ack } }
        ensures told { result ≡ recv_told_of self.old.rules self.old.state.unread (receive_record_of standing) Ack }
        ensures frame { frame.new ≡ unwrap_or (recv_frame self.old.rules self.old.flow result) frame.old }
        ensures gram { IfSome (recv_frame self.old.rules self.old.flow result) (λ octets. IsGram octets) }
    {
        let told = self.acknowledgement(standing.expected);
        self.standing = records::paid(self.standing, told.window);
        told.write(&*self.rules, &self.flow, frame);
        told.acknowledged()
    }
}
