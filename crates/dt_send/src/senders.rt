//! `Sender`, the send record of a flow: the octets that wait or are outstanding, and the acts that are due for them.
ghost use Rattle.std.specs.Prelude.{◌≡◌, ◌+◌, ◌<◌, ◌≤◌, [], ◌++◌, false, length, Some, None, IfNone, IfOk, IfSome, IsSome, unwrap_or};
ghost use Rattle.std.specs.Option.{option_map};
ghost use Rattle.std.specs.Result.{result_err};
ghost use Rattle.circular_buffer.specs.Buffer.{buffer};
ghost use Rattle.dt_items.specs.Unread.{marked};
ghost use Rattle.dt_layout.specs.Carried.{IsGram};
ghost use Rattle.dt_flow_model.specs.Frames.{frame_of_act};
ghost use Rattle.dt_flow_model.specs.Keeping.{IsSendRecord, most_moment, octets_below, taken_by};
ghost use Rattle.dt_flow_model.specs.Numbering.{number_of};
ghost use Rattle.dt_flow_model.specs.SendActs.{act_of, due_of, record_after, send_moments, told_of, wake_of};
ghost use Rattle.dt_flow_model.specs.SendRecord.{after_put, held_of, new_record, next_of, on_ack, put_fault};
ghost use Rattle.dt_send.specs.Items.{outstanding_items};

use crate::act_contexts::ActContext;
use crate::dues::{due_first, least};
use crate::numbering::number_at;
use crate::send_buffer::SendBuffer;
use circular_buffer::HeapCircularBuffer;
use dt_flow_model::{PutFault, SendAct, SendKind, SendMoments};
use dt_items::{Item, MarkedOctets, NoMemory};
use dt_layout::Frame;
use dt_units::{Flow, Rules, Steps};
use std::alloc::Global;
use std::marker::Model;
use std::rc::Rc;
use std::sync::ledger::Ledger;

/// The send record of a flow: the octets that its sender holds, and what it does with them in time. A
/// contract sees the parameters, the flow and the record of the definitions.
///
/// It holds outstanding octets, which went out and are neither acknowledged nor given up, and then
/// waiting ones. Moments are milliseconds of the sending station's clock, at most 2^62. A record
/// takes fewer than 2^62 octets from its beginning, or its last renewal, on. All memory is taken by
/// [`Sender::new`] or [`Sender::sharing`].
#[derive(Drop)]
pub struct Sender {
    /// The records of a host share them: so a record takes less room, and reads what is at hand.
    rules: Rc<Rules>,
    flow: Flow,
    buffer: SendBuffer,
}

impl Model for Sender {
    ghost use Rattle.dt_send.specs.Senders.{SenderValue};
    ghost use Rattle.dt_send.specs.SendBuffer.{IsSendBuffer, record_of};

    ghost Value = { SenderValue };

    ghost view = { λ s. record { rules = s.rules.value; flow = s.flow; state = record_of s.buffer } };

    ghost invariant = { λ s. IsSendBuffer s.rules.value s.buffer };
}

impl Sender {
    /// A send record that begins at now, with nothing in it and the window of the parameters. Takes
    /// the memory for `cap` octets with their marks and for 64 segments, and for the parameters.
    pub fn new(alloc: Global, rules: &Rules, flow: Flow, now: u64) -> Result<Sender, NoMemory>
        requires { now ≤ most_moment }
        ensures { IfOk result (λ sender. sender ≡ record { rules = rules.now; flow = flow; state = new_record rules.now now [] }) }
    {
        let rules = Rc::new(alloc, *rules)?;
        Sender::sharing(alloc, &rules, flow, now)
    }

    /// The same as [`Sender::new`], over parameters that other records have too.
    pub fn sharing(
        alloc: Global,
        rules: &Rc<Rules>,
        flow: Flow,
        now: u64,
    ) -> Result<Sender, NoMemory>
        requires { now ≤ most_moment }
        ensures { IfOk result (λ sender. sender ≡ record { rules = rules.now.value; flow = flow; state = new_record rules.now.value now [] }) }
    {
        let buffer = SendBuffer::new(alloc, &**rules, now)?;
        Ok(Sender {
            rules: rules.clone()?,
            flow,
            buffer,
        })
    }

    /// Puts octets after those that wait: the first gets the begin mark and the last the end mark,
    /// where they are asked for. `Full` comes exactly where more than `cap` octets would be held; it
    /// says how many more are taken, and the record is as it was. The cost is that of the octets, and
    /// no memory is taken.
    pub fn put<L: Ledger>(
        &mut self,
        octets: &[u8],
        begin: bool,
        end: bool,
        steps: &mut Steps<L>,
    ) -> Result<(), PutFault>
        requires { taken_by self.old.state + length octets.now < octets_below }
        ensures fault { result_err result ≡ put_fault self.old.rules self.old.state (length octets.now) }
        ensures after { let items = marked octets.now begin end false in
            self.new ≡ record self.old { state = after_put self.old.rules items self.old.state } }
        ensures counted { taken_by self.new.state ≤ taken_by self.old.state + length octets.now }
        ensures looks { steps.new ≡ steps.old + 1 }
    {
        steps.tick();
        let free = self.rules.params().cap - self.held();
        if octets.len() > free as usize {
            return Err(PutFault::Full { free });
        }
        let asked = MarkedOctets { octets, begin, end };
        self.buffer.put(&*self.rules, &asked);
        Ok(())
    }

    /// Takes an acknowledgement with the number `k` and the window `w`, at most 65,536 octets. Where
    /// `k` is the number of the leftmost octet, or that of the end of an outstanding segment, all
    /// octets before it are acknowledged, the window begins there, and the answer is how many octets
    /// were acknowledged, 0 to 65,536. None says that it is any other number, and nothing changes. The
    /// cost is that of the segments that are acknowledged, and of 64 at most where none is: their
    /// octets go from the front of the ring, and none is moved.
    pub fn on_ack<L: Ledger>(&mut self, k: u32, w: u32, steps: &mut Steps<L>) -> Option<u32>
        requires { w ≤ 65536 }
        ensures acked { let x = self.old.state in
            on_ack self.old.rules x k w ≡ option_map (λ count. (self.new.state, count)) result }
        ensures none { IfNone result (self.new ≡ self.old) }
        ensures others { self.new ≡ record self.old { state = self.new.state } }
        ensures counted { taken_by self.new.state ≤ taken_by self.old.state }
        ensures looks { steps.new ≡ steps.old + 1 }
    {
        steps.tick();
        self.buffer.on_ack(&*self.rules, k, w)
    }

    /// The first kind of act, in the order of [`SendKind`], that is due at now, with the moment from
    /// which on it was due. None comes exactly where none is due. The cost is that of the outstanding
    /// segments, at most 64.
    pub fn due<L: Ledger>(&self, now: u64, steps: &mut Steps<L>) -> Option<(SendKind, u64)>
        ensures due { result ≡ due_of self.now.rules now self.now.state }
        ensures looks { steps.new ≡ steps.old + 1 }
    {
        steps.tick();
        due_first(now, &self.buffer.moments(&*self.rules, now))
    }

    /// Does the act that is due at now; [`Sender::due`] says whether there is one. `Resent`, `Sent`
    /// and `Met` leave their packet in the frame, with the life `mpl`; the other acts leave the frame
    /// alone. After `Released` the record is as it was, and is used no more. The cost is that of the
    /// outstanding segments and of the octets that go out.
    pub fn act<L: Ledger>(&mut self, now: u64, frame: &mut Frame, steps: &mut Steps<L>) -> SendAct
        requires due { IsSome (due_of self.old.rules now self.old.state) }
        requires moment { now ≤ most_moment }
        ensures told { let x = self.old.state in
            IfSome (act_of self.old.rules now x) (λ act. result ≡ told_of self.old.rules x act) }
        ensures frame { let x = self.old.state in
            IfSome (act_of self.old.rules now x) (λ act. frame.new ≡ unwrap_or (frame_of_act self.old.rules self.old.flow x act) frame.old) }
        ensures gram { let x = self.old.state in
            IfSome (act_of self.old.rules now x) (λ act. IfSome (frame_of_act self.old.rules self.old.flow x act) (λ octets. IsGram octets)) }
        ensures after { let x = self.old.state in
            IfSome (act_of self.old.rules now x) (λ act. self.new ≡ record self.old { state = unwrap_or (record_after self.old.rules now x act) x }) }
        ensures counted { taken_by self.new.state ≤ taken_by self.old.state }
        ensures looks { steps.new ≡ steps.old + 1 }
    {
        steps.tick();
        let context = ActContext {
            rules: &*self.rules,
            flow: &self.flow,
            at: now,
        };
        self.buffer.act(&context, frame)
    }

    /// From when on each kind of act is due, as it stands at now, if nothing else is called. The cost
    /// is that of the outstanding segments, at most 64.
    pub fn moments<L: Ledger>(&self, now: u64, steps: &mut Steps<L>) -> SendMoments
        ensures moments { result ≡ send_moments self.now.rules now self.now.state }
        ensures looks { steps.new ≡ steps.old + 1 }
    {
        steps.tick();
        self.buffer.moments(&*self.rules, now)
    }

    /// The least moment at which an act is due, if nothing else is called. None says that none ever
    /// is. The cost is that of the outstanding segments, at most 64.
    pub fn wake<L: Ledger>(&self, steps: &mut Steps<L>) -> Option<u64>
        ensures wake { result ≡ wake_of self.now.rules self.now.state }
        ensures looks { steps.new ≡ steps.old + 1 }
    {
        steps.tick();
        least(&self.buffer.moments(&*self.rules, 0))
    }

    /// The number of the leftmost octet that is neither acknowledged nor given up. Numbers go round at
    /// 2^32.
    pub fn left(&self) -> u32
        ensures { result ≡ number_of self.now.rules self.now.state.left }
    {
        number_at(&*self.rules, self.buffer.left)
    }

    /// The number of the next octet that goes out.
    pub fn next_number(&self) -> u32
        ensures { result ≡ number_of self.now.rules (next_of self.now.state) }
    {
        number_at(&*self.rules, self.buffer.next)
    }

    /// The number at which the receiver's window ends: the first that may not go out.
    pub fn edge(&self) -> u32
        ensures { result ≡ number_of self.now.rules self.now.state.edge }
    {
        number_at(&*self.rules, self.buffer.edge)
    }

    /// How many octets wait, 0 to 65,536.
    pub fn waiting(&self) -> u32
        ensures { result ≡ length self.now.state.waiting }
    {
        (self.buffer.items.len() - self.buffer.sent(&*self.rules)) as u32
    }

    /// How many octets are outstanding or wait, at most `cap`.
    pub fn held(&self) -> u32
        ensures value { result ≡ held_of self.now.state }
        ensures kept { IsSendRecord self.now.rules self.now.state }
    {
        self.buffer.items.len() as u32
    }

    /// The ring of its items, the outstanding ones first and then those that wait. Its capacity is
    /// `cap`.
    pub fn ring(&self) -> &HeapCircularBuffer<Item>
        ensures { let x = self.now.state in
            result.now ≡ buffer (outstanding_items x.outstanding ++ x.waiting) self.now.rules.cap }
    {
        &self.buffer.items
    }
}
