//! What a sender holds: the ring of its items, the segments that went out of it, and what each act makes of them.
ghost use Rattle.std.specs.Prelude.{◌≡◌, ℕ, ◌+◌, ◌-◌, ◌^◌, ◌<◌, ◌≤◌, ◌==◌, ◌&&◌, nat_lt, nat_le, not, false, List, [], ◌∷◌, ◌++◌, length, drop, take, slice_get, slice_set, Some, None, IfNone, IfOk, IfSome, IsSome, if◌then◌else◌};
ghost use Rattle.std.specs.Option.{option_map};
ghost use Rattle.circular_buffer.specs.Buffer.{buffer};
ghost use Rattle.dt_items.specs.Unread.{items_of};
ghost use Rattle.dt_flow_model.specs.Frames.{data_packet, forth};
ghost use Rattle.dt_flow_model.specs.Keeping.{IsSegment, taken_by};
ghost use Rattle.dt_flow_model.specs.Numbering.{is_crossing, number_of};
ghost use Rattle.dt_flow_model.specs.SendActs as acts;
ghost use Rattle.dt_flow_model.specs.SendRecord.{acknowledged, cut_told, held_of, leads, may_go, new_record, on_ack, put};
ghost use Rattle.dt_flow_model.specs.declared.acts.SendKind.TheVariants as kind;
ghost use Rattle.dt_units.specs.declared.endpoints.Flow.{Flow};
ghost use Rattle.dt_flow_model.specs.declared.acts.SendAct.TheVariants.{GaveUp};
ghost use Rattle.dt_send.specs.declared.sent_segments.SentSegment.{SentSegment};
ghost use Rattle.dt_send.specs.SentSegments.{IsPlaceOf, earlier_place, octets_in, segment_of};
ghost use Rattle.dt_send.specs.SendBuffer.{Acts, IsSendBuffer, IsChosen, IsEndAt, record_of};

use crate::act_contexts::ActContext;
use crate::dues::due_first;
use crate::kept_segments::KeptSegment;
use crate::numbering::{crosses, crossing_after, number_at};
use crate::octets::{append_octets, cut_at};
use crate::sent_segments::{SentSegment, sent_segment_at};
use circular_buffer::HeapCircularBuffer;
use dt_flow_model::{Cut, SendAct, SendKind, SendMoments};
use dt_items::{Item, MarkedOctets, NoMemory, append_marked, item_in};
use dt_layout::{DataHead, Frame, Packet, write_frame};
use dt_units::{Flow, Rules, earlier};
use std::alloc::Global;

/// How many segments may be outstanding.
const MOST_SEGMENTS: usize = 64;

/// What a send record keeps, in two rings: the items, the outstanding ones first and then those that
/// wait, and the outstanding segments, each a part of the items. Offsets count octets since the
/// record began, and moments are milliseconds.
#[derive(Drop)]
pub struct SendBuffer {
    /// The offset of the leftmost octet that is outstanding, or of the next one.
    pub left: u64,
    /// The offset at which the receiver's window ends.
    pub edge: u64,
    /// The later of the record's making and its last transmission.
    pub touched: u64,
    /// When a crossing went out last.
    pub crossed: Option<u64>,
    /// The offset of the next octet that goes out.
    pub next: u64,
    pub outstanding_segments: HeapCircularBuffer<KeptSegment>,
    pub items: HeapCircularBuffer<Item>,
}

impl SendBuffer {
    /// The rings of a record that begins at now. Takes the memory for all that they will hold.
    pub fn new(alloc: Global, rules: &Rules, now: u64) -> Result<SendBuffer, NoMemory>
        requires { now ≤ 2 ^ 62 }
        ensures { IfOk result (λ k. IsSendBuffer rules.now k × (record_of k ≡ new_record rules.now now [])) }
    {
        let params = rules.params();
        Ok(SendBuffer {
            left: 0,
            edge: u64::from(params.window),
            touched: now,
            crossed: None,
            next: 0,
            outstanding_segments: HeapCircularBuffer::with_capacity(alloc, MOST_SEGMENTS)?,
            items: HeapCircularBuffer::with_capacity(alloc, params.cap as usize)?,
        })
    }

    /// How many octets are outstanding.
    pub fn sent(&self, rules: &Rules) -> usize
        requires { IsSendBuffer rules.now self.now }
        ensures value { result ≡ octets_in self.now.outstanding_segments.items }
        ensures within { result ≤ length self.now.items.items }
    {
        (self.next - self.left) as usize
    }

    /// When the leftmost segment is given up.
    fn gives_up_from(&self, rules: &Rules) -> Option<u64>
        requires { IsSendBuffer rules.now self.now }
        ensures { result ≡ acts.gives_up_from rules.now (record_of self.now).outstanding }
    {
        if self.outstanding_segments.is_empty() {
            return None;
        }
        let leftmost = sent_segment_at(&self.outstanding_segments, 0);
        Some(leftmost.first + rules.times().give)
    }

    /// When the record is released or renewed, where nothing is outstanding.
    fn releases_from(&self, rules: &Rules) -> Option<u64>
        requires { IsSendBuffer rules.now self.now }
        ensures { result ≡ acts.releases_from rules.now (record_of self.now) (record_of self.now).outstanding }
    {
        let nothing_out = self.outstanding_segments.is_empty();
        if nothing_out {
            Some(self.touched + rules.times().send)
        } else {
            None
        }
    }

    /// When a segment goes out again first, of those that may still go out again at now or later.
    fn resends_from(&self, rules: &Rules, now: u64) -> Option<u64>
        requires { IsSendBuffer rules.now self.now }
        ensures { result ≡ acts.resends_from rules.now now (record_of self.now).outstanding }
    {
        let mut first = None;
        let mut place = self.outstanding_segments.len();
        while 0 < place {
            place -= 1;
            let sent_segment = sent_segment_at(&self.outstanding_segments, place);
            first = earlier(sent_segment.resend_from(rules, now), first);
        }
        first
    }

    /// How many octets may go out next.
    fn most(&self, rules: &Rules) -> usize
        requires { IsSendBuffer rules.now self.now }
        ensures value { result ≡ may_go rules.now (record_of self.now) }
        ensures within { result ≤ 8192 }
    {
        let window = self.edge.saturating_sub(self.next);
        let seg = u64::from(rules.params().seg);
        seg.min(window.min(crossing_after(rules, self.next))) as usize
    }

    /// Whether a cut can be made: octets wait and may go out, and there is room for one segment more.
    fn can_send(&self, rules: &Rules) -> bool
        requires { IsSendBuffer rules.now self.now }
        ensures { result ≡ (nat_lt 0 (may_go rules.now (record_of self.now)) && nat_lt (octets_in self.now.outstanding_segments.items) (length self.now.items.items) && nat_lt (length self.now.outstanding_segments.items) 64) }
    {
        self.most(rules) > 0
            && self.sent(rules) < self.items.len()
            && self.outstanding_segments.len() < MOST_SEGMENTS
    }

    /// When the next cut goes out, if one can be made.
    fn sends_from(&self, rules: &Rules) -> Option<u64>
        requires { IsSendBuffer rules.now self.now }
        ensures { let x = record_of self.now in
            result ≡ acts.moment_if (acts.can_send rules.now x) (acts.may_send_from rules.now x) }
    {
        if self.can_send(rules) {
            Some(self.spaced_from(rules))
        } else {
            None
        }
    }

    /// The moment from which on the next octet may go out.
    fn spaced_from(&self, rules: &Rules) -> u64
        requires { IsSendBuffer rules.now self.now }
        ensures { result ≡ acts.may_send_from rules.now (record_of self.now) }
    {
        match self.crossed {
            Some(crossed) if crosses(rules, self.next) => crossed + rules.times().spacing,
            Some(_) | None => 0,
        }
    }

    /// Whether octets wait before a window that is used up, with nothing outstanding.
    fn is_shut(&self) -> bool
        ensures { result ≡ ((length self.now.outstanding_segments.items == 0) && not (length self.now.items.items == 0) && nat_le self.now.edge self.now.next) }
    {
        self.outstanding_segments.is_empty() && !self.items.is_empty() && self.edge <= self.next
    }

    /// When a rendezvous packet goes out, where the window is used up and nothing is outstanding.
    fn meets_from(&self, rules: &Rules) -> Option<u64>
        requires { IsSendBuffer rules.now self.now }
        ensures { let x = record_of self.now in
            result ≡ acts.moment_if (acts.could_meet x x.outstanding x.waiting) (x.touched + rules.now.probe) }
    {
        if self.is_shut() {
            Some(self.touched + u64::from(rules.params().probe))
        } else {
            None
        }
    }

    /// The moments of all kinds of acts, as they stand at now. The cost is that of the segments.
    pub fn moments(&self, rules: &Rules, now: u64) -> SendMoments
        requires { IsSendBuffer rules.now self.now }
        ensures { result ≡ acts.send_moments rules.now now (record_of self.now) }
    {
        SendMoments {
            give_up: self.gives_up_from(rules),
            release: self.releases_from(rules),
            resend: self.resends_from(rules, now),
            send: self.sends_from(rules),
            meet: self.meets_from(rules),
        }
    }

    /// Puts octets after those that wait. The cost is that of the octets.
    pub fn put(&mut self, rules: &Rules, asked: &MarkedOctets<'_>)
        requires rings { IsSendBuffer rules.now self.old }
        requires fits { held_of (record_of self.old) + length asked.now.octets.now ≤ rules.now.cap }
        requires counted { taken_by (record_of self.old) + length asked.now.octets.now < 2 ^ 62 }
        ensures rings { IsSendBuffer rules.now self.new }
        ensures record { record_of self.new ≡ put (items_of asked.now) (record_of self.old) }
    {
        append_marked(&mut self.items, asked, false);
    }

    /// How many segments an acknowledgement with this number acknowledges, and the offset at which
    /// they end. The cost is that of these segments, or of all where there is none.
    fn acknowledged(&self, rules: &Rules, number: u32) -> Option<(usize, u64)>
        requires { IsSendBuffer rules.now self.now }
        ensures split { let gs = (record_of self.now).outstanding in
            acknowledged rules.now number self.now.left gs ≡ option_map (λ split. (take split.0 gs, drop split.0 gs)) result }
        ensures end { IfSome result (λ split. IsEndAt self.now split.0 split.1) }
    {
        let mut end = self.left;
        for place in 0..self.outstanding_segments.len() {
            if number_at(rules, end) == number {
                return Some((place, end));
            }
            let sent_segment = sent_segment_at(&self.outstanding_segments, place);
            end = sent_segment.offset + u64::from(sent_segment.length);
        }
        if number_at(rules, end) == number {
            Some((self.outstanding_segments.len(), end))
        } else {
            None
        }
    }

    /// Lets the first segments go, which end at this offset, with their items. No item is moved.
    fn drop_front(&mut self, segments: usize, end: u64)
        requires end { IsEndAt self.old segments end }
        requires lie { octets_in self.old.outstanding_segments.items ≤ length self.old.items.items }
        ensures { self.new ≡ record self.old {
          left = end;
          outstanding_segments = buffer (drop segments self.old.outstanding_segments.items) self.old.outstanding_segments.capacity;
          items = buffer (drop (end - self.old.left) self.old.items.items) self.old.items.capacity;
        } }
    {
        let gone = (end - self.left) as usize;
        self.items.truncate_front(self.items.len() - gone);
        self.outstanding_segments
            .truncate_front(self.outstanding_segments.len() - segments);
        self.left = end;
    }

    /// Takes an acknowledgement with this number and this window, and says how many octets it
    /// acknowledges. None says that it changes nothing.
    pub fn on_ack(&mut self, rules: &Rules, number: u32, window: u32) -> Option<u32>
        requires rings { IsSendBuffer rules.now self.old }
        requires window { window ≤ 65536 }
        ensures rings { IsSendBuffer rules.now self.new }
        ensures acked { let x = record_of self.old in
            on_ack rules.now x number window ≡ option_map (λ count. (record_of self.new, count)) result }
        ensures none { IfNone result (self.new ≡ self.old) }
        ensures counted { taken_by (record_of self.new) ≤ taken_by (record_of self.old) }
    {
        let Some((segments, end)) = self.acknowledged(rules, number) else {
            return None;
        };
        let count = end - self.left;
        self.drop_front(segments, end);
        self.edge = end + u64::from(window);
        Some(count as u32)
    }

    /// Gives the leftmost segment up.
    fn give_up(&mut self) -> SendAct
        requires some { 0 < length self.old.outstanding_segments.items }
        requires lie { octets_in self.old.outstanding_segments.items ≤ length self.old.items.items }
        requires end { (s : SentSegment) → slice_get self.old.outstanding_segments.items 0 ≡ Some s
            → IsEndAt self.old 1 (s.offset + s.length) × (s.offset + s.length < 2 ^ 63) }
        ensures told { (s : SentSegment) → slice_get self.old.outstanding_segments.items 0 ≡ Some s → result ≡ GaveUp s.length }
        ensures gone { (s : SentSegment) → slice_get self.old.outstanding_segments.items 0 ≡ Some s
            → self.new ≡ record self.old {
              left = s.offset + s.length;
              outstanding_segments = buffer (drop 1 self.old.outstanding_segments.items) self.old.outstanding_segments.capacity;
              items = buffer (drop (s.offset + s.length - self.old.left) self.old.items.items) self.old.items.capacity;
            } }
    {
        let sent_segment = sent_segment_at(&self.outstanding_segments, 0);
        self.drop_front(1, sent_segment.offset + u64::from(sent_segment.length));
        SendAct::GaveUp {
            count: sent_segment.length,
        }
    }

    /// Releases the record, or renews it where octets wait.
    fn release(&mut self, context: &ActContext<'_>) -> SendAct
        requires rings { IsSendBuffer context.now.rules.now self.old }
        requires chosen { IsChosen context.now.rules.now context.now.at (record_of self.old) kind.Release }
        ensures rings { IsSendBuffer context.now.rules.now self.new }
        ensures acts { (f : Flow) (frame : List ℕ)
            → Acts context.now.rules.now f context.now.at (record_of self.old) result (record_of self.new) frame frame }
    {
        if self.items.is_empty() {
            return SendAct::Released;
        }
        self.left = 0;
        self.edge = u64::from(context.rules.params().window);
        self.touched = context.at;
        self.crossed = None;
        self.next = 0;
        SendAct::Renewed
    }

    /// Writes the packet of a segment into the frame. Tells the cut.
    fn transmit(
        &self,
        context: &ActContext<'_>,
        sent_segment: &SentSegment,
        frame: &mut Frame,
    ) -> Cut
        requires there { (self.now.left ≤ sent_segment.now.offset) × (sent_segment.now.offset + sent_segment.now.length ≤ self.now.left + length self.now.items.items) }
        requires bounded { self.now.left + length self.now.items.items < 2 ^ 62 }
        requires segment { IsSegment context.now.rules.now (segment_of sent_segment.now (drop (sent_segment.now.offset - self.now.left) self.now.items.items)) }
        ensures cut { let g = segment_of sent_segment.now (drop (sent_segment.now.offset - self.now.left) self.now.items.items) in
            result ≡ cut_told context.now.rules.now (record_of self.now) g.offset g.items }
        ensures frame { let g = segment_of sent_segment.now (drop (sent_segment.now.offset - self.now.left) self.now.items.items) in
            frame.new ≡ forth context.now.rules.now context.now.flow.now (data_packet context.now.flow.now (number_of context.now.rules.now g.offset) (leads (record_of self.now) g.offset) g.items) }
    {
        let ActContext { rules, flow, .. } = *context;
        let count = sent_segment.length as usize;
        let from = (sent_segment.offset - self.left) as usize;
        let cut = Cut {
            number: number_at(rules, sent_segment.offset),
            length: sent_segment.length,
            drf: sent_segment.offset == self.left,
            begin: item_in(&self.items, from).begin,
            end: item_in(&self.items, from + count - 1).end,
        };
        let head = DataHead {
            from_port: flow.from_port,
            to_port: flow.to_port,
            number: cut.number,
            drf: cut.drf,
            begin: cut.begin,
            end: cut.end,
            count,
        };
        head.write(frame, rules.params().mpl, flow.from.0, flow.to.0);
        append_octets(&self.items, from, count, frame);
        cut
    }

    /// The place of the segment that goes out again at now, and the moment when it went out last: the
    /// one that went out longest ago of those that may, and of several the first.
    fn late_place(&self, rules: &Rules, now: u64) -> Option<(usize, u64)>
        requires { IsSendBuffer rules.now self.now }
        ensures { IsPlaceOf 0 (acts.resending rules.now now (record_of self.now).outstanding) result }
    {
        let mut best = None;
        let mut place = self.outstanding_segments.len();
        while 0 < place {
            place -= 1;
            let sent_segment = sent_segment_at(&self.outstanding_segments, place);
            if sent_segment.is_late(rules, now) {
                best = earlier_of((place, sent_segment.last), best);
            }
        }
        best
    }

    /// Notes that the segment at a place goes out again at this moment.
    fn note_again(&mut self, place: usize, at: u64)
        requires there { place < length self.old.outstanding_segments.items }
        requires late { (s : SentSegment) → slice_get self.old.outstanding_segments.items place ≡ Some s → (s.last ≤ at) × (at < s.first + 2 ^ 32) }
        ensures { (s : SentSegment) → slice_get self.old.outstanding_segments.items place ≡ Some s →
            self.new ≡ record self.old {
              touched = at;
              outstanding_segments = buffer (slice_set self.old.outstanding_segments.items place (record s { last = at })) self.old.outstanding_segments.capacity;
            } }
    {
        if let Some(kept) = self.outstanding_segments.get_mut(place) {
            *kept = kept.again(at);
        }
        self.touched = at;
    }

    /// Sends a segment again.
    fn resend(&mut self, context: &ActContext<'_>, frame: &mut Frame) -> SendAct
        requires rings { IsSendBuffer context.now.rules.now self.old }
        requires chosen { IsChosen context.now.rules.now context.now.at (record_of self.old) kind.Resend }
        ensures rings { IsSendBuffer context.now.rules.now self.new }
        ensures acts { Acts context.now.rules.now context.now.flow.now context.now.at (record_of self.old) result (record_of self.new) frame.old frame.new }
    {
        let place = match self.late_place(context.rules, context.at) {
            Some((place, _)) => place,
            None => unreachable!(),
        };
        let sent_segment = sent_segment_at(&self.outstanding_segments, place);
        let cut = self.transmit(context, &sent_segment, frame);
        self.note_again(place, context.at);
        SendAct::Resent(cut)
    }

    /// Notes that this segment went out at now, for the first time.
    fn note_sent(&mut self, rules: &Rules, sent_segment: SentSegment, now: u64)
        requires few { length self.old.outstanding_segments.items < self.old.outstanding_segments.capacity }
        requires bounded { self.old.next + sent_segment.length < 2 ^ 63 }
        requires ordered { sent_segment.first ≤ sent_segment.last }
        requires near { sent_segment.last < sent_segment.first + 2 ^ 32 }
        ensures { self.new ≡ record self.old {
          touched = now;
          crossed = (if is_crossing rules.now self.old.next then Some now else self.old.crossed);
          next = self.old.next + sent_segment.length;
          outstanding_segments = buffer (self.old.outstanding_segments.items ++ sent_segment ∷ []) self.old.outstanding_segments.capacity;
        } }
    {
        if crosses(rules, self.next) {
            self.crossed = Some(now);
        }
        self.outstanding_segments
            .push_back(KeptSegment::of(&sent_segment));
        self.next += u64::from(sent_segment.length);
        self.touched = now;
    }

    /// Sends the next cut.
    fn send(&mut self, context: &ActContext<'_>, frame: &mut Frame) -> SendAct
        requires rings { IsSendBuffer context.now.rules.now self.old }
        requires chosen { IsChosen context.now.rules.now context.now.at (record_of self.old) kind.Send }
        ensures rings { IsSendBuffer context.now.rules.now self.new }
        ensures acts { Acts context.now.rules.now context.now.flow.now context.now.at (record_of self.old) result (record_of self.new) frame.old frame.new }
    {
        let rules = context.rules;
        let length = cut_at(&self.items, self.sent(rules), self.most(rules));
        let sent_segment = SentSegment {
            offset: self.next,
            length: length as u32,
            first: context.at,
            last: context.at,
        };
        let cut = self.transmit(context, &sent_segment, frame);
        self.note_sent(rules, sent_segment, context.at);
        SendAct::Sent(cut)
    }

    /// Sends a rendezvous packet.
    fn meet(&mut self, context: &ActContext<'_>, frame: &mut Frame) -> SendAct
        requires rings { IsSendBuffer context.now.rules.now self.old }
        requires chosen { IsChosen context.now.rules.now context.now.at (record_of self.old) kind.Meet }
        ensures rings { IsSendBuffer context.now.rules.now self.new }
        ensures acts { Acts context.now.rules.now context.now.flow.now context.now.at (record_of self.old) result (record_of self.new) frame.old frame.new }
    {
        let ActContext { rules, flow, .. } = *context;
        let number = number_at(rules, self.left);
        let packet = Packet::Meet {
            from_port: flow.from_port,
            to_port: flow.to_port,
            number,
        };
        write_frame(frame, rules.params().mpl, flow.from.0, flow.to.0, &packet);
        self.touched = context.at;
        SendAct::Met { number }
    }

    /// The kind of the act that is due.
    fn due(&self, context: &ActContext<'_>) -> Option<SendKind>
        requires { IsSendBuffer context.now.rules.now self.now }
        ensures chosen { IfSome result (λ kind. IsChosen context.now.rules.now context.now.at (record_of self.now) kind) }
        ensures none { IfNone result (acts.due_of context.now.rules.now context.now.at (record_of self.now) ≡ None) }
    {
        let moments = self.moments(context.rules, context.at);
        match due_first(context.at, &moments) {
            Some((kind, _)) => Some(kind),
            None => None,
        }
    }

    /// Does the act that is due.
    pub fn act(&mut self, context: &ActContext<'_>, frame: &mut Frame) -> SendAct
        requires rings { IsSendBuffer context.now.rules.now self.old }
        requires due { IsSome (acts.due_of context.now.rules.now context.now.at (record_of self.old)) }
        ensures rings { IsSendBuffer context.now.rules.now self.new }
        ensures acts { Acts context.now.rules.now context.now.flow.now context.now.at (record_of self.old) result (record_of self.new) frame.old frame.new }
    {
        match self.due(context) {
            Some(SendKind::GiveUp) => self.give_up(),
            Some(SendKind::Release) => self.release(context),
            Some(SendKind::Resend) => self.resend(context, frame),
            Some(SendKind::Send) => self.send(context, frame),
            Some(SendKind::Meet) => self.meet(context, frame),
            None => unreachable!(),
        }
    }
}

/// The one of two segments, each known by its place and its last transmission, that goes out again
/// first: the one that went out longest ago, or else the first of the two.
fn earlier_of(place: (usize, u64), other: Option<(usize, u64)>) -> Option<(usize, u64)>
    ensures { result ≡ earlier_place place other }
{
    match other {
        Some(other) if other.1 < place.1 => Some(other),
        Some(_) | None => Some(place),
    }
}
