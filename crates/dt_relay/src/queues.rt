//! The queue of a link: at most 64 packets, each with the time at which its wait began.
ghost use Rattle.std.specs.Prelude.{◌≡◌, ◌<◌, IfOk, IfSome, OnErr, OnOk, is_some};
ghost use Rattle.dt_layout.specs.Carried.{IsGram, life_of, lowered};
ghost use Rattle.dt_world_model.specs.Relay.{empty_out, leave, may_leave_from, out_wake, push};
ghost use Rattle.dt_relay.specs.Carrying.{IfOut, left_seen, parcel_seen};
ghost use Rattle.dt_relay.specs.Passages.{HasLife, passage_on, passed_on};

use crate::buffers::Buffers;
use crate::carrying::Carry;
use crate::passages::Passage;
use dt_flow_model::Reading;
use dt_items::NoMemory;
use dt_layout::{Frame, GramOctets};
use dt_world_model::{Entered, wait_charge};
use std::alloc::Global;
use std::collections::VecDeque;
use std::marker::Model;

// How many packets may wait on a link.
const MOST_ON_LINK: usize = 64;

/// What became of the first packet that waited on a link.
#[derive(Drop)]
pub enum Left<P> {
    /// It leaves, with its life less by the charge for its time in the queue.
    Out(P),
    /// It hadn't the life for that charge, and is gone.
    Expired,
}

/// A packet that waits since a moment: its octets and its tag.
#[derive(Drop)]
pub(crate) struct Waiting<T> {
    octets: Vec<u8>,
    tag: T,
    since: u64,
}

/// The packets that wait for one link, the first to leave in front.
#[derive(Drop)]
pub(crate) struct LinkQueue<P: Carry> {
    link: u16,
    pace: u32,
    waits: VecDeque<Waiting<P::Tag>>,
    last: Option<u64>,
    buffers: Buffers,
}

impl<P: Carry> Model for LinkQueue<P> {
    ghost use Rattle.std.specs.Prelude.{map};
    ghost use Rattle.dt_world_model.specs.Relay.{Out};
    ghost use Rattle.dt_relay.specs.Carrying.{waiting_seen};
    ghost use Rattle.dt_relay.specs.Queues.{IsQueue};

    ghost Value = { Out P.Tag };

    ghost view = { λ q. record { link = q.link; pace = q.pace; waits = map waiting_seen q.waits.items; last = q.last } };

    ghost invariant = { λ q. IsQueue q.waits.items q.last };
}

impl<P: Carry> LinkQueue<P> {
    /// Nothing waits, and nothing has left. For a link with a pace it takes the room for 64 packets of so
    /// many octets each. On one without a pace nothing waits while moments don't go back, and it takes none.
    pub(crate) fn new(
        alloc: Global,
        link: u16,
        pace: u32,
        longest: usize,
    ) -> Result<LinkQueue<P>, NoMemory>
        ensures { IfOk result (λ queue. queue ≡ empty_out link pace) }
    {
        let count = if pace == 0 { 0 } else { MOST_ON_LINK };
        let waits = VecDeque::with_capacity(alloc, count)?;
        let buffers = Buffers::new(alloc, count, longest)?;
        Ok(LinkQueue {
            link,
            pace,
            waits,
            last: None,
            buffers,
        })
    }

    pub(crate) fn link(&self) -> u16
        ensures { result ≡ self.now.link }
    {
        self.link
    }

    /// Puts a packet at the end, where fewer than 64 wait. Else it is dropped.
    pub(crate) fn enter(&mut self, packet: P, now: u64) -> Result<Entered, NoMemory>
        requires { IsGram (P.octets packet) }
        ensures answer { IfOk result (λ entered. entered ≡ (push (parcel_seen P.octets P.label packet) now self.old).0) }
        ensures queue { OnOk result (self.new ≡ (push (parcel_seen P.octets P.label packet) now self.old).1) }
        ensures same { OnErr result (self.new ≡ self.old) }
        ensures link { self.new.link ≡ self.old.link }
    {
        let link = self.link;
        if self.waits.len() >= MOST_ON_LINK {
            return Ok(Entered::Full { link });
        }
        self.waits.reserve(1)?;
        let octets = self.buffers.hold(packet.frame().as_slice())?;
        let tag = packet.into_tag();
        let since = now;
        self.waits
            .push_back_reserved(Waiting { octets, tag, since });
        Ok(Entered::Queued { link })
    }

    /// Takes the first that waits, unless the link keeps its pace.
    pub(crate) fn leave(&mut self, now: Reading) -> Option<Left<P>>
        ensures left { left_seen P.octets P.label result ≡ (leave now.ms self.old).0 }
        ensures queue { self.new ≡ (leave now.ms self.old).1 }
        ensures gram { IfOut result (λ packet. IsGram (P.octets packet)) }
    {
        if now.ms < self.may_leave_from() {
            return None;
        }
        let Waiting { octets, tag, since } = self.waits.pop_front()?;
        let gram = GramOctets { octets: &octets };
        let Some(charge) = wait_charge(gram.life(), since, now) else {
            self.buffers.take_back(octets);
            return Some(Left::Expired);
        };
        let packet = lowered_packet(gram, tag, charge);
        self.buffers.take_back(octets);
        self.last = Some(now.ms);
        Some(Left::Out(packet))
    }

    /// Whether the first that waits may leave: something waits, and the link doesn't keep its pace.
    pub(crate) fn is_ready(&self, now: u64) -> bool
        ensures { result ≡ is_some (leave now self.now).0 }
    {
        !self.waits.is_empty() && now >= self.may_leave_from()
    }

    /// Lets a packet of this life go straight on, where nothing waits and the link doesn't keep its pace.
    /// Only a packet that leaves changes the queue.
    pub(crate) fn pass(&mut self, life: u32, now: Reading) -> Passage
        ensures passage { result ≡ passage_on life now.ms self.old }
        ensures life { HasLife life result }
        ensures queue { self.new ≡ passed_on result now.ms self.old }
    {
        let link = self.link;
        let waiting = self.waits.len();
        if waiting >= MOST_ON_LINK {
            return Passage::Full { link };
        }
        if waiting > 0 || now.ms < self.may_leave_from() {
            return Passage::Waits { link };
        }
        if life <= 1 {
            return Passage::Expired { link };
        }
        self.last = Some(now.ms);
        Passage::Leaves { link }
    }

    /// The moment from which on the next may leave.
    fn may_leave_from(&self) -> u64
        ensures { result ≡ may_leave_from self.now.pace self.now.last }
    {
        match self.last {
            None => 0,
            Some(last) => last + u64::from(self.pace),
        }
    }

    /// The moment from which on the first that waits may leave.
    pub(crate) fn wake(&self) -> Option<u64>
        ensures { result ≡ out_wake self.now self.now.waits }
    {
        if self.waits.is_empty() {
            return None;
        }
        Some(self.may_leave_from())
    }
}

// A packet of these octets with less life. It stands apart, so that the frame isn't among the locals of
// whoever hands the packet on.
#[inline(never)]
fn lowered_packet<P: Carry>(gram: GramOctets<'_>, tag: P::Tag, by: u32) -> P
    requires { by < life_of gram.octets.now }
    ensures octets { P.octets result ≡ lowered by gram.entry.octets.now }
    ensures gram { IsGram (P.octets result) }
    ensures label { P.label result ≡ tag }
{
    let mut frame = Frame::new();
    gram.copy_into(&mut frame);
    frame.lower(by);
    P::make(&frame, tag)
}
