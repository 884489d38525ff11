//! The messages of one flow.
ghost use Rattle.std.specs.Prelude.{◌≡◌, length};
ghost use Rattle.dt_inbox.specs.Inboxes.{InboxValue, Joins, Reading, Takes, new_inbox};
ghost use Rattle.dt_messages.specs.Joining.{is_idle, piece_with};

use dt_endpoint::{Delivered, Endpoint};
use dt_items::NoMemory;
use dt_messages::{Joiner, Marks, Message};
use dt_units::Flow;
use std::alloc::Global;
use std::marker::Model;

/// So many reads are made for one message at most.
const MOST_READS: u32 = 65_536;

/// The answer where a message is to be taken.
#[derive(Drop)]
pub enum TakenMessage {
    /// A message is whole. More may be unread.
    Whole(Message),
    /// Nothing is unread, and no message is whole.
    Nothing,
    /// There was no memory for octets that were read. They are lost with the message that they are of,
    /// and a gap is reported with the next one. More may be unread.
    Lost,
    /// So many pieces were read that the call ends, and no message is whole. More may be unread.
    Unfinished,
    /// The endpoint found no memory, and is spent.
    NoMemory,
    /// An earlier call of the endpoint found no memory.
    Spent,
    /// The flow doesn't go from another node to that of the endpoint.
    BadFlow,
    /// The buffer has no room.
    NoRoom,
}

/// Takes whole messages of one flow out of an endpoint, in the order in which they were sent.
///
/// Whoever has one reads the flow with it alone.
#[derive(Drop)]
pub struct Inbox {
    flow: Flow,
    joiner: Joiner,
}

impl Model for Inbox {
    ghost Value = { InboxValue };

    ghost view = { λ i. record { flow = i.flow; joiner = i.joiner } };
}

impl Inbox {
    /// The inbox of a flow, of which nothing was read. A message has `longest` octets at most, or as many as
    /// there is memory for: one that is longer is dropped and counted.
    pub fn new(flow: Flow, longest: Option<usize>) -> Inbox
        ensures { result ≡ new_inbox flow longest }
    {
        Inbox {
            flow,
            joiner: Joiner::new(longest),
        }
    }

    /// Reads the flow at `now`, in pieces that the buffer holds, until a message is whole or nothing is
    /// unread, and 65,536 times at most. Each read is a call of [`Endpoint::read`], and does what is due.
    /// The cost is that of the reads, and each octet is copied twice.
    pub fn take(
        &mut self,
        alloc: Global,
        endpoint: &mut Endpoint,
        now: u64,
        buf: &mut [u8],
    ) -> TakenMessage
        ensures { Takes result now (length buf.old) self.old self.new endpoint.old endpoint.new }
    {
        for _ in 0..MOST_READS {
            if let Some(taken) = self.read(alloc, endpoint, now, buf) {
                return taken;
            }
        }
        TakenMessage::Unfinished
    }

    /// One read. Nothing is answered where a piece was read that makes no message whole.
    fn read(
        &mut self,
        alloc: Global,
        endpoint: &mut Endpoint,
        now: u64,
        buf: &mut [u8],
    ) -> Option<TakenMessage>
        ensures room { length buf.new ≡ length buf.old }
        ensures flow { self.new.flow ≡ self.old.flow }
        ensures reads { Reading result now self.old.flow (length buf.old) self.old.joiner self.new.joiner endpoint.old endpoint.new }
    {
        match endpoint.read(now, self.flow, buf) {
            Delivered::Read {
                len,
                run,
                begin,
                end,
            } => self.join(alloc, Marks { run, begin, end }, &buf[..len]),
            Delivered::Nothing => Some(TakenMessage::Nothing),
            Delivered::NoMemory => Some(TakenMessage::NoMemory),
            Delivered::Spent => Some(TakenMessage::Spent),
            Delivered::BadFlow => Some(TakenMessage::BadFlow),
            Delivered::NoRoom => Some(TakenMessage::NoRoom),
        }
    }

    /// A piece that was read goes on what was begun.
    fn join(&mut self, alloc: Global, marks: Marks, octets: &[u8]) -> Option<TakenMessage>
        ensures flow { self.new.flow ≡ self.old.flow }
        ensures joins { Joins result (piece_with marks octets.now) self.old.joiner self.new.joiner }
    {
        match self.joiner.join(alloc, marks, octets) {
            Ok(Some(message)) => Some(TakenMessage::Whole(message)),
            Ok(None) => None,
            Err(NoMemory) => {
                self.joiner.lose();
                Some(TakenMessage::Lost)
            }
        }
    }

    /// The flow.
    pub fn flow(&self) -> Flow
        ensures { result ≡ self.now.flow }
    {
        self.flow
    }

    /// Whether nothing is begun and no gap is to be reported.
    pub fn is_idle(&self) -> bool
        ensures { result ≡ is_idle self.now.joiner }
    {
        self.joiner.is_idle()
    }

    /// How many messages were longer than the longest: 2^64 - 1 at most.
    pub fn dropped(&self) -> u64
        ensures { result ≡ self.now.joiner.dropped }
    {
        self.joiner.dropped()
    }
}
