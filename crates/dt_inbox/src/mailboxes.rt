//! The messages of many flows, handed out one by one.
ghost use Rattle.std.specs.Prelude.{◌≡◌, OnErr, OnOk};
ghost use Rattle.dt_inbox.specs.FlowInboxes.{heard};
ghost use Rattle.dt_inbox.specs.Mailboxes.{Fetches, HandsOut, MailboxValue, TakesInto, letter_of, new_mailbox};

use crate::flow_inboxes::FlowInboxes;
use crate::inboxes::TakenMessage;
use dt_endpoint::Endpoint;
use dt_items::NoMemory;
use dt_messages::Message;
use dt_units::Flow;
use std::alloc::Global;
use std::marker::Model;

/// A whole message of a flow.
#[derive(Drop)]
pub struct Letter {
    flow: Flow,
    message: Message,
}

/// The answer where a message is to be put into a buffer.
#[derive(Clone, Copy, Debug, PartialEq, Eq)]
pub enum Handed {
    /// `len` octets stand at the head of the buffer: a whole message of this flow. `gap`: octets before
    /// it are lost, or may be.
    Done { flow: Flow, len: usize, gap: bool },
    /// The buffer has no room for the message, which waits.
    NoRoom { flow: Flow, len: usize, gap: bool },
    /// No flow that was heard of has a message.
    Nothing,
    /// So many flows without one were looked at that the call ends. Others may have one.
    More,
    /// There was no memory for octets of this flow that were read. They are lost with the message that they
    /// are of, and a gap is reported with the next one.
    Lost { flow: Flow },
    /// The endpoint found no memory, and is spent.
    NoMemory,
    /// An earlier call of the endpoint found no memory.
    Spent,
}

/// Hands out the whole messages of the flows that a node receives. One for which a buffer has no room
/// waits.
///
/// Whoever has it hands in flows as [`FlowInboxes`] says.
#[derive(Drop)]
pub struct Mailbox {
    inboxes: FlowInboxes,
    waiting: Option<Letter>,
}

impl Model for Mailbox {
    ghost Value = { MailboxValue };

    ghost view = { λ m. record { inboxes = m.inboxes; waiting = m.waiting } };
}

impl Mailbox {
    /// No flow was heard of. A message has `longest` octets at most, or as many as there is memory for: one
    /// that is longer is dropped and counted.
    pub fn new(alloc: Global, longest: Option<usize>) -> Mailbox
        ensures { result ≡ new_mailbox longest }
    {
        Mailbox {
            inboxes: FlowInboxes::new(alloc, longest),
            waiting: None,
        }
    }

    /// Octets of a flow may be unread, as [`FlowInboxes::hear`] has it. `NoMemory`: nothing has changed.
    pub fn hear(&mut self, flow: Flow) -> Result<(), NoMemory>
        ensures due { OnOk result (self.new ≡ record self.old { inboxes = heard flow self.old.inboxes }) }
        ensures same { OnErr result (self.new ≡ self.old) }
    {
        self.inboxes.hear(flow)
    }

    /// The message that waits goes into the buffer, or the next one that [`FlowInboxes::take_next`] finds.
    /// The cost is that of the reads, and each octet is copied three times.
    pub fn take(
        &mut self,
        alloc: Global,
        endpoint: &mut Endpoint,
        now: u64,
        buf: &mut [u8],
    ) -> Handed
        ensures { TakesInto self.old.waiting result now buf.old buf.new self.old self.new endpoint.old endpoint.new }
    {
        if self.waiting.is_some() {
            return self.hand_out(buf);
        }
        match self.fetch(alloc, endpoint, now) {
            Some(answer) => answer,
            None => self.hand_out(buf),
        }
    }

    /// How many messages were longer than the longest: 2^64 - 1 at most.
    pub fn dropped(&self) -> u64
        ensures { result ≡ self.now.inboxes.dropped }
    {
        self.inboxes.dropped()
    }

    /// A message waits now, or it is answered why none does. None waited.
    fn fetch(&mut self, alloc: Global, endpoint: &mut Endpoint, now: u64) -> Option<Handed>
        ensures { Fetches result now self.old self.new endpoint.old endpoint.new }
    {
        match letter_of(self.inboxes.take_next(alloc, endpoint, now)) {
            Ok(letter) => {
                self.waiting = Some(letter);
                None
            }
            Err(answer) => Some(answer),
        }
    }

    /// The message that waits goes into the buffer, which has room for it, or waits on.
    fn hand_out(&mut self, buf: &mut [u8]) -> Handed
        ensures { HandsOut result buf.old buf.new self.old self.new }
    {
        let Some(letter) = &self.waiting else {
            return Handed::Nothing;
        };
        let flow = letter.flow;
        let gap = letter.message.gap;
        let octets = letter.message.octets.as_slice();
        let len = octets.len();
        if len > buf.len() {
            return Handed::NoRoom { flow, len, gap };
        }
        buf[..len].copy_from_slice(octets);
        self.waiting = None;
        Handed::Done { flow, len, gap }
    }
}

/// A message, or why there is none.
fn letter_of(taken: Option<(Flow, TakenMessage)>) -> Result<Letter, Handed>
    ensures { result ≡ letter_of taken }
{
    let Some((flow, taken)) = taken else {
        return Err(Handed::Nothing);
    };
    match taken {
        TakenMessage::Whole(message) => Ok(Letter { flow, message }),
        TakenMessage::Lost => Err(Handed::Lost { flow }),
        TakenMessage::Nothing
        | TakenMessage::Unfinished
        | TakenMessage::BadFlow
        | TakenMessage::NoRoom => Err(Handed::More),
        TakenMessage::NoMemory => Err(Handed::NoMemory),
        TakenMessage::Spent => Err(Handed::Spent),
    }
}
