//! The messages of many flows.
ghost use Rattle.std.specs.Prelude.{◌≡◌, length, OnErr, OnOk};
ghost use Rattle.std.specs.List.{position};
ghost use Rattle.dt_inbox.specs.FlowInboxes.{FlowInboxValue, FlowInboxesValue, TakesAny, TakesHere, TakesNext, heard, is_due, is_of, is_over, no_inboxes, passes_on, stays_due, without};

use crate::inboxes::{Inbox, TakenMessage};
use dt_endpoint::Endpoint;
use dt_items::NoMemory;
use dt_units::Flow;
use std::alloc::Global;
use std::marker::Model;

/// Octets of a piece that is read for a message.
const ROOM: usize = 4096;

/// So many flows are looked at for one message at most.
const MOST_PASSES: u32 = 65_536;

/// The inbox of a flow, and whether it is to be read.
#[derive(Drop)]
struct FlowInbox {
    inbox: Inbox,
    due: bool,
}

impl Model for FlowInbox {
    ghost Value = { FlowInboxValue };

    ghost view = { λ i. record { inbox = i.inbox; due = i.due } };
}

impl FlowInbox {
    fn take_message(
        &mut self,
        alloc: Global,
        endpoint: &mut Endpoint,
        now: u64,
        buf: &mut [u8],
    ) -> (Flow, TakenMessage)
        ensures { TakesHere result now (length buf.old) self.old self.new endpoint.old endpoint.new }
    {
        let taken = self.inbox.take(alloc, endpoint, now, buf);
        self.due = stays_due(&taken);
        (self.inbox.flow(), taken)
    }

    /// Whether the inbox may go: it isn't due, and nothing is begun in it, or what is can't be ended.
    fn is_over(&self, endpoint: &Endpoint) -> bool
        ensures { result ≡ is_over self.now endpoint.now }
    {
        !self.due && (self.inbox.is_idle() || !endpoint.has_receiver(&self.inbox.flow()))
    }
}

/// The inboxes of the flows that a node receives, in the order in which they were heard of.
///
/// Whoever has it pulls the reports of the endpoint, and hands in the flow of each `Accepted`: octets of
/// it may be unread then. An inbox goes when all of its flow was read and no message is begun, or its
/// flow has no receiver any more: who hands in the flow of each `Released` too keeps none for longer.
#[derive(Drop)]
pub struct FlowInboxes {
    longest: Option<usize>,
    inboxes: Vec<FlowInbox>,
    dropped: u64,
}

impl Model for FlowInboxes {
    ghost Value = { FlowInboxesValue };

    ghost view = { λ i. record { longest = i.longest; inboxes = i.inboxes.items; dropped = i.dropped } };
}

impl FlowInboxes {
    /// No flow was heard of. A message has `longest` octets at most, or as many as there is memory for.
    pub fn new(alloc: Global, longest: Option<usize>) -> FlowInboxes
        ensures { result ≡ no_inboxes longest }
    {
        FlowInboxes {
            longest,
            inboxes: Vec::new(alloc),
            dropped: 0,
        }
    }

    /// Octets of a flow may be unread: its inbox is due, and is made where there is none. `NoMemory` where
    /// there is none for that; then nothing has changed. The cost is a look at each inbox.
    pub fn hear(&mut self, flow: Flow) -> Result<(), NoMemory>
        ensures due { OnOk result (self.new ≡ heard flow self.old) }
        ensures same { OnErr result (self.new ≡ self.old) }
    {
        if let Some(place) = self.place_of(&flow) {
            self.inboxes[place].due = true;
            return Ok(());
        }
        let inbox = Inbox::new(flow, self.longest);
        self.inboxes.push(FlowInbox { inbox, due: true })?;
        Ok(())
    }

    /// A message is taken of the first flow that is due, as [`Inbox::take`] does, or nothing is done where
    /// none is. A flow of which nothing is unread is due no more, nor is any that the endpoint doesn't
    /// read, and its inbox goes where it may. The cost is a look at each inbox, beside that of the taking.
    pub fn take(
        &mut self,
        alloc: Global,
        endpoint: &mut Endpoint,
        now: u64,
        buf: &mut [u8],
    ) -> Option<(Flow, TakenMessage)>
        ensures { TakesAny result now (length buf.old) self.old self.new endpoint.old endpoint.new }
    {
        let place = self.first_due()?;
        let first = &mut self.inboxes[place];
        let before = first.inbox.dropped();
        let answer = first.take_message(alloc, endpoint, now, buf);
        let more = first.inbox.dropped().saturating_sub(before);
        let is_over = first.is_over(endpoint);
        self.dropped = self.dropped.saturating_add(more);
        if is_over {
            self.inboxes.remove(place);
        }
        Some(answer)
    }

    /// [`FlowInboxes::take`] flow by flow, in pieces of 4096 octets at most, until one has a message, none
    /// is due or there is want of memory. So many flows are looked at in one call, 65537 at most: then it
    /// answers that the last one has no message.
    pub fn take_next(
        &mut self,
        alloc: Global,
        endpoint: &mut Endpoint,
        now: u64,
    ) -> Option<(Flow, TakenMessage)>
        ensures { TakesNext result now self.old self.new endpoint.old endpoint.new }
    {
        let mut buf = [0; ROOM];
        for _ in 0..MOST_PASSES {
            let (flow, taken) = self.take(alloc, endpoint, now, &mut buf)?;
            if !passes_on(&taken) {
                return Some((flow, taken));
            }
        }
        self.take(alloc, endpoint, now, &mut buf)
    }

    /// The inbox of a flow goes, if it has one, with what was begun in it: as where the endpoint has no
    /// receiver for the flow any more.
    pub fn forget(&mut self, flow: &Flow)
        ensures { self.new ≡ without flow.now self.old }
    {
        if let Some(place) = self.place_of(flow) {
            self.inboxes.remove(place);
        }
    }

    /// How many inboxes there are.
    pub fn len(&self) -> usize
        ensures { result ≡ length self.now.inboxes }
    {
        self.inboxes.len()
    }

    /// How many messages were longer than the longest, of all flows: 2^64 - 1 at most.
    pub fn dropped(&self) -> u64
        ensures { result ≡ self.now.dropped }
    {
        self.dropped
    }

    fn first_due(&self) -> Option<usize>
        ensures { result ≡ position is_due self.now.inboxes }
    {
        self.inboxes.iter().position(|inbox| is_due(inbox))
    }

    fn place_of(&self, flow: &Flow) -> Option<usize>
        ensures { result ≡ position (is_of flow.now) self.now.inboxes }
    {
        self.inboxes.iter().position(|inbox| is_of(inbox, flow))
    }
}

fn is_of(inbox: &FlowInbox, flow: &Flow) -> bool
    ensures { result ≡ is_of flow.now inbox.now }
{
    inbox.inbox.flow() == *flow
}

fn is_due(inbox: &FlowInbox) -> bool
    ensures { result ≡ is_due inbox.now }
{
    inbox.due
}

/// Whether more of a flow may be unread.
fn stays_due(taken: &TakenMessage) -> bool
    ensures { result ≡ stays_due taken.now }
{
    match taken {
        TakenMessage::Whole(_)
        | TakenMessage::Lost
        | TakenMessage::Unfinished
        | TakenMessage::NoRoom => true,
        TakenMessage::Nothing
        | TakenMessage::NoMemory
        | TakenMessage::Spent
        | TakenMessage::BadFlow => false,
    }
}

/// Whether the next flow is asked.
fn passes_on(taken: &TakenMessage) -> bool
    ensures { result ≡ passes_on taken.now }
{
    match taken {
        TakenMessage::Nothing | TakenMessage::Unfinished | TakenMessage::BadFlow => true,
        TakenMessage::Whole(_)
        | TakenMessage::Lost
        | TakenMessage::NoMemory
        | TakenMessage::Spent
        | TakenMessage::NoRoom => false,
    }
}
