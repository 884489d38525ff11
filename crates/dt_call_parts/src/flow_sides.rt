//! What is kept of a flow with a call: the messages that its two sides have begun to read.
ghost use Rattle.std.specs.Prelude.{◌≡◌, None, IfOk, OnErr, option_map};
ghost use Rattle.dt_units.specs.Flows.{IsFlow};
ghost use Rattle.dt_calls_model.specs.Calls.{begun_at, flow_read, none_begun, with_begun};
ghost use Rattle.dt_calls_model.specs.CallStep.{without_reader};
ghost use Rattle.dt_calls_model.specs.Messages.{begun_with, whole_with};
ghost use Rattle.dt_call_parts.specs.Flows.{begun_of};
ghost use Rattle.dt_messages.specs.Joining.{piece_with};
ghost use Rattle.dt_call_parts.specs.Sides.{side_seen};

use dt_items::NoMemory;
use dt_messages::{Joiner, Marks, reversed};
use dt_units::{Flow, NodeId};
use std::alloc::Global;
use std::marker::Model;

/// Who reads at a flow with a call: the server reads requests, and the client reads replies.
#[derive(Clone, Copy)]
pub enum Side {
    Server,
    Client,
}

impl Side {
    /// The flow that this side reads, at calls on such a flow.
    pub fn flow_read(self, flow: Flow) -> Flow
        ensures flow { result ≡ flow_read (side_seen self) flow }
        ensures range { IsFlow result }
    {
        match self {
            Side::Server => flow,
            Side::Client => reversed(flow),
        }
    }
}

/// What was read of a message that isn't whole yet, if one has begun. A message of a call may have any
/// length.
#[derive(Drop)]
pub struct Begun {
    joiner: Joiner,
}

impl Model for Begun {
    ghost use Rattle.std.specs.Prelude.{◌≡◌, ℕ, List, None, Option};

    ghost Value = { Option (List ℕ) };

    ghost view = { λ b. b.joiner.begun };

    ghost invariant = { λ b. b.joiner.longest ≡ None };
}

impl Begun {
    /// No message has begun.
    pub fn new() -> Begun
        ensures { result ≡ None }
    {
        Begun {
            joiner: Joiner::new(None),
        }
    }

    /// What was begun is dropped.
    pub fn drop_begun(&mut self)
        ensures { self.new ≡ None }
    {
        self.joiner.lose();
    }

    /// A piece goes on it. Answers the message that it makes whole, if it does. `NoMemory` leaves what was
    /// begun as it was. The cost is the piece.
    pub fn join(
        &mut self,
        alloc: Global,
        marks: Marks,
        octets: &[u8],
    ) -> Result<Option<Vec<u8>>, NoMemory>
        ensures whole { IfOk result (λ whole. option_map (λ message. message.items) whole ≡ whole_with self.old (piece_with marks octets.now)) }
        ensures begun { IfOk result (λ _. self.new ≡ begun_with self.old (piece_with marks octets.now)) }
        ensures same { OnErr result (self.new ≡ self.old) }
    {
        match self.joiner.join(alloc, marks, octets)? {
            Some(message) => Ok(Some(message.octets)),
            None => Ok(None),
        }
    }
}

/// What the sides of a flow with a call have begun to read.
#[derive(Drop)]
pub struct FlowSides {
    /// Requests, as the server reads them.
    pub request: Begun,
    /// Replies, as the client reads them.
    pub reply: Begun,
}

impl FlowSides {
    /// Nothing has begun.
    pub fn new() -> FlowSides
        ensures { begun_of result ≡ none_begun }
    {
        FlowSides {
            request: Begun::new(),
            reply: Begun::new(),
        }
    }

    /// A piece goes on what a side has begun, as in [`Begun::join`].
    pub fn join(
        &mut self,
        side: Side,
        alloc: Global,
        marks: Marks,
        octets: &[u8],
    ) -> Result<Option<Vec<u8>>, NoMemory>
        ensures whole { let before = begun_of self.old in
            IfOk result (λ whole. option_map (λ message. message.items) whole ≡ whole_with (begun_at (side_seen side) before) (piece_with marks octets.now)) }
        ensures begun { let before = begun_of self.old in
            IfOk result (λ _. begun_of self.new ≡ with_begun (side_seen side) (begun_with (begun_at (side_seen side) before) (piece_with marks octets.now)) before) }
        ensures same { OnErr result (begun_of self.new ≡ begun_of self.old) }
    {
        match side {
            Side::Server => self.request.join(alloc, marks, octets),
            Side::Client => self.reply.join(alloc, marks, octets),
        }
    }

    /// A station started again: at its side of the flow what was begun is dropped.
    pub fn drop_at(&mut self, flow: &Flow, station: NodeId)
        ensures { (flow.now, begun_of self.new) ≡ without_reader station.0 (flow.now, begun_of self.old) }
    {
        if flow.to == station {
            self.request.drop_begun();
        }
        if flow.from == station {
            self.reply.drop_begun();
        }
    }
}
