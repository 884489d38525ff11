//! The events that a program takes from a service: a request, an answer, or a call with an unsure end.
use crate::calls::Cause;
use crate::names::{CallNumber, Token};
use dt_units::Flow;
use std::marker::Model;

/// What a request or an answer carries: 0 to 65,528 octets.
#[derive(Drop)]
pub struct Payload {
    pub octets: Vec<u8>,
}

impl Model for Payload {
    ghost use Rattle.std.specs.Prelude.{ℕ, List};

    ghost Value = { List ℕ };

    ghost view = { λ p. p.octets.items };
}

/// What happens at a node, as its program takes it.
#[derive(Drop)]
pub enum Happening {
    /// A request came. It is handed out once, and its name is its token.
    Request { token: Token, payload: Payload },
    /// A call ended with its answer.
    Answered { call: CallNumber, answer: Payload },
    /// A call ended without one. It was served once or not at all, and may still be.
    Unsure { call: CallNumber, cause: Cause },
    /// Octets of replies to requests of this flow were given up: each of them was delivered once or not at
    /// all. Their callers aren't told. Until this is taken it isn't handed out again.
    ReplyUncertain { flow: Flow },
}
