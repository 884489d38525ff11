//! Why what is asked of a service is refused.
ghost use Rattle.std.specs.Prelude.{◌≡◌, ◌+◌, ◌≤◌, ◌<◌, ◌^◌, IfNone, length, nat_le, not};
ghost use Rattle.dt_world_model.specs.WorldStep.{first_refusal};
ghost use Rattle.dt_service_model.specs.Asked.{call_refusals, goes_out, is_closed, is_one_too_many, is_too_long, reply_refusals};
ghost use Rattle.dt_service_model.specs.CallBook.{calls_held, is_caller, kind_in, longest_message};
ghost use Rattle.dt_service.specs.Nodes.{node_in};

use crate::service_parts::ServiceParts;
use dt_call_book::{LONGEST_MESSAGE, reversed};
use dt_service_model::{Declined, Made, PortKind, Replied, Token, Unfit};
use dt_units::Flow;

/// A call or reply is refused if all octets that were asked for would reach this count.
const ASKED_LIMIT: u64 = 1 << 62;

fn is_caller(kind: Option<PortKind>) -> bool
    ensures { result ≡ is_caller kind }
{
    match kind {
        Some(PortKind::Caller) => true,
        Some(PortKind::Service) | None => false,
    }
}

impl ServiceParts {
    /// Whether the node was closed, or found no memory.
    pub fn is_closed(&self) -> bool
        ensures { result ≡ is_closed (node_in self.now) }
    {
        self.endpoint.is_spent() || self.book.is_closed()
    }

    /// Whether a flow goes from this node to another.
    fn goes_out(&self, flow: &Flow) -> bool
        ensures { result ≡ goes_out (node_in self.now) flow.now }
    {
        let me = self.endpoint.me();
        flow.from == me && flow.to != me
    }

    /// Whether a message with this is longer than any that is sent.
    fn is_too_long(&self, carried: &[u8]) -> bool
        ensures { result ≡ is_too_long (node_in self.now) carried.now }
    {
        let most = LONGEST_MESSAGE.min(self.endpoint.rules().params().cap as usize);
        most < 8 + carried.len()
    }

    /// Whether with a message of this as many octets as may be would have been handed in.
    fn is_one_too_many(&self, carried: &[u8]) -> bool
        ensures { result ≡ is_one_too_many (node_in self.now) carried.now }
    {
        let count = 8 + carried.len() as u64;
        self.endpoint.asked().saturating_add(count) >= ASKED_LIMIT
    }

    /// Whether each number of this life was used.
    fn is_out_of_numbers(&self) -> bool
        ensures { result ≡ nat_le (2 ^ 32) self.now.book.count }
    {
        self.book.next_number().is_none()
    }

    /// Whether as many calls as may be wait, or have ends that weren't taken.
    fn is_crowded(&self) -> bool
        ensures { result ≡ nat_le self.now.book.most.calls (calls_held self.now.book) }
    {
        !self.book.has_room_for_call()
    }

    /// Whether a flow goes from a caller.
    fn goes_from_caller(&self, flow: &Flow) -> bool
        ensures { result ≡ is_caller (kind_in flow.now.from_port self.now.book.ports) }
    {
        is_caller(self.book.kind(flow.from_port))
    }

    /// Why a call is refused, or none where it isn't.
    pub fn refuses_call(&self, flow: &Flow, payload: &[u8], patience: u32) -> Option<Made>
        ensures refusal { result ≡ first_refusal (call_refusals (node_in self.now) flow.now payload.now patience) }
        ensures short { IfNone result (8 + length payload.now ≤ longest_message) }
        ensures numbered { IfNone result (self.now.book.count < 2 ^ 32) }
    {
        if self.is_closed() {
            return Some(Made::Refused(Unfit::Closed));
        }
        if !self.goes_out(flow) {
            return Some(Made::Refused(Unfit::BadFlow));
        }
        if !self.goes_from_caller(flow) {
            return Some(Made::Refused(Unfit::NotACaller));
        }
        if self.is_too_long(payload) {
            return Some(Made::Refused(Unfit::TooLong));
        }
        if patience == 0 {
            return Some(Made::Refused(Unfit::NoPatience));
        }
        if self.is_one_too_many(payload) {
            return Some(Made::Refused(Unfit::TooMany));
        }
        if self.is_out_of_numbers() {
            return Some(Made::Declined(Declined::Numbers));
        }
        if self.is_crowded() {
            return Some(Made::Declined(Declined::Many));
        }
        None
    }

    /// Why a reply is refused, or none where it isn't.
    pub fn refuses_reply(&self, token: &Token, payload: &[u8]) -> Option<Replied>
        ensures { result ≡ first_refusal (reply_refusals (node_in self.now) token.now payload.now) }
    {
        if self.is_closed() {
            return Some(Replied::Refused(Unfit::Closed));
        }
        if self.is_too_long(payload) {
            return Some(Replied::Refused(Unfit::TooLong));
        }
        if !self.book.is_open(token) {
            return Some(Replied::Gone);
        }
        if !self.goes_out(&reversed(token.flow)) {
            return Some(Replied::Refused(Unfit::BadFlow));
        }
        if self.is_one_too_many(payload) {
            return Some(Replied::Refused(Unfit::TooMany));
        }
        None
    }
}
