//! What a whole message is: at a caller the reply to a call, and at a service a request.
ghost use Rattle.std.specs.Prelude.{◌≡◌, ◌&&◌, Some, IfOk, OnErr, OnOk, is_some, not, option_map};
ghost use Rattle.dt_messages.specs.Joining.{piece_with, whole_within, within};
ghost use Rattle.dt_service_model.specs.CallBook.{counted_up, longest_message};
ghost use Rattle.dt_service_model.specs.Whole.{begun_of, grown, stray_counted, take_message, take_piece, take_reply, take_request};

use crate::begun_messages::{joined, put_begun, take_begun};
use crate::call_book::CallBook;
use dt_items::NoMemory;
use dt_messages::{Marks, read_message, reversed};
use dt_service_model::{CallNumber, Happening, Payload, PortKind, Token};
use dt_units::Flow;
use std::alloc::Global;

/// The most octets of a message.
pub const LONGEST_MESSAGE: usize = 65_536;

fn counted_up(count: u64) -> u64
    ensures { result ≡ counted_up count }
{
    count.saturating_add(1)
}

/// A message that isn't too long, and whether it was.
fn fit(octets: Option<Vec<u8>>) -> (Option<Vec<u8>>, bool)
    ensures fitting { option_map (λ o. o.items) result.0 ≡ within (Some longest_message) (option_map (λ o. o.items) octets) }
    ensures long { result.1 ≡ (is_some octets && not (is_some (within (Some longest_message) (option_map (λ o. o.items) octets)))) }
{
    match octets {
        Some(octets) if octets.len() <= LONGEST_MESSAGE => (Some(octets), false),
        Some(_) => (None, true),
        None => (None, false),
    }
}

impl CallBook {
    /// A piece that was read goes on what was begun of its flow, and the message that it makes whole is
    /// taken. After `NoMemory` nothing is said of what was begun.
    pub fn take_piece(
        &mut self,
        alloc: Global,
        flow: Flow,
        marks: Marks,
        octets: &[u8],
    ) -> Result<(), NoMemory>
        ensures taken { OnOk result (self.new ≡ take_piece flow (piece_with marks octets.now) self.old) }
        ensures same { OnErr result (self.new ≡ record self.old { begun = self.new.begun; counts = self.new.counts }) }
    {
        let Some(message) = self.grow(alloc, flow, marks, octets)? else {
            return Ok(());
        };
        self.take_message(alloc, flow, &message)
    }

    /// A piece goes on what was begun. Answers the message that it makes whole, if it does.
    fn grow(
        &mut self,
        alloc: Global,
        flow: Flow,
        marks: Marks,
        octets: &[u8],
    ) -> Result<Option<Vec<u8>>, NoMemory>
        ensures whole { IfOk result (λ whole. option_map (λ o. o.items) whole ≡ whole_within (Some longest_message) (begun_of flow self.old) (piece_with marks octets.now)) }
        ensures grown { OnOk result (self.new ≡ grown flow (begun_of flow self.old) (piece_with marks octets.now) self.old) }
        ensures same { OnErr result (self.new ≡ record self.old { begun = self.new.begun; counts = self.new.counts }) }
    {
        let begun = take_begun(&mut self.begun, &flow);
        let is_cut = begun.is_some() && (marks.begin || marks.run);
        let (octets, is_long) = fit(joined(alloc, begun, marks, octets)?);
        if is_cut {
            self.counts.cut = counted_up(self.counts.cut);
        }
        if is_long {
            self.counts.long = counted_up(self.counts.long);
        }
        if marks.end {
            return Ok(octets);
        }
        put_begun(&mut self.begun, flow, octets)?;
        Ok(None)
    }

    /// A whole message is taken.
    fn take_message(&mut self, alloc: Global, flow: Flow, message: &[u8]) -> Result<(), NoMemory>
        ensures taken { OnOk result (self.new ≡ take_message flow message.now self.old) }
        ensures same { OnErr result (self.new ≡ self.old) }
    {
        let Some((number, carried)) = read_message(message) else {
            self.counts.short = counted_up(self.counts.short);
            return Ok(());
        };
        let number = CallNumber::from_u64(number);
        let octets = Vec::from_slice(alloc, carried)?;
        let payload = Payload { octets };
        match self.kind(flow.to_port) {
            Some(PortKind::Caller) => self.take_reply(&reversed(flow), number, payload),
            Some(PortKind::Service) => self.take_request(Token { flow, number }, payload),
            None => Ok(()),
        }
    }

    /// A reply comes to the call of this number that waits on a flow, or is dropped and counted.
    fn take_reply(&mut self, flow: &Flow, call: CallNumber, answer: Payload) -> Result<(), NoMemory>
        ensures taken { OnOk result (self.new ≡ take_reply flow.now call answer self.old) }
        ensures same { OnErr result (self.new ≡ self.old) }
    {
        if !self.happenings.answer(&mut self.calls, flow, call, answer)? {
            self.count_stray(call);
        }
        Ok(())
    }

    /// A reply that no call of its flow waits for is counted.
    fn count_stray(&mut self, number: CallNumber)
        ensures { self.new ≡ record self.old { counts = stray_counted number self.old } }
    {
        if number.life != self.life {
            self.counts.old = counted_up(self.counts.old);
        } else if u64::from(number.count) < self.count && !self.calls.waits_anywhere(number) {
            self.counts.late = counted_up(self.counts.late);
        } else {
            self.counts.strange = counted_up(self.counts.strange);
        }
    }

    /// A request is handed out, unless its name is open already.
    fn take_request(&mut self, token: Token, payload: Payload) -> Result<(), NoMemory>
        ensures taken { OnOk result (self.new ≡ take_request token payload self.old) }
        ensures same { OnErr result (self.new ≡ self.old) }
    {
        if self.tokens.contains(&token) {
            self.tokens.remove(&token);
            self.counts.reused = counted_up(self.counts.reused);
            return Ok(());
        }
        self.tokens.push(token)?;
        if let Err(no_memory) = self.happenings.push(Happening::Request { token, payload }) {
            self.tokens.remove(&token);
            return Err(no_memory);
        }
        Ok(())
    }
}
