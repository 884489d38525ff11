//! What is asked of a service, before it closes where there is no memory.
ghost use Rattle.std.specs.Prelude.{◌≡◌, ◌<◌, ◌^◌, Bool, false, IfOk, OnErr, OnOk};
ghost use Rattle.dt_service_model.specs.declared.answers.Forgot.TheVariants as forgot;
ghost use Rattle.dt_service_model.specs.Asked.{arrive, call, forget, forgotten_unless, made_of, next_number, replied_of, reply, tick, with_call_unless};
ghost use Rattle.dt_service_model.specs.CallBook.{CallBook as BookValue};
ghost use Rattle.dt_service_model.specs.Stopping.{ArriveStops, CallStops, ForgetStops, ReplyStops, TickStops};
ghost use Rattle.dt_service_model.specs.Turns.{hears, turn_end, with_book};
ghost use Rattle.dt_service.specs.Nodes.{Is, RestStops, node_in};

use crate::sending::{pass, receive, send_message};
use crate::service_parts::ServiceParts;
use dt_call_book::{reversed, write_message};
use dt_endpoint::{Received, Ticked};
use dt_items::NoMemory;
use dt_reports::Refusal;
use dt_service_model::{CallNumber, Declined, Forgot, Made, Replied, Token};
use dt_units::Flow;

/// The answer to a call whose request was sent.
fn made_of(refused: Option<Refusal>, number: CallNumber) -> Made
    ensures { (h : BookValue) → number ≡ next_number h → result ≡ made_of refused h }
{
    match refused {
        None => Made::Call(number),
        Some(Refusal::Quiet { until }) => Made::Declined(Declined::Quiet { until }),
        Some(Refusal::Full { free }) => Made::Declined(Declined::Full { free }),
    }
}

/// The answer to a reply that was sent.
fn replied_of(refused: Option<Refusal>) -> Replied
    ensures { result ≡ replied_of refused }
{
    match refused {
        None => Replied::Done,
        Some(Refusal::Quiet { .. }) => Replied::Full { free: 0 },
        Some(Refusal::Full { free }) => Replied::Full { free },
    }
}

impl ServiceParts {
    /// The rest of a turn, after its event.
    fn finish(&mut self, now: u64) -> Result<(), NoMemory>
        ensures ended { OnOk result (node_in self.new ≡ turn_end now (hears (node_in self.old))) }
        ensures stops { OnErr result (RestStops now (node_in self.old) (node_in self.new)) }
    {
        self.hear_reports()?;
        self.end_turn(now)
    }

    /// A tick.
    pub fn tick(&mut self, now: u64) -> Result<Ticked, NoMemory>
        ensures done { IfOk result (λ answer. Is answer (node_in self.new) (tick now (node_in self.old))) }
        ensures stops { OnErr result (TickStops now (node_in self.old) (node_in self.new)) }
    {
        if self.is_closed() {
            return Ok(Ticked::Spent);
        }
        pass(&mut self.endpoint, now)?;
        self.finish(now)?;
        Ok(Ticked::Done)
    }

    /// A datagram comes.
    pub fn arrive(
        &mut self,
        now: u64,
        link: u16,
        datagram: &[u8],
        waited: u32,
    ) -> Result<Received, NoMemory>
        ensures done { IfOk result (λ answer. Is answer (node_in self.new) (arrive now link datagram.now waited (node_in self.old))) }
        ensures stops { OnErr result (ArriveStops now link datagram.now waited (node_in self.old) (node_in self.new)) }
    {
        if self.is_closed() {
            return Ok(Received::Spent);
        }
        if let Some(refusal) = receive(&mut self.endpoint, now, link, datagram, waited)? {
            return Ok(refusal);
        }
        self.finish(now)?;
        Ok(Received::Done)
    }

    /// A call is kept, unless its request wasn't taken.
    fn keep_call(
        &mut self,
        refused: Option<Refusal>,
        flow: Flow,
        count: u32,
        deadline: u64,
    ) -> Result<(), NoMemory>
        requires { self.old.book.count < 2 ^ 32 }
        ensures kept { OnOk result (node_in self.new ≡ with_book (with_call_unless refused flow count deadline) (node_in self.old)) }
        ensures same { OnErr result (node_in self.new ≡ node_in self.old) }
    {
        if refused.is_none() {
            self.book.add_call(flow, count, deadline)?;
        }
        Ok(())
    }

    /// A call.
    pub fn call(
        &mut self,
        now: u64,
        flow: Flow,
        payload: &[u8],
        patience: u32,
    ) -> Result<Made, NoMemory>
        ensures done { IfOk result (λ answer. Is answer (node_in self.new) (call now flow payload.now patience (node_in self.old))) }
        ensures stops { OnErr result (CallStops now flow payload.now patience (node_in self.old) (node_in self.new)) }
    {
        if let Some(refusal) = self.refuses_call(&flow, payload, patience) {
            return Ok(refusal);
        }
        let Some(number) = self.book.next_number() else {
            return Ok(Made::Declined(Declined::Numbers));
        };
        write_message(number, payload, &mut self.message)?;
        let count = self.message.len() as u32;
        let deadline = self.endpoint.moment_at(now) + u64::from(patience);
        let refused = send_message(&mut self.endpoint, now, flow, &self.message)?;
        self.hear_reports()?;
        self.keep_call(refused, flow, count, deadline)?;
        self.end_turn(now)?;
        Ok(made_of(refused, number))
    }

    /// A token is open no more, unless its reply wasn't taken.
    fn drop_unless(&mut self, refused: Option<Refusal>, token: &Token)
        ensures { node_in self.new ≡ with_book (forgotten_unless refused token.now) (node_in self.old) }
    {
        if refused.is_none() {
            self.book.forget(token);
        }
    }

    /// A reply.
    pub fn reply(&mut self, now: u64, token: Token, payload: &[u8]) -> Result<Replied, NoMemory>
        ensures done { IfOk result (λ answer. Is answer (node_in self.new) (reply now token payload.now (node_in self.old))) }
        ensures stops { OnErr result (ReplyStops now token payload.now (node_in self.old) (node_in self.new)) }
    {
        if let Some(refusal) = self.refuses_reply(&token, payload) {
            return Ok(refusal);
        }
        write_message(token.number, payload, &mut self.message)?;
        let flow = reversed(token.flow);
        let refused = send_message(&mut self.endpoint, now, flow, &self.message)?;
        self.hear_reports()?;
        self.drop_unless(refused, &token);
        self.end_turn(now)?;
        Ok(replied_of(refused))
    }

    /// A token is forgotten.
    pub fn forget(&mut self, now: u64, token: &Token) -> Result<Forgot, NoMemory>
        ensures done { IfOk result (λ answer. Is answer (node_in self.new) (forget now token.now (node_in self.old))) }
        ensures stops { OnErr result (ForgetStops now token.now (node_in self.old) (node_in self.new)) }
    {
        if self.is_closed() || !self.book.is_open(token) {
            return Ok(Forgot::Gone);
        }
        self.book.forget(token);
        self.end_turn(now)?;
        Ok(Forgot::Done)
    }
}
