//! Arguments and results of services as they lie in C.
ghost use Rattle.std.specs.Prelude.{◌≡◌};
ghost use Rattle.dt_c.specs.ServiceStructs.{call_counts, call_result, called_as, called_with, cause_number, declined_result, event, event_in, event_with, event_without_room, forgot_status, invalid_number, invalid_status, kind_of, replied_as, replied_with, reply_result, start_of, token_of};

use crate::c_structs::{
    CFlow, FULL, INVALID, NO_MEMORY, NodeOptions, OK, QUIET, STOPPED, c_flow, no_flow,
};
use dt_service::ServiceStart;
use dt_service_model::{
    CallCounts, CallNumber, Cause, Declined, Forgot, Happening, Made, Most, PortKind, Replied,
    Token, Unfit,
};
use dt_units::NodeId;
use std::mem::size_of;

/// As many calls as may wait, or have an end that wasn't taken.
pub const TOO_MANY_CALLS: u8 = 16;
/// Each number of the life was used: another life is to be set.
pub const LIFE_USED_UP: u8 = 17;
/// The request isn't open.
pub const GONE: u8 = 18;

/// How a service starts, beside what it has of a node.
#[repr(C)]
#[derive(Clone, Copy)]
pub struct ServiceOptions {
    pub size: u32,
    /// A number that no opening of this node, and no setting of a life, ever had.
    pub life: u32,
    /// How many calls may wait, or have an end that wasn't taken.
    pub max_calls: u32,
    /// How many requests may have no reply, and how many of one flow.
    pub max_requests: u32,
    pub max_requests_per_flow: u32,
}

/// The name of a request.
#[repr(C)]
#[derive(Clone, Copy)]
pub struct CToken {
    /// The number of its call: the life in the upper 32 bits, and the count in the lower.
    pub call: u64,
    pub flow: CFlow,
}

/// The result of a call.
#[repr(C)]
#[derive(Clone, Copy)]
pub struct CallResult {
    pub call: u64,
    /// Until when the node is silent.
    pub quiet_until: u64,
    /// How many octets fit.
    pub free: u32,
    pub status: u8,
    /// What of it is invalid.
    pub invalid: u8,
}

/// The result of a reply.
#[repr(C)]
#[derive(Clone, Copy)]
pub struct ReplyResult {
    /// How many octets fit.
    pub free: u32,
    pub status: u8,
    /// What of it is invalid.
    pub invalid: u8,
}

/// What happened: `len` octets are at the head of the buffer, or are needed.
#[repr(C)]
#[derive(Clone, Copy)]
pub struct Event {
    pub size: u32,
    pub kind: u8,
    pub cause: u8,
    pub call: u64,
    /// What the call that ends was given, or 0.
    pub user: u64,
    pub len: usize,
    pub flow: CFlow,
}

/// How many messages were dropped, by cause.
#[repr(C)]
#[derive(Clone, Copy)]
pub struct CCallCounts {
    pub size: u32,
    pub reserved: u32,
    pub late_replies: u64,
    pub old_replies: u64,
    pub unknown_replies: u64,
    pub reused_requests: u64,
    pub cut: u64,
    pub too_long: u64,
    pub too_short: u64,
}

/// How many octets a struct has that says its own size.
pub const SERVICE_OPTIONS_SIZE: u32 = 20;

pub const EVENT_SIZE: u32 = 48;

pub const CALL_COUNTS_SIZE: u32 = 64;

// What lies in C is as large there: tests/library/layout.c has the same numbers.
const _: () = prove!(size_of::<ServiceOptions>() == SERVICE_OPTIONS_SIZE as usize);

const _: () = prove!(size_of::<CToken>() == 24);

const _: () = prove!(size_of::<CallResult>() == 24);

const _: () = prove!(size_of::<ReplyResult>() == 8);

const _: () = prove!(size_of::<Event>() == EVENT_SIZE as usize);

const _: () = prove!(size_of::<CCallCounts>() == CALL_COUNTS_SIZE as usize);

impl ServiceOptions {
    /// How the service starts, on a node with these options.
    pub fn start(&self, node: &NodeOptions<'_>) -> ServiceStart
        ensures { result ≡ start_of node.now self.now }
    {
        ServiceStart {
            me: NodeId(node.node),
            again: node.again(),
            life: self.life,
            most: Most {
                calls: self.max_calls,
                requests: self.max_requests,
                of_a_flow: self.max_requests_per_flow,
            },
        }
    }
}

impl CToken {
    pub fn token(&self) -> Token
        ensures { result ≡ token_of self.now }
    {
        Token {
            flow: self.flow.flow(),
            number: CallNumber::from_u64(self.call),
        }
    }
}

/// The kind of a port by its number, if there is one.
pub fn kind_of(number: u8) -> Option<PortKind>
    ensures { result ≡ kind_of number }
{
    match number {
        1 => Some(PortKind::Caller),
        2 => Some(PortKind::Service),
        _ => None,
    }
}

/// What of a call or a reply is invalid.
fn invalid_number(unfit: Unfit) -> u8
    ensures { result ≡ invalid_number unfit }
{
    match unfit {
        Unfit::Closed => 0,
        Unfit::BadFlow => 1,
        Unfit::NotACaller => 2,
        Unfit::TooLong => 3,
        Unfit::NoPatience => 4,
        Unfit::TooMany => 5,
    }
}

/// The status where a call or a reply is refused.
fn invalid_status(unfit: Unfit) -> u8
    ensures { result ≡ invalid_status unfit }
{
    match unfit {
        Unfit::Closed => STOPPED,
        Unfit::BadFlow | Unfit::NotACaller | Unfit::TooLong | Unfit::NoPatience | Unfit::TooMany =>
            INVALID,
    }
}

fn called_with(call: u64, quiet_until: u64, free: u32, status: u8, invalid: u8) -> CallResult
    ensures { result ≡ called_with call quiet_until free status invalid }
{
    CallResult {
        call,
        quiet_until,
        free,
        status,
        invalid,
    }
}

/// A result of a call with nothing but a status.
pub fn called_as(status: u8) -> CallResult
    ensures { result ≡ called_as status }
{
    called_with(0, 0, 0, status, 0)
}

fn declined_result(why: Declined) -> CallResult
    ensures { result ≡ declined_result why }
{
    match why {
        Declined::Quiet { until } => called_with(0, until, 0, QUIET, 0),
        Declined::Full { free } => called_with(0, 0, free, FULL, 0),
        Declined::Numbers => called_as(LIFE_USED_UP),
        Declined::Many => called_as(TOO_MANY_CALLS),
    }
}

pub fn call_result(answer: Made) -> CallResult
    ensures { result ≡ call_result answer }
{
    match answer {
        Made::Call(number) => called_with(number.to_u64(), 0, 0, OK, 0),
        Made::Declined(why) => declined_result(why),
        Made::Refused(unfit) => called_with(0, 0, 0, invalid_status(unfit), invalid_number(unfit)),
        Made::NoMemory => called_as(NO_MEMORY),
    }
}

fn replied_with(free: u32, status: u8, invalid: u8) -> ReplyResult
    ensures { result ≡ replied_with free status invalid }
{
    ReplyResult {
        free,
        status,
        invalid,
    }
}

/// A result of a reply with nothing but a status.
pub fn replied_as(status: u8) -> ReplyResult
    ensures { result ≡ replied_as status }
{
    replied_with(0, status, 0)
}

pub fn reply_result(answer: Replied) -> ReplyResult
    ensures { result ≡ reply_result answer }
{
    match answer {
        Replied::Done => replied_as(OK),
        Replied::Gone => replied_as(GONE),
        Replied::Full { free } => replied_with(free, FULL, 0),
        Replied::Refused(unfit) => replied_with(0, invalid_status(unfit), invalid_number(unfit)),
        Replied::NoMemory => replied_as(NO_MEMORY),
    }
}

pub fn forgot_status(answer: Forgot) -> u8
    ensures { result ≡ forgot_status answer }
{
    match answer {
        Forgot::Done => OK,
        Forgot::Gone => GONE,
        Forgot::NoMemory => NO_MEMORY,
    }
}

/// An event, without the size of its struct and the user of its call.
fn event_with(kind: u8, cause: u8, number: CallNumber, flow: CFlow, len: usize) -> Event
    ensures { result ≡ event_with kind cause number flow len }
{
    Event {
        size: 0,
        kind,
        cause,
        call: number.to_u64(),
        user: 0,
        len,
        flow,
    }
}

const NO_CALL: CallNumber = CallNumber { life: 0, count: 0 };

fn cause_number(cause: Cause) -> u8
    ensures { result ≡ cause_number cause }
{
    match cause {
        Cause::GivenUp => 1,
        Cause::Patience => 2,
        Cause::Closed => 3,
    }
}

/// What happened, without its octets, the size of its struct and the user of its call.
fn event_of(happening: &Happening) -> Event
    ensures { result ≡ event happening.now }
{
    match happening {
        Happening::Request { token, payload } => event_with(
            1,
            0,
            token.number,
            c_flow(token.flow),
            payload.octets.len(),
        ),
        Happening::Answered { call, answer } => {
            event_with(2, 0, *call, no_flow(), answer.octets.len())
        }
        Happening::Unsure { call, cause } => {
            event_with(3, cause_number(*cause), *call, no_flow(), 0)
        }
        Happening::ReplyUncertain { flow } => event_with(4, 0, NO_CALL, c_flow(*flow), 0),
    }
}

/// What happened goes into the caller's struct, with the user of the call that ends.
pub fn fill_event(out: &mut Event, happening: &Happening, user: u64)
    ensures { out.new ≡ event_in happening.now user out.old }
{
    let size = out.size;
    *out = event_of(happening);
    out.size = size;
    out.user = user;
}

/// How many octets the next of what happened carries goes into the caller's struct, since the buffer
/// holds fewer.
pub fn fill_event_without_room(out: &mut Event, len: usize)
    ensures { out.new ≡ event_without_room len out.old }
{
    out.kind = 0;
    out.cause = 0;
    out.call = 0;
    out.user = 0;
    out.len = len;
    out.flow = no_flow();
}

/// How many messages were dropped goes into the caller's struct.
pub fn fill_call_counts(out: &mut CCallCounts, counts: CallCounts)
    ensures { out.new ≡ call_counts counts out.old }
{
    out.late_replies = counts.late;
    out.old_replies = counts.old;
    out.unknown_replies = counts.strange;
    out.reused_requests = counts.reused;
    out.cut = counts.cut;
    out.too_long = counts.long;
    out.too_short = counts.short;
}
