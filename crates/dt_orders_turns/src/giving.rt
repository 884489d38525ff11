//! What a client notes, calls and cancels.
ghost use Rattle.std.specs.Prelude.{◌≡◌, ◌+◌, ◌<◌, ◌^◌, IfSome};
ghost use Rattle.dt_orders_model.specs.Lanes.{lane_opened};
ghost use Rattle.dt_orders_turns.specs.Giving.{asks as asks_in, asks_as, attempt_of, calls, cancels, gave, held_in, left_as, fate_or, made_in, question, sending_of, since_of, started, started_client, unsure_in, with_client, with_lane, with_request};

use crate::answers::{INVALID, NONE, OK, fate_as};
use dt_order_lanes::{
    call as call_lane, cancel as cancel_lane, give as give_lane, made as made_lane, reopen,
    unsure as unsure_lane,
};
use dt_orders_model::{Attempt, Called, Client, Fate, Kind, Known, Lane, Left, Sending};
use dt_orders_octets::{
    NumberedLane, Request, read_answer, read_client, read_lane, write_client, write_lane,
    write_request,
};

/// What a client keeps, in octets: its state, which all its lanes share, a lane, and the request of the lane
/// that waits for its answer. The program stores the lane when it changed and the client's state with a fate.
#[repr(C)]
#[derive(Clone, Copy)]
pub struct OrdersLane {
    pub client: [u8; 80],
    pub lane: [u8; 104],
    pub request: [u8; 112],
}

/// The client and the lane, read.
#[derive(Clone, Copy)]
pub struct Held {
    pub client: Client,
    pub number: u32,
    pub lane: Lane,
}

/// What the octets hold: `None` if they spell nothing, or the lane's numbers are used up.
pub(crate) fn read_held(turn: &OrdersLane) -> Option<Held>
    ensures is { result ≡ held_in turn.now }
    ensures last { IfSome result (λ h. h.lane.last + 1 < 2 ^ 64) }
{
    let Some(client) = read_client(&turn.client) else {
        return None;
    };
    let Some(numbered) = read_lane(&turn.lane) else {
        return None;
    };
    if numbered.lane.last < 9_223_372_036_854_775_807 {
        Some(Held {
            client,
            number: numbered.number,
            lane: numbered.lane,
        })
    } else {
        None
    }
}

/// A lane goes into the octets.
pub(crate) fn put_lane(turn: &mut OrdersLane, number: u32, lane: &Lane)
    ensures { turn.new ≡ with_lane turn.old number lane.now }
{
    let octets = write_lane(&NumberedLane {
        number,
        lane: *lane,
    });
    turn.lane.copy_from_slice(octets.as_slice());
}

/// The client's state goes into the octets.
pub(crate) fn put_client(turn: &mut OrdersLane, client: &Client)
    ensures { turn.new ≡ with_client turn.old client.now }
{
    let octets = write_client(client);
    turn.client.copy_from_slice(octets.as_slice());
}

fn put_request(turn: &mut OrdersLane, number: u32, called: &Called)
    ensures { turn.new ≡ with_request turn.old number called.now }
{
    let octets = write_request(&Request {
        lane: number,
        called: *called,
    });
    turn.request.copy_from_slice(octets.as_slice());
}

fn started_client(client: &Client, nonce: u64, once: bool) -> Client
    ensures { result ≡ started_client client.now nonce once }
{
    Client {
        nonce,
        known: client.known,
        stopped: None,
        is_once: once,
    }
}

/// The client's state and the lane of a new opening go into the octets.
fn put_started(turn: &mut OrdersLane, held: &Held, nonce: u64, number: u32, once: bool)
    ensures { turn.new ≡
        with_lane (with_client turn.old (started_client held.now.client nonce once)) number (lane_opened held.now.lane) }
{
    put_client(turn, &started_client(&held.client, nonce, once));
    put_lane(turn, number, &reopen(&held.lane));
}

/// A new opening of the client's store: the client's state, zeros at first, and a lane, zeros at first, as the
/// store has them, get this nonce and this number. It is called for each lane. The program stores something and
/// syncs it before it calls anything.
pub fn start(turn: &mut OrdersLane, nonce: u64, number: u32, once: bool) -> u8
    ensures answer { result ≡ (started nonce number once turn.old).0 }
    ensures octets { turn.new ≡ (started nonce number once turn.old).1 }
{
    match read_held(turn) {
        None => INVALID,
        Some(held) => {
            put_started(turn, &held, nonce, number, once);
            OK
        }
    }
}

/// Notes an order on the lane, under the record of this number, in which the program stores the lane. `NONE` if
/// the lane has an order, the client knows nothing of its server, or it is stopped.
pub fn give(turn: &mut OrdersLane, uid: u64, record_number: u64) -> u8
    ensures answer { result ≡ (gave uid record_number turn.old).0 }
    ensures octets { turn.new ≡ (gave uid record_number turn.old).1 }
{
    let Some(held) = read_held(turn) else {
        return INVALID;
    };
    let Some(lane) = give_lane(&held.client, &held.lane, uid, record_number) else {
        return NONE;
    };
    put_lane(turn, held.number, &lane);
    OK
}

fn attempt_of(client: &Client, count: u32) -> Attempt
    ensures { result ≡ attempt_of client.now count }
{
    Attempt {
        nonce: client.nonce,
        count,
    }
}

/// The request of the lane's order, if the records up to `stored` are stored and its own is among them, and no
/// call of it waits. `count` differs from that of every call since [`start`]. The program sends the request
/// with the order's body behind it. `NONE` if there is nothing to call now.
pub fn call(turn: &mut OrdersLane, stored: u64, count: u32) -> u8
    ensures answer { result ≡ (calls stored count turn.old).0 }
    ensures octets { turn.new ≡ (calls stored count turn.old).1 }
{
    let Some(held) = read_held(turn) else {
        return INVALID;
    };
    let attempt = attempt_of(&held.client, count);
    let Some(called) = call_lane(&held.client, &held.lane, stored, attempt) else {
        return NONE;
    };
    put_request(turn, held.number, &called);
    OK
}

fn since_of(known: &Option<Known>) -> Known
    ensures { result ≡ since_of known.now }
{
    match known {
        None => Known {
            opening: 0,
            nonce: 0,
            clock: 0,
        },
        Some(known) => *known,
    }
}

fn question(client: &Client, knows: &Option<Known>, count: u32) -> Called
    ensures { result ≡ question client.now knows.now count }
{
    Called {
        kind: Kind::Ask,
        number: 0,
        tag: 0,
        since: since_of(knows),
        attempt: attempt_of(client, count),
        knows: *knows,
        is_only: false,
    }
}

/// The request of a question. If `answer` is empty it carries what the client knows; else it carries the commit
/// that this answer named: the server refuses it as forked exactly if its store lost that commit. Use a lane of
/// its own for questions.
pub fn ask(turn: &mut OrdersLane, answer: &[u8], count: u32) -> u8
    ensures answer { result ≡ (asks_in answer.now count turn.old).0 }
    ensures octets { turn.new ≡ (asks_in answer.now count turn.old).1 }
{
    let Some(held) = read_held(turn) else {
        return INVALID;
    };
    if answer.len() == 0 {
        let called = question(&held.client, &held.client.known, count);
        put_request(turn, held.number, &called);
        return OK;
    }
    let Some(answer) = read_answer(answer) else {
        return INVALID;
    };
    let called = question(&held.client, &Some(answer.heard), count);
    put_request(turn, held.number, &called);
    OK
}

fn sending_of(sent: bool) -> Sending
    ensures { result ≡ sending_of sent }
{
    if sent {
        Sending::Sent
    } else {
        Sending::Declined
    }
}

/// The transport took the call, or certainly didn't. A call that may have been sent was `sent`.
pub fn made(turn: &mut OrdersLane, sent: bool) -> u8
    ensures answer { result ≡ (made_in sent turn.old).0 }
    ensures octets { turn.new ≡ (made_in sent turn.old).1 }
{
    match read_held(turn) {
        None => INVALID,
        Some(held) => {
            put_lane(turn, held.number, &made_lane(&held.lane, sending_of(sent)));
            OK
        }
    }
}

/// The call ended without an answer: the order is called again.
pub fn unsure(turn: &mut OrdersLane) -> u8
    ensures answer { result ≡ (unsure_in turn.old).0 }
    ensures octets { turn.new ≡ (unsure_in turn.old).1 }
{
    match read_held(turn) {
        None => INVALID,
        Some(held) => {
            put_lane(turn, held.number, &unsure_lane(&held.lane));
            OK
        }
    }
}

fn fate_or(other: u8, fate: &Option<Fate>) -> u8
    ensures { result ≡ fate_or other fate.now }
{
    match fate {
        None => other,
        Some(fate) => fate_as(*fate),
    }
}

/// What something left of the lane goes into the octets, and its fate is answered, or else `other`.
pub(crate) fn put_left(turn: &mut OrdersLane, number: u32, left: &Left, other: u8) -> u8
    ensures answer { result ≡ (left_as other left.now number turn.old).0 }
    ensures octets { turn.new ≡ (left_as other left.now number turn.old).1 }
{
    put_lane(turn, number, &left.lane);
    fate_or(other, &left.fate)
}

/// Cancels the lane's order. `NEVER` is its fate, if it was never called; `OK`: it is asked about, and its fate
/// is the answer's. `NONE` if the lane has no order.
pub fn cancel(turn: &mut OrdersLane) -> u8
    ensures answer { result ≡ (cancels turn.old).0 }
    ensures octets { turn.new ≡ (cancels turn.old).1 }
{
    let Some(held) = read_held(turn) else {
        return INVALID;
    };
    match held.lane.order {
        None => NONE,
        Some(_) => put_left(turn, held.number, &cancel_lane(&held.lane), OK),
    }
}
