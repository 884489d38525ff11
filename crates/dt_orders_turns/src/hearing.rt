//! What a client makes of an answer.
ghost use Rattle.std.specs.Prelude.{◌≡◌, ◌+◌, ◌<◌, ◌^◌};
ghost use Rattle.dt_orders_turns.specs.Giving.{adopts, answers, heard_as, heard_fit, heard_held, hears, word_said};

use crate::answers::{ALARM, INVALID, OK, STRANGE, UNSURE, WAITS, said_as};
use crate::giving::{Held, OrdersLane, put_client, put_lane, put_left, read_held};
use dt_order_lanes::{adopt as adopt_client, hear as hear_answer, learn, take, unsure};
use dt_orders_model::{Answer, Called, Hearing};
use dt_orders_octets::{read_answer, read_client, read_request};

fn take_heard(
    turn: &mut OrdersLane,
    hearing: Hearing,
    held: &Held,
    heard: &(Called, Answer),
    record_number: u64,
) -> u8
    requires { heard.now.1.value + 1 < 2 ^ 64 }
    ensures answer { result ≡ (heard_as hearing held.now heard.now.0 heard.now.1 record_number turn.old).0 }
    ensures octets { turn.new ≡ (heard_as hearing held.now heard.now.0 heard.now.1 record_number turn.old).1 }
{
    match hearing {
        Hearing::Strange => {
            put_lane(turn, held.number, &unsure(&held.lane));
            STRANGE
        }
        Hearing::Unsure => {
            put_lane(turn, held.number, &unsure(&held.lane));
            UNSURE
        }
        Hearing::Alarm => {
            put_lane(turn, held.number, &unsure(&held.lane));
            ALARM
        }
        Hearing::Used => {
            let left = take(&held.client, &held.lane, &heard.0, &heard.1, record_number);
            put_left(turn, held.number, &left, WAITS)
        }
    }
}

fn hear_held(turn: &mut OrdersLane, held: &Held, heard: &(Called, Answer), record_number: u64) -> u8
    requires { heard.now.1.value + 1 < 2 ^ 64 }
    ensures answer { result ≡ (heard_held held.now heard.now.0 heard.now.1 record_number turn.old).0 }
    ensures octets { turn.new ≡ (heard_held held.now heard.now.0 heard.now.1 record_number turn.old).1 }
{
    let hearing = hear_answer(&held.client, &heard.0, &heard.1);
    put_client(turn, &learn(&held.client, hearing, &heard.1));
    take_heard(turn, hearing, held, heard, record_number)
}

fn hear_fit(turn: &mut OrdersLane, held: &Held, heard: &(Called, Answer), record_number: u64) -> u8
    ensures answer { result ≡ (heard_fit held.now heard.now.0 heard.now.1 record_number turn.old).0 }
    ensures octets { turn.new ≡ (heard_fit held.now heard.now.0 heard.now.1 record_number turn.old).1 }
{
    if heard.1.value < 9_223_372_036_854_775_807 {
        hear_held(turn, held, heard, record_number)
    } else {
        INVALID
    }
}

/// An answer to the call of the request. A fate: the program stores it, the answer's octets, its result, the
/// lane and the client's state in one record, and reports it when that is stored. `WAITS`, `UNSURE`, `STRANGE`:
/// the order is called again, after the lane is stored if it has this record's number. `ALARM`: the server's
/// store was set back, and nothing is called until [`adopt`].
pub fn hear(turn: &mut OrdersLane, answer: &[u8], record_number: u64) -> u8
    ensures answer { result ≡ (hears answer.now record_number turn.old).0 }
    ensures octets { turn.new ≡ (hears answer.now record_number turn.old).1 }
{
    let Some(held) = read_held(turn) else {
        return INVALID;
    };
    let Some(request) = read_request(&turn.request) else {
        return INVALID;
    };
    let Some(answer) = read_answer(answer) else {
        return INVALID;
    };
    hear_fit(turn, &held, &(request.called, answer), record_number)
}

/// The word of an answer, from `DONE` to `TOLD`. `INVALID` if the octets spell none.
pub fn word_of_answer(answer: &[u8]) -> u8
    ensures { result ≡ word_said (answers answer.now) }
{
    match read_answer(answer) {
        None => INVALID,
        Some(answer) => said_as(answer.word),
    }
}

/// The client goes on after an alarm with the server's store as it is now. The program calls it when all fates
/// before the alarm are stored and reported, and stores the client's state.
pub fn adopt(turn: &mut OrdersLane) -> u8
    ensures answer { result ≡ (adopts turn.old).0 }
    ensures octets { turn.new ≡ (adopts turn.old).1 }
{
    match read_client(&turn.client) {
        None => INVALID,
        Some(client) => {
            put_client(turn, &adopt_client(&client));
            OK
        }
    }
}
