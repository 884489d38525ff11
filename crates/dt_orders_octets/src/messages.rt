//! What is sent: requests and answers.
ghost use Rattle.std.specs.Prelude.{◌≡◌, ◌+◌, ◌*◌, ◌≤◌, length};
ghost use Rattle.dt_orders_octets.specs.Spelling.{answer_octets, request_octets};
ghost use Rattle.dt_orders_octets.specs.Reading.{answer_in, attempt_at, called_in, is_answer, is_request, read_if, request_in};

use crate::codes::{kind_code, kind_of, word_code, word_of};
use crate::kept::{
    is_32, is_flag, is_known_at, is_number, known_at, maybe_known_at, put_known, put_maybe_known,
};
use crate::requests::Request;
use crate::words::{Octets, small, word};
use dt_orders_model::{Answer, Attempt, Called};

/// How many octets a request has before its body.
pub const REQUEST_OCTETS: usize = 112;
/// How many octets an answer has before its result.
pub const ANSWER_OCTETS: usize = 56;

/// The octets of a request, which stand before its body.
pub fn write_request(request: &Request) -> Octets
    ensures { result ≡ request_octets request.now }
{
    let called = &request.called;
    let mut octets = Octets::new();
    octets.put(u64::from(kind_code(called.kind)));
    octets.put(u64::from(request.lane));
    octets.put(called.number);
    octets.put(called.tag);
    put_known(&mut octets, &called.since);
    octets.put(called.attempt.nonce);
    octets.put(u64::from(called.attempt.count));
    put_maybe_known(&mut octets, &called.knows);
    octets.put(u64::from(called.is_only));
    octets
}

fn attempt_at(octets: &[u8], place: usize) -> Attempt
    requires { 8 * place + 16 ≤ length octets.now }
    ensures { result ≡ attempt_at place octets.now }
{
    Attempt {
        nonce: word(octets, place),
        count: small(word(octets, place + 1)),
    }
}

fn is_request(octets: &[u8]) -> bool
    ensures { result ≡ is_request octets.now }
{
    if octets.len() != REQUEST_OCTETS {
        return false;
    }
    let kind = word(octets, 0);
    1 <= kind
        && kind <= 3
        && is_32(word(octets, 1))
        && is_number(word(octets, 2))
        && is_32(word(octets, 4))
        && is_32(word(octets, 8))
        && is_known_at(octets, 9)
        && is_flag(word(octets, 13))
}

fn called_in(octets: &[u8]) -> Called
    requires { length octets.now ≡ 112 }
    ensures { result ≡ called_in octets.now }
{
    Called {
        kind: kind_of(word(octets, 0)),
        number: word(octets, 2),
        tag: word(octets, 3),
        since: known_at(octets, 4),
        attempt: attempt_at(octets, 7),
        knows: maybe_known_at(octets, 9),
        is_only: word(octets, 13) != 0,
    }
}

/// What octets say that stand before the body of a request. `None` if there aren't 112, or they spell no
/// request: the order's number is below 2^63.
pub fn read_request(octets: &[u8]) -> Option<Request>
    ensures { result ≡ read_if (is_request octets.now) (request_in octets.now) }
{
    if !is_request(octets) {
        return None;
    }
    Some(Request {
        lane: small(word(octets, 1)),
        called: called_in(octets),
    })
}

/// The octets of an answer, which stand before its result.
pub fn write_answer(answer: &Answer) -> Octets
    ensures { result ≡ answer_octets answer.now }
{
    let mut octets = Octets::new();
    octets.put(u64::from(word_code(answer.word)));
    octets.put(answer.value);
    put_known(&mut octets, &answer.heard);
    octets.put(answer.attempt.nonce);
    octets.put(u64::from(answer.attempt.count));
    octets
}

fn is_answer(octets: &[u8]) -> bool
    ensures { result ≡ is_answer octets.now }
{
    if octets.len() != ANSWER_OCTETS {
        return false;
    }
    let code = word(octets, 0);
    1 <= code
        && code <= 9
        && is_number(word(octets, 1))
        && is_32(word(octets, 2))
        && is_32(word(octets, 6))
}

/// What octets say that stand before the result of an answer. `None` if there aren't 56, or they spell no
/// answer: its value is below 2^63.
pub fn read_answer(octets: &[u8]) -> Option<Answer>
    ensures { result ≡ read_if (is_answer octets.now) (answer_in octets.now) }
{
    if !is_answer(octets) {
        return None;
    }
    Some(Answer {
        word: word_of(word(octets, 0)),
        value: word(octets, 1),
        heard: known_at(octets, 2),
        attempt: attempt_at(octets, 5),
    })
}
