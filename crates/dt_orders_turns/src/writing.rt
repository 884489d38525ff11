//! What a server writes when an order was executed, finished or forgotten, when it opens its store, and what it
//! answers.
ghost use Rattle.std.specs.Prelude.{◌≡◌, ◌+◌, ◌<◌, ◌^◌};
ghost use Rattle.dt_orders_turns.specs.Serving.{answer_of, answered, executed as executed_in, finished, finished_row, forgotten, forgotten_row, is_execute, number_of, opened, opened_meta, state_as, value_of};

use crate::answers::{INVALID, NONE, OK};
use crate::serving::{OrdersServer, Seen, asked_by, put_written, read_seen, verdict_seen};
use dt_orders_model::{Answer, Known, Meta, Opening, Row, RowState, Verdict, Word};
use dt_orders_octets::{
    Request, read_meta, read_request, word_of, write_answer, write_meta, write_opening,
};
use dt_registers::{finish_row, forget_row, write_row};

fn state_as(is_done: bool) -> RowState
    ensures { result ≡ state_as is_done }
{
    if is_done {
        RowState::Done
    } else {
        RowState::AtWork
    }
}

fn is_execute(verdict: Verdict) -> bool
    ensures { result ≡ is_execute verdict }
{
    match verdict {
        Verdict::Execute => true,
        Verdict::Cancel
        | Verdict::Touch
        | Verdict::Done
        | Verdict::Never
        | Verdict::AtWork
        | Verdict::Stale
        | Verdict::Old
        | Verdict::Forked
        | Verdict::Hello
        | Verdict::Read => false,
    }
}

/// Writes the row of an order that the handler executed: it is done, or at work until [`finish`]. `NONE` if the
/// judgement isn't that it is executed.
pub fn executed(turn: &mut OrdersServer, request: &[u8], strict: bool, is_done: bool) -> u8
    ensures answer { result ≡ (executed_in request.now strict is_done turn.old).0 }
    ensures octets { turn.new ≡ (executed_in request.now strict is_done turn.old).1 }
{
    let Some(seen) = read_seen(turn) else {
        return INVALID;
    };
    let Some(request) = read_request(request) else {
        return INVALID;
    };
    let asked = asked_by(&request.called);
    if !is_execute(verdict_seen(&seen, &asked, strict)) {
        return NONE;
    }
    let written = write_row(&seen.meta, &seen.row, &asked, state_as(is_done));
    put_written(turn, &written.meta, &Some(written.row));
    OK
}

fn finish_seen(turn: &mut OrdersServer, seen: &Seen) -> u8
    requires { seen.now.meta.clock + 1 < 2 ^ 64 }
    ensures answer { result ≡ (finished_row seen.now.row seen.now turn.old).0 }
    ensures octets { turn.new ≡ (finished_row seen.now.row seen.now turn.old).1 }
{
    let Some(row) = &seen.row else {
        return NONE;
    };
    let Some(written) = finish_row(&seen.meta, row) else {
        return NONE;
    };
    put_written(turn, &written.meta, &Some(written.row));
    OK
}

/// Writes that the row's order, which was at work, has its result. `NONE` if it isn't at work.
pub fn finish(turn: &mut OrdersServer) -> u8
    ensures answer { result ≡ (finished turn.old).0 }
    ensures octets { turn.new ≡ (finished turn.old).1 }
{
    match read_seen(turn) {
        None => INVALID,
        Some(seen) => finish_seen(turn, &seen),
    }
}

fn forget_seen(turn: &mut OrdersServer, seen: &Seen) -> u8
    requires { seen.now.meta.clock + 1 < 2 ^ 64 }
    ensures answer { result ≡ (forgotten_row seen.now.row seen.now turn.old).0 }
    ensures octets { turn.new ≡ (forgotten_row seen.now.row seen.now turn.old).1 }
{
    let Some(row) = &seen.row else {
        return NONE;
    };
    let Some(meta) = forget_row(&seen.meta, row) else {
        return NONE;
    };
    put_written(turn, &meta, &None);
    OK
}

/// Forgets the row: it is zeros then, and the program deletes it. `NONE` if the lane has none, or its order is
/// at work.
pub fn forget(turn: &mut OrdersServer) -> u8
    ensures answer { result ≡ (forgotten turn.old).0 }
    ensures octets { turn.new ≡ (forgotten turn.old).1 }
{
    match read_seen(turn) {
        None => INVALID,
        Some(seen) => forget_seen(turn, &seen),
    }
}

fn opened_meta(meta: &Meta, nonce: u64) -> Meta
    requires clock { meta.now.clock + 1 < 2 ^ 64 }
    requires opening { meta.now.opening + 1 < 2 ^ 32 }
    ensures { result ≡ opened_meta meta.now nonce }
{
    Meta {
        clock: meta.clock + 1,
        horizon: meta.horizon,
        opening: if meta.clock == 0 { 0 } else { meta.opening + 1 },
        nonce,
    }
}

/// Opens a store: the numbers, zeros of a store that was never opened, become those of the new opening, and the
/// first 16 octets of `openings` are the opening. The program stores both and syncs them before it judges a
/// request.
pub fn open(turn: &mut OrdersServer, nonce: u64) -> u8
    ensures answer { result ≡ (opened turn.old nonce).0 }
    ensures octets { turn.new ≡ (opened turn.old nonce).1 }
{
    let Some(meta) = read_meta(&turn.numbers) else {
        return INVALID;
    };
    if meta.clock >= 9_223_372_036_854_775_807 || meta.opening >= 4_294_967_295 {
        return INVALID;
    }
    let meta = opened_meta(&meta, nonce);
    let opening = write_opening(&Some(Opening {
        nonce,
        first: meta.clock,
    }));
    let numbers = write_meta(&meta);
    turn.numbers.copy_from_slice(numbers.as_slice());
    turn.openings[..16].copy_from_slice(opening.as_slice());
    OK
}

fn number_of(row: &Option<Row>) -> u64
    ensures { result ≡ number_of row.now }
{
    match row {
        None => 0,
        Some(row) => row.number,
    }
}

fn value_of(word: Word, row: &Option<Row>) -> u64
    ensures { result ≡ value_of word row.now }
{
    match word {
        Word::Stale => number_of(row),
        Word::Done
        | Word::Never
        | Word::AtWork
        | Word::NotNow
        | Word::Old
        | Word::Forked
        | Word::Hello
        | Word::Told => 0,
    }
}

fn answer_of(seen: &Seen, request: &Request, word: Word) -> Answer
    ensures { result ≡ answer_of seen.now request.now word }
{
    let meta = &seen.meta;
    Answer {
        word,
        value: value_of(word, &seen.row),
        heard: Known {
            opening: meta.opening,
            nonce: meta.nonce,
            clock: meta.clock,
        },
        attempt: request.called.attempt,
    }
}

/// The octets of the answer that says this of a request, after what was written for it. They stand before the
/// result. `INVALID` if `said` is no word from `DONE` to `TOLD`.
pub fn answer(turn: &mut OrdersServer, request: &[u8], said: u8) -> u8
    ensures answer { result ≡ (answered request.now said turn.old).0 }
    ensures octets { turn.new ≡ (answered request.now said turn.old).1 }
{
    if said < 65 || said > 73 {
        return INVALID;
    }
    let Some(seen) = read_seen(turn) else {
        return INVALID;
    };
    let Some(request) = read_request(request) else {
        return INVALID;
    };
    let word = word_of(u64::from(said - 64));
    let octets = write_answer(&answer_of(&seen, &request, word));
    turn.answer.copy_from_slice(octets.as_slice());
    OK
}
