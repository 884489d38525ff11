//! What a server reads, and how it judges a request.
ghost use Rattle.std.specs.Prelude.{◌≡◌, ◌+◌, ◌<◌, ◌^◌, length, IfSome};
ghost use Rattle.dt_orders_octets.specs.Spelling.{meta_octets, row_octets};
ghost use Rattle.dt_orders_turns.specs.Serving.{acted, asked_by, asks, is_execute, judged, judged_by, known_or, looked, looked_by, places_of, row_of, seen_in, seen_of, ticked, touched_by, verdict_seen, written};

use crate::answers::{AT_WORK, DONE, EXECUTE, FORKED, HELLO, INVALID, NEVER, OK, OLD, READ, STALE};
use dt_orders_model::{Asked, Called, Known, Meta, Opening, Places, Row, RowState, Verdict};
use dt_orders_octets::{
    Request, kind_code, read_meta, read_opening, read_request, read_row, write_meta, write_row,
};
use dt_registers::{judge as judge_row, place, touch_row, write_row as row_after};

/// What a server's transaction reads and writes, in octets: the store's numbers, the row of the request's
/// lane, zeros if it has none, and four openings, zeros where there is none: the one that `since` of the
/// request names and the one after it, and the same of `knows`.
#[repr(C)]
#[derive(Clone, Copy)]
pub struct OrdersServer {
    pub numbers: [u8; 32],
    pub row: [u8; 40],
    pub openings: [u8; 64],
    /// What [`crate::answer`] wrote.
    pub answer: [u8; 56],
}

/// The same, read.
#[derive(Clone, Copy)]
pub struct Seen {
    pub meta: Meta,
    pub row: Option<Row>,
    pub since: Option<Opening>,
    pub after_since: Option<Opening>,
    pub knows: Option<Opening>,
    pub after_knows: Option<Opening>,
}

/// What a server looks up for a request: its lane, and the numbers of the openings that its two commits name.
#[repr(C)]
#[derive(Clone, Copy)]
pub struct OrdersLook {
    pub kind: u32,
    pub lane: u32,
    pub since: u32,
    pub knows: u32,
}

/// What the octets say that a transaction read: `None` if they spell nothing, or the clock or the number of the
/// opening has no room.
pub(crate) fn read_seen(turn: &OrdersServer) -> Option<Seen>
    ensures is { result ≡ seen_in turn.now }
    ensures clock { IfSome result (λ s. s.meta.clock + 1 < 2 ^ 64) }
    ensures opening { IfSome result (λ s. s.meta.opening + 1 < 2 ^ 32) }
{
    let Some(meta) = read_meta(&turn.numbers) else {
        return None;
    };
    let Some(row) = read_row(&turn.row) else {
        return None;
    };
    if meta.clock < 9_223_372_036_854_775_807 && meta.opening < 4_294_967_295 {
        Some(seen_of(turn, &meta, &row))
    } else {
        None
    }
}

fn seen_of(turn: &OrdersServer, meta: &Meta, row: &Option<Row>) -> Seen
    ensures { result ≡ seen_of turn.now meta.now row.now }
{
    Seen {
        meta: *meta,
        row: *row,
        since: read_opening(&turn.openings, 0),
        after_since: read_opening(&turn.openings, 2),
        knows: read_opening(&turn.openings, 4),
        after_knows: read_opening(&turn.openings, 6),
    }
}

/// What a call asks of the server.
pub(crate) fn asked_by(called: &Called) -> Asked
    ensures { result ≡ asked_by called.now }
{
    Asked {
        kind: called.kind,
        number: called.number,
        tag: called.tag,
        since: called.since,
        knows: called.knows,
    }
}

fn known_or(known: &Known, other: &Option<Known>) -> Known
    ensures { result ≡ known_or known.now other.now }
{
    match other {
        None => *known,
        Some(other) => *other,
    }
}

fn places_of(seen: &Seen, asked: &Asked) -> Places
    ensures { result ≡ places_of seen.now asked.now }
{
    let knows = known_or(&asked.since, &asked.knows);
    Places {
        since: place(&seen.meta, &asked.since, &seen.since, &seen.after_since),
        knows: place(&seen.meta, &knows, &seen.knows, &seen.after_knows),
    }
}

/// How a request is judged by what was read.
pub(crate) fn verdict_seen(seen: &Seen, asked: &Asked, strict: bool) -> Verdict
    ensures { result ≡ verdict_seen seen.now asked.now strict }
{
    let places = places_of(seen, asked);
    judge_row(&seen.meta, &seen.row, asked, &places, strict)
}

/// What is written goes into the octets.
pub(crate) fn put_written(turn: &mut OrdersServer, meta: &Meta, row: &Option<Row>)
    ensures { turn.new ≡ written turn.old meta.now row.now }
{
    let numbers = write_meta(meta);
    turn.numbers.copy_from_slice(numbers.as_slice());
    let octets = write_row(row);
    turn.row.copy_from_slice(octets.as_slice());
}

fn touch(turn: &mut OrdersServer, seen: &Seen)
    requires { seen.now.meta.clock + 1 < 2 ^ 64 }
    ensures { turn.new ≡ (touched_by seen.now.row seen.now turn.old).1 }
{
    if let Some(row) = &seen.row {
        let written = touch_row(&seen.meta, row);
        put_written(turn, &written.meta, &Some(written.row));
    }
}

fn act(turn: &mut OrdersServer, seen: &Seen, asked: &Asked, verdict: Verdict) -> u8
    requires { seen.now.meta.clock + 1 < 2 ^ 64 }
    ensures answer { result ≡ (acted verdict seen.now asked.now turn.old).0 }
    ensures octets { turn.new ≡ (acted verdict seen.now asked.now turn.old).1 }
{
    match verdict {
        Verdict::Execute => EXECUTE,
        Verdict::Cancel => {
            let written = row_after(&seen.meta, &seen.row, asked, RowState::Cancelled);
            put_written(turn, &written.meta, &Some(written.row));
            NEVER
        }
        Verdict::Touch => {
            touch(turn, seen);
            STALE
        }
        Verdict::Done => DONE,
        Verdict::Never => NEVER,
        Verdict::AtWork => AT_WORK,
        Verdict::Stale => STALE,
        Verdict::Old => OLD,
        Verdict::Forked => FORKED,
        Verdict::Hello => HELLO,
        Verdict::Read => READ,
    }
}

/// Judges a request, and writes what needs no handler: a cancelled order, and a stamp. Answers what is said of
/// it, or `EXECUTE`, or `READ`. The program stores the numbers and the row if they changed.
pub fn judge(turn: &mut OrdersServer, request: &[u8], strict: bool) -> u8
    ensures answer { result ≡ (judged request.now strict turn.old).0 }
    ensures octets { turn.new ≡ (judged request.now strict turn.old).1 }
{
    let Some(seen) = read_seen(turn) else {
        return INVALID;
    };
    let Some(request) = read_request(request) else {
        return INVALID;
    };
    let asked = asked_by(&request.called);
    let verdict = verdict_seen(&seen, &asked, strict);
    act(turn, &seen, &asked, verdict)
}

/// What a server looks up for a request. `INVALID` if the octets spell none.
pub fn look_up(request: &[u8], look: &mut OrdersLook) -> u8
    ensures answer { result ≡ (looked request.now look.old).0 }
    ensures look { look.new ≡ (looked request.now look.old).1 }
{
    match read_request(request) {
        None => INVALID,
        Some(request) => {
            let knows = known_or(&request.called.since, &request.called.knows);
            *look = OrdersLook {
                kind: u32::from(kind_code(request.called.kind)),
                lane: request.lane,
                since: request.called.since.opening,
                knows: knows.opening,
            };
            OK
        }
    }
}
