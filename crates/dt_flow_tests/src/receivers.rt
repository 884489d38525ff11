//! A receiver, event by event: its answers, and its acts in time.
ghost use Rattle.std.specs.Prelude.{◌≡◌, ◌<◌};

use crate::fixtures::{FLOW, STANDARD, holds, rules};
use dt_flow_model::{Arrived, RecvAct, RecvKind, RecvMoments};
use dt_items::Piece;
use dt_layout::Frame;
use dt_recv::Receiver;
use dt_units::{Params, Steps};
use std::alloc::Global;
use std::marker::Brand;
use std::process::Abort;
use std::sync::ledger::{Blank, Ledger};

// What a packet is answered: accepted as a new run or following the octets before, replied to with a
// number and a window, closing with a number, or dropped.
#[derive(Clone, Copy)]
enum Answer {
    Run(u32),
    On(u32),
    Told(u32, u32),
    Closing(u32),
    Dropped,
}

// The number, the letters and the octets of a data packet, and its answer.
type Data = (u32, &'static [u8], &'static [u8], Answer);

// How many octets are read at most; the letters and the octets of the piece.
type Read = (usize, &'static [u8], &'static [u8]);

// What happens to a receiver, and what comes of it. Letters of a packet are `d` for the data-run flag,
// `b` and `e` for its marks, and those of a piece `r`, `b` and `e`.
enum Event {
    // a data packet: number, letters, octets
    Data(Data),
    Meet(u32, Answer),
    Close(u32, Answer),
    // nothing is due, or this kind since a moment
    Due(Option<(RecvKind, u64)>),
    // the act that is due is done: an acknowledgement with a number and a window, or the release
    Acked(u32, u32),
    Released,
    // at most so many octets are read: letters, octets
    Read(Read),
    // what is expected, and the free room
    Stands(Option<u32>, u32),
    // when release and an acknowledgement are due, and the wake
    Moments(RecvMoments, Option<u64>),
}

impl Answer {
    fn arrived(self) -> Arrived {
        match self {
            Answer::Run(count) => Arrived::Accepted { run: true, count },
            Answer::On(count) => Arrived::Accepted { run: false, count },
            Answer::Told(number, window) => Arrived::Replied { number, window },
            Answer::Closing(number) => Arrived::Closing { number },
            Answer::Dropped => Arrived::Dropped,
        }
    }

    fn told(self) -> Option<(u32, u32)> {
        match self {
            Answer::Told(number, window) => Some((number, window)),
            Answer::Run(_) | Answer::On(_) | Answer::Closing(_) | Answer::Dropped => None,
        }
    }
}

fn has(letters: &[u8], letter: u8) -> bool {
    letters.contains(&letter)
}

// An acknowledgement of the flow in octets: from node 2 to node 1, with a life of 1000.
fn spelling(number: u32, window: u32) -> [u8; 30] {
    let mut octets =
        *b"\x01\x01\x00\x0e\x00\x00\x03\xe8\x00\x00\x00\x02\x00\x00\x00\x01\x02\x00\x00\x14\x00\x0a\x00\x00\x00\x00\x00\x00\x00\x00";
    octets[22..26].copy_from_slice(&number.to_be_bytes());
    octets[26..].copy_from_slice(&window.to_be_bytes());
    octets
}

// Whether the frame is what an answer leaves: its acknowledgement, or the empty frame that was there.
fn is_left(frame: &Frame, told: Option<(u32, u32)>) -> bool {
    match told {
        None => frame.as_slice().is_empty(),
        Some((number, window)) => frame.as_slice() == spelling(number, window).as_slice(),
    }
}

fn is_answer(frame: &Frame, answer: Arrived, wanted: &Answer) -> bool {
    answer == wanted.arrived() && is_left(frame, wanted.told())
}

fn takes_data<L: Ledger>(
    receiver: &mut Receiver,
    now: u64,
    (number, letters, octets, wanted): &Data,
    steps: &mut Steps<L>,
) -> bool {
    if octets.is_empty() || octets.len() > 8192 || now > 1 << 62 {
        return false;
    }
    let drf = has(letters, b'd');
    let begin = has(letters, b'b');
    let end = has(letters, b'e');
    let mut frame = Frame::new();
    let answer = receiver.on_data(*number, drf, begin, end, octets, now, &mut frame, steps);
    is_answer(&frame, answer, wanted)
}

fn meets<L: Ledger>(
    receiver: &mut Receiver,
    now: u64,
    number: u32,
    wanted: &Answer,
    steps: &mut Steps<L>,
) -> bool {
    let mut frame = Frame::new();
    let answer = receiver.on_meet(number, now, &mut frame, steps);
    is_answer(&frame, answer, wanted)
}

fn closes<L: Ledger>(
    receiver: &mut Receiver,
    number: u32,
    wanted: &Answer,
    steps: &mut Steps<L>,
) -> bool {
    is_answer(&Frame::new(), receiver.on_close(number, steps), wanted)
}

// Whether a read into a buffer, at most so much, is as its row says.
fn reads_into<L: Ledger>(
    receiver: &mut Receiver,
    now: u64,
    buf: &mut [u8],
    (most, letters, octets): &Read,
    steps: &mut Steps<L>,
) -> bool {
    let wanted = Piece {
        len: octets.len(),
        begin: has(letters, b'b'),
        end: has(letters, b'e'),
        run: has(letters, b'r'),
    };
    match buf.get_mut(..*most) {
        Some(room) => {
            !room.is_empty()
                && receiver.read(room, now, steps) == Some(wanted)
                && buf.starts_with(octets)
        }
        None => false,
    }
}

fn reads<L: Ledger>(receiver: &mut Receiver, now: u64, read: &Read, steps: &mut Steps<L>) -> bool {
    reads_into(receiver, now, &mut [b'.'; 300], read, steps)
}

fn acts<L: Ledger>(
    receiver: &mut Receiver,
    now: u64,
    wanted: RecvAct,
    told: Option<(u32, u32)>,
    steps: &mut Steps<L>,
) -> bool {
    if receiver.due(now, steps).is_none() {
        return false;
    }
    let mut frame = Frame::new();
    receiver.act(now, &mut frame, steps) == wanted && is_left(&frame, told)
}

fn acknowledges<L: Ledger>(
    receiver: &mut Receiver,
    now: u64,
    number: u32,
    window: u32,
    steps: &mut Steps<L>,
) -> bool {
    let wanted = RecvAct::Acked { number, window };
    acts(receiver, now, wanted, Some((number, window)), steps)
}

fn has_moments<L: Ledger>(
    receiver: &Receiver,
    moments: &RecvMoments,
    wake: &Option<u64>,
    steps: &mut Steps<L>,
) -> bool {
    receiver.moments(steps) == *moments && receiver.wake(steps) == *wake
}

fn is_due<L: Ledger>(
    receiver: &Receiver,
    now: u64,
    wanted: &Option<(RecvKind, u64)>,
    steps: &mut Steps<L>,
) -> bool {
    receiver.due(now, steps) == *wanted
}

fn stands(receiver: &Receiver, expected: &Option<u32>, free: u32) -> bool {
    receiver.expected() == *expected && receiver.free() == free
}

// Whether an event goes as it says.
fn happens<L: Ledger>(
    receiver: &mut Receiver,
    now: u64,
    event: &Event,
    steps: &mut Steps<L>,
) -> bool {
    match event {
        Event::Data(data) => takes_data(receiver, now, data, steps),
        Event::Meet(number, wanted) => meets(receiver, now, *number, wanted, steps),
        Event::Close(number, wanted) => closes(receiver, *number, wanted, steps),
        Event::Due(wanted) => is_due(receiver, now, wanted, steps),
        Event::Acked(number, window) => acknowledges(receiver, now, *number, *window, steps),
        Event::Released => acts(receiver, now, RecvAct::Released, None, steps),
        Event::Read(read) => reads(receiver, now, read, steps),
        Event::Stands(expected, free) => stands(receiver, expected, *free),
        Event::Moments(moments, wake) => has_moments(receiver, moments, wake, steps),
    }
}

// A receiver that is idle meets these events, each at its moment.
fn meets_all<L: Ledger>(
    rt: &impl Abort,
    receiver: &mut Receiver,
    events: &[(u64, Event)],
    steps: &mut Steps<L>,
) {
    assert!(rt; receiver.is_idle());
    for (now, event) in events {
        let is = happens(receiver, *now, event, steps);
        holds(rt, is, *now);
    }
}

// A new receiver does.
fn plays<L: Ledger>(
    rt: &impl Abort,
    alloc: Global,
    params: &Params,
    events: &[(u64, Event)],
    steps: &mut Steps<L>,
) {
    let mut receiver = Receiver::new(alloc, &rules(rt, params), FLOW).expect(rt, "memory");
    meets_all(rt, &mut receiver, events, steps);
}

// Duplicates, closing packets and the receive timer.
const ONE_MESSAGE: &[(u64, Event)] = &[
    (0, Event::Stands(None, 4096)),
    (
        0,
        Event::Moments(
            RecvMoments {
                release: None,
                ack: None,
            },
            None,
        ),
    ),
    (0, Event::Close(5, Answer::Dropped)),
    (0, Event::Data((0, b"dbe", b"hello", Answer::Run(5)))),
    (
        0,
        Event::Moments(
            RecvMoments {
                release: Some(4200),
                ack: Some(0),
            },
            Some(0),
        ),
    ),
    (0, Event::Due(Some((RecvKind::Ack, 0)))),
    (0, Event::Acked(5, 4091)),
    (0, Event::Data((0, b"dbe", b"hello", Answer::Told(5, 4091)))),
    (0, Event::Data((0, b"dbe", b"hello", Answer::Told(5, 4091)))),
    (20, Event::Close(5, Answer::Closing(5))),
    (20, Event::Close(6, Answer::Dropped)),
    (
        20,
        Event::Moments(
            RecvMoments {
                release: Some(4200),
                ack: None,
            },
            Some(4200),
        ),
    ),
    (4199, Event::Due(None)),
    (4200, Event::Due(Some((RecvKind::Release, 4200)))),
    (4200, Event::Released),
    (4200, Event::Stands(None, 4091)),
    (4200, Event::Read((300, b"rbe", b"hello"))),
];

// Segments that come out of order.
const REORDERED: &[(u64, Event)] = &[
    (0, Event::Data((200, b"e", &[b'a'; 50], Answer::Dropped))),
    (0, Event::Data((0, b"db", &[b'a'; 100], Answer::Run(100)))),
    (
        0,
        Event::Data((200, b"e", &[b'a'; 50], Answer::Told(100, 3996))),
    ),
    (0, Event::Data((100, b"", &[b'a'; 100], Answer::On(100)))),
    (199, Event::Due(None)),
    (200, Event::Acked(200, 3896)),
    (500, Event::Data((200, b"de", &[b'a'; 50], Answer::On(50)))),
    (500, Event::Acked(250, 3846)),
    (500, Event::Read((300, b"rbe", &[b'a'; 250]))),
    (500, Event::Stands(Some(250), 4096)),
];

// Windows that open, with `rcap` 4.
const WINDOWS: &[(u64, Event)] = &[
    (0, Event::Data((0, b"db", b"abcd", Answer::Run(4)))),
    (200, Event::Acked(4, 0)),
    (800, Event::Meet(4, Answer::Told(4, 0))),
    (800, Event::Due(None)),
    (800, Event::Read((10, b"rb", b"abcd"))),
    (800, Event::Acked(4, 4)),
    (1600, Event::Meet(4, Answer::Told(4, 4))),
    (1600, Event::Data((4, b"de", b"ef", Answer::On(2)))),
    (1600, Event::Acked(6, 2)),
    (1600, Event::Stands(Some(6), 2)),
];

// Numbers that go round.
const WRAPPED: &[(u64, Event)] = &[
    (
        0,
        Event::Data((4_294_967_292, b"db", b"aaaa", Answer::Run(4))),
    ),
    (
        0,
        Event::Data((4_294_967_292, b"db", b"aaaa", Answer::Told(0, 4092))),
    ),
    (0, Event::Data((4, b"e", b"aa", Answer::Told(0, 4092)))),
    (0, Event::Data((0, b"", b"aaaa", Answer::On(4)))),
    (0, Event::Data((4, b"e", b"aa", Answer::On(2)))),
    (0, Event::Acked(6, 4086)),
];

const NARROW: Params = Params {
    rcap: 4,
    window: 4,
    ..STANDARD
};

// The parameters of a receiver, and its events.
static RUNS: [(Params, &[(u64, Event)]); 4] = [
    (STANDARD, ONE_MESSAGE),
    (STANDARD, REORDERED),
    (NARROW, WINDOWS),
    (STANDARD, WRAPPED),
];

// All runs.
fn all_play<L: Ledger>(rt: &impl Abort, alloc: Global, steps: &mut Steps<L>) {
    for (params, events) in &RUNS {
        plays(rt, alloc, params, events, steps);
    }
}

fn rows_on<L: Ledger>(rt: &impl Abort, alloc: Global, ledger: Blank)
    requires name { ledger.name ≡ L.name }
    requires parts { ledger.parts ≡ L.parts }
    requires some { 0 < ledger.parts }
{
    all_play(rt, alloc, &mut Steps::<L>::new(ledger));
}

#[test]
fn the_receiver_answers_as_the_rows_say(rt: HostRuntime) {
    rows_on::<Brand>(&rt, rt.alloc(), Blank::new(1));
}
