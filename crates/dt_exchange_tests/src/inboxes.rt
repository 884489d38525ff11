//! Whole messages taken from two endpoints that hand their frames to each other, in rows. All frames of node 1 come
//! to node 2.
use crate::calls::Call;
use crate::fixtures::FLOW;
use crate::pairs::{Answer, Step, follows};
use dt_endpoint::{Received, Sent};
use dt_units::Flow;

/// From port 11 of node 1 to port 20 of node 2.
const OTHER: Flow = Flow {
    from_port: 11,
    ..FLOW
};

/// The second message comes in three frames, and is read in pieces of 64 octets.
static WHOLE: [Step; 10] = [
    Step::One(10, Call::Send(FLOW, b"hello", true, true, Sent::Done)),
    Step::One(10, Call::Send(FLOW, &[7; 300], true, true, Sent::Done)),
    Step::HandOver(0, Received::Done),
    Step::HandOver(0, Received::Done),
    Step::HandOver(0, Received::Done),
    Step::HandOver(0, Received::Done),
    Step::One(12, Call::NoFrame),
    Step::Take(64, Answer::Whole(b"hello", true)),
    Step::Take(64, Answer::Whole(&[7; 300], false)),
    Step::Take(64, Answer::Nothing),
];

#[test]
fn whole_messages_are_taken(rt: HostRuntime) {
    follows(&rt, rt.alloc(), None, &WHOLE);
}

/// Of a message that isn't whole yet nothing is answered. The rest of it comes later.
static HALF: [Step; 8] = [
    Step::One(10, Call::Send(FLOW, b"he", true, false, Sent::Done)),
    Step::HandOver(0, Received::Done),
    Step::One(12, Call::NoFrame),
    Step::Take(64, Answer::Nothing),
    Step::One(10, Call::Send(FLOW, b"llo", false, true, Sent::Done)),
    Step::HandOver(0, Received::Done),
    Step::One(12, Call::NoFrame),
    Step::Take(64, Answer::Whole(b"hello", true)),
];

#[test]
fn half_a_message_waits(rt: HostRuntime) {
    follows(&rt, rt.alloc(), None, &HALF);
}

static LONG: [Step; 7] = [
    Step::One(10, Call::Send(FLOW, b"longer", true, true, Sent::Done)),
    Step::One(10, Call::Send(FLOW, b"short", true, true, Sent::Done)),
    Step::HandOver(0, Received::Done),
    Step::HandOver(0, Received::Done),
    Step::One(12, Call::NoFrame),
    Step::Take(4, Answer::Whole(b"short", true)),
    Step::Dropped(1),
];

#[test]
fn long_message_is_dropped_and_the_next_is_taken(rt: HostRuntime) {
    follows(&rt, rt.alloc(), Some(5), &LONG);
}

static REFUSED: [Step; 2] = [
    Step::TakeOfSender(4, Answer::BadFlow),
    Step::Take(0, Answer::NoRoom),
];

#[test]
fn refused_reads_are_told(rt: HostRuntime) {
    follows(&rt, rt.alloc(), None, &REFUSED);
}

/// The flows that were heard of are taken of in order, and then none is due.
static TWO_FLOWS: [Step; 13] = [
    Step::One(10, Call::Send(FLOW, b"one", true, true, Sent::Done)),
    Step::One(10, Call::Send(OTHER, b"two", true, true, Sent::Done)),
    Step::HandOver(0, Received::Done),
    Step::HandOver(0, Received::Done),
    Step::One(12, Call::NoFrame),
    Step::HearAll,
    Step::TakeOf(FLOW, Answer::Whole(b"one", true)),
    Step::TakeOf(FLOW, Answer::Nothing),
    Step::TakeOf(OTHER, Answer::Whole(b"two", true)),
    Step::TakeOf(OTHER, Answer::Nothing),
    Step::TakeOfNone,
    Step::Forget(FLOW),
    Step::Left(0),
];

#[test]
fn messages_of_any_flow_are_taken(rt: HostRuntime) {
    follows(&rt, rt.alloc(), None, &TWO_FLOWS);
}

static MAIL: [Step; 5] = [
    Step::One(10, Call::Send(FLOW, b"hello", true, true, Sent::Done)),
    Step::HandOver(0, Received::Done),
    Step::One(12, Call::NoFrame),
    Step::Hear(FLOW),
    Step::HandOut,
];

#[test]
fn mailbox_hands_a_message_out_once(rt: HostRuntime) {
    follows(&rt, rt.alloc(), Some(5), &MAIL);
}
