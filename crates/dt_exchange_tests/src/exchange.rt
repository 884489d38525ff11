//! Octets go from one endpoint to another, and come back as settled.
use crate::calls::Call;
use crate::fixtures::FLOW;
use crate::pairs::{Step, follows};
use dt_endpoint::{Counts, Delivered, Octets, Received, Sent, Ticked};

/// The five octets that were sent, and are known to have come.
const SENT: Octets = Octets {
    taken: 5,
    settled: 5,
    uncertain: 0,
    accepted: 0,
    read: 0,
};

/// What the node counts that sent them.
const SENDER: Counts = Counts {
    came: 1,
    refused: 0,
    left: 1,
    octets: SENT,
};

/// What the node counts that read them.
const READER: Counts = Counts {
    came: 1,
    refused: 0,
    left: 1,
    octets: Octets {
        taken: 0,
        settled: 0,
        uncertain: 0,
        accepted: 5,
        read: 5,
    },
};

/// The piece that is all of a message of five octets.
const WHOLE: Delivered = Delivered::Read {
    len: 5,
    run: true,
    begin: true,
    end: true,
};

/// The read opened the window again, so the acknowledgement has left. The receive record stands for
/// r + mpl + a ms.
static THERE_AND_BACK: [Step; 16] = [
    Step::One(0, Call::Follow(FLOW)),
    Step::Two(0, Call::Totals(FLOW, None)),
    Step::One(10, Call::Send(FLOW, b"hello", true, true, Sent::Done)),
    Step::One(10, Call::Took(FLOW, 5)),
    Step::One(10, Call::FirstFrame),
    Step::HandOver(3, Received::Done),
    Step::Two(12, Call::Read(FLOW, 16, WHOLE, b"hello")),
    Step::Two(12, Call::Read(FLOW, 16, Delivered::Nothing, b"")),
    Step::Two(15, Call::Wake(Some(4212))),
    Step::Two(15, Call::Tick(Ticked::Done)),
    Step::HandBack(Received::Done),
    Step::Two(15, Call::NoFrame),
    Step::One(215, Call::Settled(5)),
    Step::One(215, Call::Counts(SENDER)),
    Step::Two(215, Call::Counts(READER)),
    Step::One(215, Call::Totals(FLOW, Some(SENT))),
];

#[test]
fn octets_go_from_one_to_the_other(rt: HostRuntime) {
    follows(&rt, rt.alloc(), None, &THERE_AND_BACK);
}

/// The record is filled and takes no octet more, and its frame comes too late.
static FULL_AND_STALE: [Step; 3] = [
    Step::One(0, Call::Send(FLOW, &[1; 4096], true, false, Sent::Done)),
    Step::One(
        0,
        Call::Send(FLOW, b"a", false, true, Sent::Full { free: 0 }),
    ),
    Step::HandOver(1_000_000, Received::Stale),
];

#[test]
fn full_and_stale_are_told(rt: HostRuntime) {
    follows(&rt, rt.alloc(), None, &FULL_AND_STALE);
}
