//! Tests of the wire in memory: rows of opens, takes and gives, each with its expected answer.
use dt_edges::{Address, Failed, MemWire, Peer, Wire};
use dt_items::NoMemory;
use std::process::Abort;

/// What is done to a wire, and what comes of it.
enum Step {
    /// It is opened with one peer: the answer.
    Open(Result<(), Failed>),
    /// A datagram of a link is to be found by a take.
    Add(u16, &'static [u8]),
    /// A take is to find nothing.
    AddNothing,
    /// A take waits so many milliseconds: its answer, and the buffer then.
    Take(u32, Result<Option<(u16, usize)>, Failed>, [u8; 4]),
    /// A datagram goes out on a link.
    Give(u16, &'static [u8], Result<(), Failed>),
    /// The datagram of a number that was given.
    Given(usize, Option<(u16, &'static [u8])>),
}

fn is_added(wire: &mut MemWire, link: u16, octets: &[u8]) -> bool {
    link <= 255 && wire.add_take(link, octets).is_ok()
}

fn takes(
    wire: &mut MemWire,
    buf: &mut [u8; 4],
    wait: u32,
    answer: Result<Option<(u16, usize)>, Failed>,
) -> bool {
    1 <= wait && wait <= 1000 && wire.take(wait, buf) == answer
}

/// Whether the datagram of a number that was given is this one.
fn is_given(wire: &MemWire, number: usize, wanted: &Option<(u16, &'static [u8])>) -> bool {
    match (wire.given(number), wanted) {
        (Some((link, octets)), Some((to, text))) => link == *to && octets == *text,
        (found, wanted) => found.is_none() && wanted.is_none(),
    }
}

const LOCAL: Address = Address {
    ip: [127, 0, 0, 1],
    port: 4001,
};

/// Whether a wire of one peer, whose openings fail or not, opens so.
fn opens(wire: &mut MemWire, answer: Result<(), Failed>) -> bool {
    let peers = [Peer {
        link: 1,
        address: LOCAL,
    }];
    wire.open(LOCAL, &peers) == answer
}

/// Whether a step is as its row says.
fn is_done(wire: &mut MemWire, buf: &mut [u8; 4], step: &Step) -> bool {
    match step {
        Step::Open(answer) => opens(wire, *answer),
        Step::Add(link, octets) => is_added(wire, *link, octets),
        Step::AddNothing => wire.add_nothing().is_ok(),
        Step::Take(wait, answer, after) => takes(wire, buf, *wait, *answer) && *buf == *after,
        Step::Give(link, octets, answer) => wire.give(*link, octets) == *answer,
        Step::Given(number, datagram) => is_given(wire, *number, datagram),
    }
}

fn goes(rt: &impl Abort, wire: &mut MemWire, steps: &[Step]) {
    let mut buf = [0; 4];
    for (number, step) in steps.iter().enumerate() {
        assert!(rt; is_done(wire, &mut buf, step), "step {number}");
    }
}

/// The same of a wire that is let go, where memory was found for it.
fn goes_alone(rt: &impl Abort, wire: Result<MemWire, NoMemory>, steps: &[Step]) {
    let mut wire = wire.expect(rt, "memory");
    goes(rt, &mut wire, steps);
}

/// The second take fails.
static TAKES: [Step; 9] = [
    Step::Take(1, Ok(None), [0; 4]),
    Step::Add(7, b"hello"),
    Step::AddNothing,
    Step::Add(255, b"no"),
    Step::Take(1000, Err(Failed), [0; 4]),
    Step::Take(1, Ok(Some((7, 4))), *b"hell"),
    Step::Take(1, Ok(None), *b"hell"),
    Step::Take(1, Ok(Some((255, 2))), *b"noll"),
    Step::Take(1, Ok(None), *b"noll"),
];

#[test]
fn a_wire_takes_what_was_added(rt: HostRuntime) {
    let wire = MemWire::new(rt.alloc(), false, &[2], &[], None);
    goes_alone(&rt, wire, &TAKES);
}

/// The first give fails, and there is room for four octets.
static GIVES: [Step; 7] = [
    Step::Give(1, b"abc", Err(Failed)),
    Step::Give(1, b"abc", Ok(())),
    Step::Give(1, b"de", Err(Failed)),
    Step::Give(2, b"d", Ok(())),
    Step::Given(0, Some((1, b"abc"))),
    Step::Given(1, Some((2, b"d"))),
    Step::Given(2, None),
];

#[test]
fn a_wire_keeps_what_it_has_room_for(rt: HostRuntime) {
    let wire = MemWire::new(rt.alloc(), false, &[], &[1], Some(4));
    goes_alone(&rt, wire, &GIVES);
}

/// A wire without room keeps nothing.
static OPENS: [Step; 3] = [
    Step::Open(Ok(())),
    Step::Give(1, b"abc", Ok(())),
    Step::Given(0, None),
];

#[test]
fn a_wire_opens_where_it_is_told(rt: HostRuntime) {
    let wire = MemWire::new(rt.alloc(), false, &[], &[], None);
    goes_alone(&rt, wire, &OPENS);
}

static STAYS_SHUT: [Step; 1] = [Step::Open(Err(Failed))];

#[test]
fn a_shut_wire_opens_never(rt: HostRuntime) {
    let wire = MemWire::new(rt.alloc(), true, &[], &[], None);
    goes_alone(&rt, wire, &STAYS_SHUT);
}
