//! Tests of the ledger: octets that wait for a window, and a sender that starts again.
use dt_items::MarkedOctets;
use dt_ledger::{Fate, FlowRows, GivenOctets, Instant, Ledger, Totals};
use dt_units::{Flow, NodeId};
use std::process::Abort;

/// Octets are given from a place on, at a moment. Of the marks `r` is run, `b` begin and `e` end.
struct Given {
    place: u32,
    octets: &'static [u8],
    marks: &'static [u8],
    at: u64,
}

/// What happens to a flow. Both stations are in their first life.
enum Step {
    /// A message is taken.
    Take(&'static [u8]),
    /// So many octets go out at a moment, from this place on.
    Send { count: u32, at: u32, place: u64 },
    Give(Given),
    /// The leftmost octets without a fate are acknowledged, so many.
    Acknowledge(u32),
}

fn has(marks: &[u8], mark: u8) -> bool {
    marks.contains(&mark)
}

fn is_taken(rows: &mut FlowRows, octets: &[u8]) -> bool {
    let message = MarkedOctets {
        octets,
        begin: true,
        end: true,
    };
    rows.note_taken(0, &message).is_ok()
}

fn goes_out(rows: &mut FlowRows, count: u32, at: u32, place: u64) -> bool {
    let at = Instant {
        milliseconds: u64::from(at),
    };
    rows.note_next(0, count, at) == place
}

fn is_given(rows: &mut FlowRows, given: &Given) -> bool {
    if given.octets.len() >= 100 {
        return false;
    }
    let payload = MarkedOctets {
        octets: given.octets,
        begin: has(given.marks, b'b'),
        end: has(given.marks, b'e'),
    };
    let octets = GivenOctets {
        payload,
        run: has(given.marks, b'r'),
        place: u64::from(given.place),
        life: 0,
        at: given.at,
    };
    rows.give(&octets).is_ok()
}

fn is_settled(rows: &mut FlowRows, count: u32) -> bool {
    rows.settle_open(0, count, Fate::Acked);
    true
}

fn is_done(rows: &mut FlowRows, step: &Step) -> bool {
    match step {
        Step::Take(octets) => is_taken(rows, octets),
        Step::Send { count, at, place } => goes_out(rows, *count, *at, *place),
        Step::Give(given) => is_given(rows, given),
        Step::Acknowledge(count) => is_settled(rows, *count),
    }
}

/// A window of 4 octets: 4 of 6 octets go out, are given, acknowledged and read, and then the other 2
/// go out and are given, as a packet that goes on with its run.
static SMALL_WINDOW: [Step; 7] = [
    Step::Take(b"abcdef"),
    Step::Send {
        count: 4,
        at: 0,
        place: 0,
    },
    Step::Give(Given {
        place: 0,
        octets: b"abcd",
        marks: b"rb",
        at: 0,
    }),
    Step::Acknowledge(4),
    Step::Acknowledge(0),
    Step::Send {
        count: 2,
        at: 1600,
        place: 4,
    },
    Step::Give(Given {
        place: 4,
        octets: b"ef",
        marks: b"e",
        at: 1600,
    }),
];

const LEFT: Totals = Totals {
    taken: 6,
    acked: 4,
    uncertain: 0,
    unsettled: 2,
    given: 6,
    read: 0,
};

fn is_left(rows: &FlowRows) -> bool {
    rows.totals() == LEFT && rows.last_given() == Some(5)
}

/// The steps, and what is left.
fn are_done(rt: &impl Abort, rows: &mut FlowRows) {
    for step in &SMALL_WINDOW {
        let is = is_done(rows, step);
        assert!(rt; is);
    }
    let is = is_left(rows);
    assert!(rt; is);
}

#[test]
fn octets_wait_for_a_window(rt: HostRuntime) {
    let mut rows = FlowRows::new(rt.alloc());
    are_done(&rt, &mut rows);
}

/// From port 10 of node 1 to port 20 of node 2.
static FLOW: Flow = Flow {
    from: NodeId(1),
    from_port: 10,
    to: NodeId(2),
    to_port: 20,
};

/// From port 11 of node 1 to port 20 of node 2.
static OTHER: Flow = Flow {
    from: NodeId(1),
    from_port: 11,
    to: NodeId(2),
    to_port: 20,
};

/// A message of one octet is taken.
fn takes_in(ledger: &mut Ledger, life: u32, octets: &[u8]) -> bool {
    ledger.take(&FLOW, life, octets, true, true).is_ok()
}

/// Whether one octet is taken, which then goes out.
fn sends_first(ledger: &mut Ledger) -> bool {
    let is = ledger.rows(&FLOW).is_some() && ledger.taken_count(&FLOW) == 1;
    if is {
        ledger.note_first(&FLOW, 0, 1, 0);
    }
    is
}

fn is_given_and_read(ledger: &mut Ledger) -> bool {
    let given = ledger.give(&FLOW, 1, b"b", true, true, true, 0, 6200);
    given.is_ok() && ledger.read_count(&FLOW) == 0 && ledger.note_read(&FLOW, 0, 1).is_ok()
}

fn has_counts(ledger: &Ledger, flow: &Flow, taken: u64, last_given: Option<u64>) -> bool {
    ledger.taken_count(flow) == taken && ledger.last_given(flow) == last_given
}

fn starts_again(ledger: &mut Ledger) -> bool {
    takes_in(ledger, 0, b"a")
        && sends_first(ledger)
        && takes_in(ledger, 1, b"b")
        && is_given_and_read(ledger)
        && has_counts(ledger, &FLOW, 2, Some(1))
        && has_counts(ledger, &OTHER, 0, None)
}

/// A sender starts again: its first octet stays open, and the other one is of its next life. The
/// receiver is given the second alone, and reads it.
#[test]
fn a_sender_starts_again(rt: HostRuntime) {
    let mut ledger = Ledger::new(rt.alloc());
    let is = starts_again(&mut ledger);
    assert!(rt; is);
}
