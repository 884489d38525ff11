//! The answers of calls that are refused, or that come too late.
use crate::calls::{Call, answers, answers_all};
use crate::fixtures::{BACK, FLOW, STANDARD, open};
use dt_endpoint::{Delivered, Endpoint, Received, Routed, Sent, Ticked};
use dt_fingerprint::fingerprint;
use dt_layout::LayoutFault;
use dt_units::{Flow, NodeId};
use std::process::Abort;

const OWN: Flow = Flow {
    from: NodeId(1),
    ..BACK
};

static REFUSED_SENDS: [(u64, Call); 3] = [
    (0, Call::Send(BACK, b"a", true, true, Sent::BadFlow)),
    (0, Call::Send(OWN, b"a", true, true, Sent::BadFlow)),
    (0, Call::Send(FLOW, b"", true, true, Sent::Empty)),
];

#[test]
fn refused_sends_say_why(rt: HostRuntime) {
    answers(&rt, rt.alloc(), 1, None, &REFUSED_SENDS);
}

const SHORT: Received = Received::Bad {
    fault: LayoutFault::Short { len: 3 },
};

static REFUSED_DATAGRAMS_AND_READS: [(u64, Call); 5] = [
    (0, Call::Arrive(8, b"", Received::NoLink)),
    (0, Call::Arrive(7, b"abc", SHORT)),
    (0, Call::Read(FLOW, 4, Delivered::BadFlow, b"")),
    (0, Call::Read(BACK, 0, Delivered::NoRoom, b"")),
    (0, Call::Datagrams(0, 2)),
];

#[test]
fn refused_datagrams_and_reads_say_why(rt: HostRuntime) {
    answers(&rt, rt.alloc(), 1, None, &REFUSED_DATAGRAMS_AND_READS);
}

/// A node that starts again is silent for 3 mpl + r + a ms.
static SILENT: [(u64, Call); 2] = [
    (
        0,
        Call::Send(BACK, b"a", true, true, Sent::Quiet { until: 6300 }),
    ),
    (0, Call::IsSpent(false)),
];

#[test]
fn silence_is_told(rt: HostRuntime) {
    answers(&rt, rt.alloc(), 2, Some(100), &SILENT);
}

static GOING_BACK: [(u64, Call); 4] = [
    (u64::MAX, Call::Tick(Ticked::Done)),
    (0, Call::Tick(Ticked::Done)),
    (5, Call::Send(FLOW, b"a", true, true, Sent::Done)),
    (5, Call::Wake(Some((1 << 62) + 500))),
];

#[test]
fn moments_never_go_back(rt: HostRuntime) {
    answers(&rt, rt.alloc(), 1, None, &GOING_BACK);
}

/// Every call says that the endpoint is spent.
static SPENT: [(u64, Call); 7] = [
    (0, Call::IsSpent(true)),
    (0, Call::Send(FLOW, b"abc", true, true, Sent::Spent)),
    (0, Call::Arrive(7, b"abc", Received::Spent)),
    (0, Call::Read(BACK, 4, Delivered::Spent, b"")),
    (9, Call::Tick(Ticked::Spent)),
    (9, Call::Wake(None)),
    (9, Call::AddRoute(9, 5, Routed::Spent)),
];

/// The send is taken, or want of memory is told at it and at every call from then on.
fn tells_once(rt: &impl Abort, one: &mut Endpoint) {
    let answer = one.send(0, FLOW, b"abc", true, true);
    if answer == Sent::Done {
        assert!(rt; !one.is_spent());
    } else {
        assert!(rt; answer == Sent::NoMemory);
        answers_all(rt, one, &SPENT);
    }
}

#[test]
fn want_of_memory_is_told_once(rt: HostRuntime) {
    if let Ok(mut one) = open(&rt, rt.alloc(), 1, None) {
        tells_once(&rt, &mut one);
    }
}

/// The first eight octets of the SHA-256 digest of the eleven numbers, as Python's `hashlib` has it.
#[test]
fn fingerprint_is_that_of_other_programs(rt: HostRuntime) {
    let rules = STANDARD.check().expect(&rt, "the parameters are refused");
    assert!(rt; fingerprint(&rules) == 0xf185_fd7d_13be_58ba);
}
