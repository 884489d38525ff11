//! The parts of a wire: what waits in it, what waited too long, and its haste.
use dt_machine::{Backlog, Haste, may_have_waited};

/// When the socket was found empty, the moment now, and whether a datagram may have waited too long, in
/// nanoseconds.
static WAITS: [(u64, u64, bool); 5] = [
    (5, 5, false),
    (5, 20_000_005, false),
    (5, 20_000_006, true),
    (9, 5, false),
    (u64::MAX, u64::MAX, false),
];

#[test]
fn a_wait_longer_than_20_ms_is_too_long(rt: HostRuntime) {
    for (empty, now, late) in &WAITS {
        assert!(rt; may_have_waited(*empty, *now) == *late);
    }
}

/// Whether the next datagram of a backlog, into 4 octets, is this: its link, how many octets it has there,
/// when the socket was found empty, and the octets.
fn hands_over(backlog: &mut Backlog, link: u16, empty: u64, octets: &[u8]) -> bool {
    let mut buf = [0u8; 4];
    match backlog.next(&mut buf) {
        Some(it) => (it.link, it.empty) == (link, empty) && buf.get(..it.count) == Some(octets),
        None => false,
    }
}

/// Whether a backlog that had nothing keeps two datagrams.
fn keeps_two(backlog: &mut Backlog) -> bool {
    !hands_over(backlog, 0, 0, b"") && backlog.keep(1, b"one", 10) && backlog.keep(2, b"three", 20)
}

/// Whether it hands over those two, and has nothing then.
fn hands_over_two(backlog: &mut Backlog) -> bool {
    hands_over(backlog, 1, 10, b"one") && hands_over(backlog, 2, 20, b"thre") && backlog.is_empty()
}

#[test]
fn a_backlog_hands_over_in_order(rt: HostRuntime) {
    let mut backlog = Backlog::new(rt.alloc()).expect(&rt, "memory for a backlog");
    assert!(rt; keeps_two(&mut backlog));
    assert!(rt; hands_over_two(&mut backlog));
}

/// How many such datagrams a backlog keeps, of 600.
fn keeps(backlog: &mut Backlog, octets: &[u8]) -> u32 {
    let mut kept = 0u32;
    backlog.clear();
    for _ in 0..600 {
        kept = kept.saturating_add(u32::from(backlog.keep(1, octets, 0)));
    }
    kept
}

/// The octets of a long datagram.
static LONG: [u8; 8192] = [0; 8192];

/// Whether a backlog keeps 32 long datagrams and nothing more, and 512 without octets.
fn is_bounded(backlog: &mut Backlog) -> bool {
    keeps(backlog, &LONG) == 32 && !backlog.keep(1, b"a", 0) && keeps(backlog, b"") == 512
}

#[test]
fn a_backlog_is_bounded(rt: HostRuntime) {
    let mut backlog = Backlog::new(rt.alloc()).expect(&rt, "memory for a backlog");
    assert!(rt; is_bounded(&mut backlog));
}

/// What befalls a take: a wait, which a datagram ends after so many nanoseconds or nothing does, or looks,
/// which find one or nothing.
enum Step {
    Waited(u64),
    Rested,
    Met(u64),
    Missed,
}

/// Steps, and how often each is taken, and whether looks are tried then.
static STEPS: [(Step, u32, bool); 14] = [
    (Step::Rested, 1, false),
    (Step::Waited(9_000), 3, false),
    (Step::Waited(9_000), 1, true),
    (Step::Met(9_000), 2, true),
    (Step::Waited(50_001), 1, false),
    (Step::Waited(50_000), 1, true),
    (Step::Missed, 1, false),
    (Step::Waited(9_000), 1, false),
    (Step::Waited(8_000), 1, true),
    (Step::Met(8_001), 1, false),
    (Step::Waited(9_000), 3, false),
    (Step::Rested, 1, false),
    (Step::Waited(9_000), 3, false),
    (Step::Waited(9_000), 1, true),
];

/// Does a step.
fn next(haste: Haste, step: &Step) -> Haste {
    match step {
        Step::Waited(took) => haste.waited(*took),
        Step::Rested => haste.rested(),
        Step::Met(took) => haste.met(*took),
        Step::Missed => haste.missed(),
    }
}

/// Does a step so often.
fn after(mut haste: Haste, step: &Step, times: u32) -> Haste {
    for _ in 0..times {
        haste = next(haste, step);
    }
    haste
}

#[test]
fn looks_are_tried_while_datagrams_come_soon(rt: HostRuntime) {
    let mut haste = Haste::new();
    for (step, times, brisk) in &STEPS {
        haste = after(haste, step, *times);
        assert!(rt; haste.is_brisk() == *brisk);
    }
}
