//! Steps of relays.
use crate::benches::{Bench, Step};
use crate::relay_links::{INS, OUTS, OUTS_AGAIN, ROUTES};
use dt_items::NoMemory;
use dt_relay::{Entered, OutLink, Passage};
use std::alloc::Global;
use std::process::Abort;

/// Each step is as it says.
fn are_done(rt: &impl Abort, bench: &mut Bench, steps: &[Step]) {
    for (number, step) in steps.iter().enumerate() {
        let is = bench.is_done(rt, *step);
        assert!(rt; is, "step {number}");
    }
}

/// The octets of each packet here.
const PACKET: usize = 30;

/// Each step of a relay with these links is as it says, where frames mostly have so many octets.
fn goes(
    rt: &impl Abort,
    alloc: Global,
    longest: usize,
    outs: &[OutLink],
    steps: &[Step],
) -> Result<(), NoMemory> {
    let mut bench = Bench::new(alloc, longest, outs, &INS, &ROUTES)?;
    are_done(rt, &mut bench, steps);
    Ok(())
}

const QUEUED: Entered = Entered::Queued { link: 5 };

/// The last millisecond; a charge for each millisecond that was waited; an expired packet doesn't set
/// the pace; nothing but the pace keeps a packet.
static STEPS: [Step; 31] = [
    Step::Wakes(None),
    Step::Leaves(5, None),
    Step::Admits(3, 998, None),
    Step::Admits(3, 999, Some(1)),
    Step::Admits(9, 999, Some(2)),
    Step::Enters(1, 2, QUEUED),
    Step::Enters(2, 2, QUEUED),
    Step::Wakes(Some(0)),
    Step::Leaves(5, Some(0)),
    Step::Leaves(5, Some(1)),
    Step::Wakes(None),
    Step::Enters(1000, 4, Entered::NoRoute { to: 4 }),
    Step::Wakes(None),
    Step::Passes(10),
    Step::Enters(990, 2, QUEUED),
    Step::Enters(991, 2, QUEUED),
    Step::Enters(992, 2, QUEUED),
    Step::Enters(5000, 2, QUEUED),
    Step::Enters(5000, 3, Entered::Queued { link: 1 }),
    Step::Wakes(Some(0)),
    Step::Leaves(5, None),
    Step::Passes(989),
    Step::Wakes(Some(0)),
    Step::Leaves(5, None),
    Step::Passes(1),
    Step::Leaves(5, Some(0)),
    Step::Leaves(5, Some(0)),
    Step::Leaves(5, Some(1)),
    Step::Leaves(5, None),
    Step::Passes(1000),
    Step::Leaves(5, Some(3009)),
];

#[test]
fn packets_pay_and_wait(rt: HostRuntime) -> Result<(), NoMemory> {
    goes(&rt, rt.alloc(), PACKET, &OUTS, &STEPS)
}

const GOES_ON: Passage = Passage::Leaves { link: 5 };

const HAS_TO_WAIT: Passage = Passage::Waits { link: 5 };

/// Straight on goes what needs not wait, and it sets the pace. A link is named by its place, and the
/// second of a number stands for the first.
static STRAIGHT_STEPS: [Step; 16] = [
    Step::GoesOn(5000, 4, Passage::NoRoute { to: 4 }),
    Step::GoesOn(1, 2, Passage::Expired { link: 5 }),
    Step::GoesOn(2, 2, GOES_ON),
    Step::GoesOn(5000, 2, HAS_TO_WAIT),
    Step::Wakes(None),
    Step::Enters(5000, 2, QUEUED),
    Step::LeavesAt(0, false),
    Step::Passes(999),
    Step::LeavesAt(2, false),
    Step::Passes(1),
    Step::GoesOn(5000, 2, HAS_TO_WAIT),
    Step::LeavesAt(1, false),
    Step::LeavesAt(2, true),
    Step::LeavesAt(0, false),
    Step::Passes(1000),
    Step::GoesOn(5000, 2, GOES_ON),
];

#[test]
fn what_needs_not_wait_goes_straight_on(rt: HostRuntime) -> Result<(), NoMemory> {
    goes(&rt, rt.alloc(), PACKET, &OUTS_AGAIN, &STRAIGHT_STEPS)
}

/// One leaves, and so the next have to wait. Then 64 wait, and no more can.
static FULL_STEPS: [Step; 11] = [
    Step::Enters(5000, 2, QUEUED),
    Step::Leaves(5, Some(4999)),
    Step::Fills,
    Step::Enters(9000, 2, Entered::Full { link: 5 }),
    Step::GoesOn(9000, 2, Passage::Full { link: 5 }),
    Step::Leaves(5, None),
    Step::Wakes(Some(1000)),
    Step::Passes(1000),
    Step::Leaves(5, Some(3999)),
    Step::Enters(9000, 2, QUEUED),
    Step::Enters(9000, 2, Entered::Full { link: 5 }),
];

#[test]
fn sixty_four_wait_and_no_more(rt: HostRuntime) -> Result<(), NoMemory> {
    goes(&rt, rt.alloc(), PACKET, &OUTS, &FULL_STEPS)
}

/// So it is for frames that are longer than was said.
#[test]
fn longer_frames_wait_as_well(rt: HostRuntime) -> Result<(), NoMemory> {
    goes(&rt, rt.alloc(), PACKET - 1, &OUTS, &FULL_STEPS)
}

/// The places of the links, and no more.
static PLACES: [Step; 3] = [
    Step::LinkAt(0, Some(5)),
    Step::LinkAt(1, Some(1)),
    Step::LinkAt(2, None),
];

#[test]
fn links_stand_in_the_order_of_outs(rt: HostRuntime) -> Result<(), NoMemory> {
    goes(&rt, rt.alloc(), PACKET, &OUTS, &PLACES)
}
