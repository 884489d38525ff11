//! What is done with a data packet: each case of its table, by hand.
use crate::fixtures::holds;
use dt_flow_model::Action;
use dt_recv::action;

// What is expected, the data-run flag, the number, the length and the free room; and what is done. The last
// four have numbers that go round.
static ACTIONS: [(Option<u32>, bool, u32, u32, u32, Action); 20] = [
    (None, false, 7, 5, 4, Action::Drop),
    (None, false, 7, 5, 5, Action::Drop),
    (None, true, 7, 5, 4, Action::TellNumber),
    (None, true, 7, 5, 5, Action::Make),
    (Some(8), false, 7, 5, 4, Action::TellExpected),
    (Some(8), false, 7, 5, 5, Action::TellExpected),
    (Some(8), true, 7, 5, 4, Action::TellExpected),
    (Some(8), true, 7, 5, 5, Action::TellExpected),
    (Some(7), false, 7, 5, 4, Action::TellExpected),
    (Some(7), false, 7, 5, 5, Action::Accept),
    (Some(7), true, 7, 5, 4, Action::TellExpected),
    (Some(7), true, 7, 5, 5, Action::Accept),
    (Some(6), false, 7, 5, 4, Action::TellExpected),
    (Some(6), false, 7, 5, 5, Action::TellExpected),
    (Some(6), true, 7, 5, 4, Action::TellNumber),
    (Some(6), true, 7, 5, 5, Action::Skip),
    (Some(2), true, 4_294_967_290, 8, 100, Action::TellExpected),
    (Some(4_294_967_290), true, 2, 100, 100, Action::Skip),
    (Some(4_294_967_290), true, 2, 101, 100, Action::TellNumber),
    (None, true, 4_294_967_290, 100, 100, Action::Make),
];

#[test]
fn each_case_has_its_action(rt: HostRuntime) {
    for (expected, drf, number, length, free, wanted) in &ACTIONS {
        let done = action(*expected, *drf, *number, *length, *free);
        holds(&rt, done == *wanted, u64::from(*number));
    }
}
