//! Worked runs of a client. `1` is the nonce of its first opening; it has heard of commit 1 of its server.
use crate::client::{Caller, Event, Look};
use dt_orders_model::{Fate, Hearing, Kind, Known, Word};
use std::process::Abort;

/// A client whose opening has the nonce 1 does this.
fn follows(rt: &impl Abort, is_once: bool, events: &[Event]) {
    let mut caller = Caller::new(1, HEARD_A, is_once);
    for event in events {
        let is = caller.does(event);
        assert!(rt; is);
    }
}

/// Clock 1 of opening 0.
const HEARD_A: Known = Known {
    opening: 0,
    nonce: 2,
    clock: 1,
};

/// Clock 2 of opening 0.
const HEARD_B: Known = Known {
    opening: 0,
    nonce: 2,
    clock: 2,
};

/// Clock 3 of opening 0.
const HEARD_C: Known = Known {
    opening: 0,
    nonce: 2,
    clock: 3,
};

/// Clock 2 of opening 1.
const HEARD_D: Known = Known {
    opening: 1,
    nonce: 3,
    clock: 2,
};

/// Clock 3 of opening 1.
const HEARD_E: Known = Known {
    opening: 1,
    nonce: 3,
    clock: 3,
};

/// All goes well. The order is called only when its note is stored, and one order at a time is on the lane.
static GOOD: [Event; 11] = [
    Event::Give(1),
    Event::Refuse(2),
    Event::Idle,
    Event::Store,
    Event::Call(Look {
        kind: Kind::Order,
        number: 1,
        tag: 1,
        since: HEARD_A,
        knows: Some(HEARD_A),
    }),
    Event::Idle,
    Event::Hear(Word::Done, 0, HEARD_B, Hearing::Used, Some(Fate::Done)),
    Event::Knows(HEARD_B),
    Event::Give(2),
    Event::Store,
    Event::Call(Look {
        kind: Kind::Order,
        number: 2,
        tag: 1,
        since: HEARD_B,
        knows: Some(HEARD_B),
    }),
];

#[test]
fn an_order_is_called_when_it_is_stored_and_done_by_its_answer(rt: HostRuntime) {
    follows(&rt, false, &GOOD);
}

/// The request or the reply is lost: the same order is called again, with its number, tag and commit.
static LOST: [Event; 6] = [
    Event::Give(1),
    Event::Store,
    Event::Call(Look {
        kind: Kind::Order,
        number: 1,
        tag: 1,
        since: HEARD_A,
        knows: Some(HEARD_A),
    }),
    Event::Lose,
    Event::Call(Look {
        kind: Kind::Order,
        number: 1,
        tag: 1,
        since: HEARD_A,
        knows: Some(HEARD_A),
    }),
    Event::Hear(Word::Done, 0, HEARD_B, Hearing::Used, Some(Fate::Done)),
];

#[test]
fn an_order_is_called_again_as_it_was(rt: HostRuntime) {
    follows(&rt, false, &LOST);
}

/// The client dies after its call: the order is no more fresh, and is called again by the next opening
/// under its old tag.
static DIES: [Event; 9] = [
    Event::Give(1),
    Event::Store,
    Event::Call(Look {
        kind: Kind::Order,
        number: 1,
        tag: 1,
        since: HEARD_A,
        knows: Some(HEARD_A),
    }),
    Event::Die(3),
    Event::Call(Look {
        kind: Kind::Order,
        number: 1,
        tag: 1,
        since: HEARD_A,
        knows: Some(HEARD_A),
    }),
    Event::Hear(Word::Done, 0, HEARD_B, Hearing::Used, Some(Fate::Done)),
    Event::Give(2),
    Event::Store,
    Event::Call(Look {
        kind: Kind::Order,
        number: 2,
        tag: 3,
        since: HEARD_B,
        knows: Some(HEARD_B),
    }),
];

#[test]
fn an_order_outlives_its_client(rt: HostRuntime) {
    follows(&rt, false, &DIES);
}

/// An order that was never called is NEVER at once. One that may have been sent is by an answer; a third
/// was executed before.
static CANCEL: [Event; 17] = [
    Event::Give(1),
    Event::Store,
    Event::Cancel(Some(Fate::Never)),
    Event::Give(2),
    Event::Store,
    Event::Call(Look {
        kind: Kind::Order,
        number: 2,
        tag: 1,
        since: HEARD_A,
        knows: Some(HEARD_A),
    }),
    Event::Lose,
    Event::Cancel(None),
    Event::Call(Look {
        kind: Kind::Cancel,
        number: 2,
        tag: 1,
        since: HEARD_A,
        knows: Some(HEARD_A),
    }),
    Event::Hear(Word::Never, 0, HEARD_B, Hearing::Used, Some(Fate::Never)),
    Event::Give(3),
    Event::Store,
    Event::Call(Look {
        kind: Kind::Order,
        number: 3,
        tag: 1,
        since: HEARD_B,
        knows: Some(HEARD_B),
    }),
    Event::Lose,
    Event::Cancel(None),
    Event::Call(Look {
        kind: Kind::Cancel,
        number: 3,
        tag: 1,
        since: HEARD_B,
        knows: Some(HEARD_B),
    }),
    Event::Hear(Word::Done, 0, HEARD_C, Hearing::Used, Some(Fate::Done)),
];

#[test]
fn a_fresh_order_is_never_at_once_and_another_by_its_answer(rt: HostRuntime) {
    follows(&rt, false, &CANCEL);
}

/// A call that was declined was not sent: the order is as fresh as before.
static DECLINED: [Event; 4] = [
    Event::Give(1),
    Event::Store,
    Event::Decline(Look {
        kind: Kind::Order,
        number: 1,
        tag: 1,
        since: HEARD_A,
        knows: Some(HEARD_A),
    }),
    Event::Cancel(Some(Fate::Never)),
];

#[test]
fn a_declined_call_leaves_the_order_fresh(rt: HostRuntime) {
    follows(&rt, false, &DECLINED);
}

/// The server forgot its row: the order is UNKNOWN, since it was called twice.
static FORGOTTEN: [Event; 9] = [
    Event::Give(1),
    Event::Store,
    Event::Call(Look {
        kind: Kind::Order,
        number: 1,
        tag: 1,
        since: HEARD_A,
        knows: Some(HEARD_A),
    }),
    Event::Lose,
    Event::Call(Look {
        kind: Kind::Order,
        number: 1,
        tag: 1,
        since: HEARD_A,
        knows: Some(HEARD_A),
    }),
    Event::Hear(Word::Old, 0, HEARD_C, Hearing::Used, Some(Fate::Unknown)),
    Event::Give(2),
    Event::Store,
    Event::Call(Look {
        kind: Kind::Order,
        number: 2,
        tag: 1,
        since: HEARD_C,
        knows: Some(HEARD_C),
    }),
];

#[test]
fn an_old_order_is_unknown(rt: HostRuntime) {
    follows(&rt, false, &FORGOTTEN);
}

/// A handler fails: the order carries the commit of that answer, once it is stored.
static NOT_NOW: [Event; 11] = [
    Event::Give(1),
    Event::Store,
    Event::Call(Look {
        kind: Kind::Order,
        number: 1,
        tag: 1,
        since: HEARD_A,
        knows: Some(HEARD_A),
    }),
    Event::Hear(Word::NotNow, 0, HEARD_B, Hearing::Used, None),
    Event::Idle,
    Event::Store,
    Event::Call(Look {
        kind: Kind::Order,
        number: 1,
        tag: 1,
        since: HEARD_B,
        knows: Some(HEARD_B),
    }),
    Event::Hear(Word::AtWork, 0, HEARD_C, Hearing::Used, None),
    Event::Store,
    Event::Call(Look {
        kind: Kind::Order,
        number: 1,
        tag: 1,
        since: HEARD_B,
        knows: Some(HEARD_C),
    }),
    Event::Hear(Word::Done, 0, HEARD_C, Hearing::Used, Some(Fate::Done)),
];

#[test]
fn an_order_that_failed_goes_on_from_its_answer(rt: HostRuntime) {
    follows(&rt, false, &NOT_NOW);
}

/// The server was set back: nothing is called until the program adopts it. The order keeps its commit.
static SET_BACK: [Event; 13] = [
    Event::Give(1),
    Event::Store,
    Event::Call(Look {
        kind: Kind::Order,
        number: 1,
        tag: 1,
        since: HEARD_A,
        knows: Some(HEARD_A),
    }),
    Event::Hear(Word::Done, 0, HEARD_B, Hearing::Used, Some(Fate::Done)),
    Event::Give(2),
    Event::Store,
    Event::Call(Look {
        kind: Kind::Order,
        number: 2,
        tag: 1,
        since: HEARD_B,
        knows: Some(HEARD_B),
    }),
    Event::Hear(Word::Forked, 0, HEARD_D, Hearing::Alarm, None),
    Event::Idle,
    Event::Adopt,
    Event::Knows(HEARD_D),
    Event::Call(Look {
        kind: Kind::Order,
        number: 2,
        tag: 1,
        since: HEARD_B,
        knows: Some(HEARD_D),
    }),
    Event::Hear(Word::Done, 0, HEARD_E, Hearing::Used, Some(Fate::Done)),
];

#[test]
fn an_alarm_stops_the_client_until_it_adopts(rt: HostRuntime) {
    follows(&rt, false, &SET_BACK);
}

/// Over any wire a stale order is UNKNOWN, and the lane goes on above the number of the row.
static STALE: [Event; 7] = [
    Event::Give(1),
    Event::Store,
    Event::Call(Look {
        kind: Kind::Order,
        number: 1,
        tag: 1,
        since: HEARD_A,
        knows: Some(HEARD_A),
    }),
    Event::Hear(Word::Stale, 7, HEARD_C, Hearing::Used, Some(Fate::Unknown)),
    Event::Give(2),
    Event::Store,
    Event::Call(Look {
        kind: Kind::Order,
        number: 8,
        tag: 1,
        since: HEARD_C,
        knows: Some(HEARD_C),
    }),
];

#[test]
fn a_stale_number_is_unknown_and_the_lane_goes_on_above_it(rt: HostRuntime) {
    follows(&rt, false, &STALE);
}

/// Over a transport that delivers a call once at most, the only call of an order that is stale gets the
/// next number, and an old one a newer commit; a second call is UNKNOWN.
static ONLY_CALL: [Event; 11] = [
    Event::Give(1),
    Event::Store,
    Event::Call(Look {
        kind: Kind::Order,
        number: 1,
        tag: 1,
        since: HEARD_A,
        knows: Some(HEARD_A),
    }),
    Event::Hear(Word::Stale, 1, HEARD_C, Hearing::Used, None),
    Event::Idle,
    Event::Store,
    Event::Call(Look {
        kind: Kind::Order,
        number: 2,
        tag: 1,
        since: HEARD_C,
        knows: Some(HEARD_C),
    }),
    Event::Hear(Word::Old, 0, HEARD_C, Hearing::Used, None),
    Event::Store,
    Event::Call(Look {
        kind: Kind::Order,
        number: 2,
        tag: 1,
        since: HEARD_C,
        knows: Some(HEARD_C),
    }),
    Event::Hear(Word::Old, 0, HEARD_C, Hearing::Used, Some(Fate::Unknown)),
];

#[test]
fn the_only_call_of_an_order_that_is_refused_was_not_executed(rt: HostRuntime) {
    follows(&rt, true, &ONLY_CALL);
}

/// An order that a former life noted may have been called by it.
static ONLY_OF_THIS_LIFE: [Event; 5] = [
    Event::Give(1),
    Event::Store,
    Event::Die(3),
    Event::Call(Look {
        kind: Kind::Order,
        number: 1,
        tag: 1,
        since: HEARD_A,
        knows: Some(HEARD_A),
    }),
    Event::Hear(Word::Stale, 1, HEARD_B, Hearing::Used, Some(Fate::Unknown)),
];

#[test]
fn an_order_of_a_former_life_has_no_only_call(rt: HostRuntime) {
    follows(&rt, true, &ONLY_OF_THIS_LIFE);
}

/// An answer to an earlier call is strange. One of another opening than the known one is used, if its call
/// carried what is known now.
static LATE: [Event; 8] = [
    Event::Give(1),
    Event::Store,
    Event::Call(Look {
        kind: Kind::Order,
        number: 1,
        tag: 1,
        since: HEARD_A,
        knows: Some(HEARD_A),
    }),
    Event::Hear(Word::AtWork, 0, HEARD_B, Hearing::Used, None),
    Event::Store,
    Event::Call(Look {
        kind: Kind::Order,
        number: 1,
        tag: 1,
        since: HEARD_A,
        knows: Some(HEARD_B),
    }),
    Event::HearLate(Word::Done, HEARD_B),
    Event::Hear(Word::Done, 0, HEARD_E, Hearing::Used, Some(Fate::Done)),
];

#[test]
fn a_late_answer_is_strange_and_one_of_another_opening_is_used_if_its_call_knew_all(
    rt: HostRuntime,
) {
    follows(&rt, false, &LATE);
}
