//! Worked runs of a server. `2` is the nonce of its first opening; clients have heard of commit 1 of it.
use crate::server::{Server, Step};
use dt_orders_model::{Asked, Kind, Known, Verdict};
use std::process::Abort;

/// A server whose first opening has the nonce 2 does these steps.
fn follows(rt: &impl Abort, strict: bool, steps: &[Step]) {
    let mut server = Server::new(2, strict);
    for step in steps {
        let is = server.does(step);
        assert!(rt; is);
    }
}

/// Clock 1 of opening 0.
const HEARD_A: Known = Known {
    opening: 0,
    nonce: 2,
    clock: 1,
};

/// Clock 2 of opening 0.
const HEARD_B: Known = Known {
    opening: 0,
    nonce: 2,
    clock: 2,
};

/// Clock 3 of opening 0.
const HEARD_C: Known = Known {
    opening: 0,
    nonce: 2,
    clock: 3,
};

/// Clock 2 of opening 1.
const HEARD_D: Known = Known {
    opening: 1,
    nonce: 3,
    clock: 2,
};

/// Clock 3 of opening 1.
const HEARD_E: Known = Known {
    opening: 1,
    nonce: 3,
    clock: 3,
};

/// The reply is lost: the row answers.
static REPLY_LOST: [Step; 2] = [
    Step::Handle(
        0,
        Asked {
            kind: Kind::Order,
            number: 1,
            tag: 1,
            since: HEARD_A,
            knows: Some(HEARD_A),
        },
        Verdict::Execute,
        2,
    ),
    Step::Handle(
        0,
        Asked {
            kind: Kind::Order,
            number: 1,
            tag: 1,
            since: HEARD_A,
            knows: Some(HEARD_A),
        },
        Verdict::Done,
        2,
    ),
];

#[test]
fn the_row_answers_a_call_that_comes_again(rt: HostRuntime) {
    follows(&rt, false, &REPLY_LOST);
}

/// The commit is lost with the power: the order is executed when it is called again. Then the process dies
/// after it: the row answers.
static POWER_LOST: [Step; 7] = [
    Step::Keep,
    Step::Handle(
        0,
        Asked {
            kind: Kind::Order,
            number: 1,
            tag: 1,
            since: HEARD_A,
            knows: Some(HEARD_A),
        },
        Verdict::Execute,
        2,
    ),
    Step::SetBack,
    Step::Start(3, 2),
    Step::Handle(
        0,
        Asked {
            kind: Kind::Order,
            number: 1,
            tag: 1,
            since: HEARD_A,
            knows: Some(HEARD_A),
        },
        Verdict::Execute,
        3,
    ),
    Step::Start(4, 4),
    Step::Handle(
        0,
        Asked {
            kind: Kind::Order,
            number: 1,
            tag: 1,
            since: HEARD_A,
            knows: Some(HEARD_A),
        },
        Verdict::Done,
        4,
    ),
];

#[test]
fn an_order_is_executed_again_only_where_its_commit_is_lost(rt: HostRuntime) {
    follows(&rt, false, &POWER_LOST);
}

/// An order is cancelled before its call comes; another one was executed before it was cancelled.
static CANCEL: [Step; 4] = [
    Step::Handle(
        0,
        Asked {
            kind: Kind::Cancel,
            number: 2,
            tag: 1,
            since: HEARD_A,
            knows: Some(HEARD_A),
        },
        Verdict::Cancel,
        2,
    ),
    Step::Handle(
        0,
        Asked {
            kind: Kind::Order,
            number: 2,
            tag: 1,
            since: HEARD_A,
            knows: Some(HEARD_A),
        },
        Verdict::Never,
        2,
    ),
    Step::Handle(
        0,
        Asked {
            kind: Kind::Order,
            number: 3,
            tag: 1,
            since: HEARD_B,
            knows: Some(HEARD_B),
        },
        Verdict::Execute,
        3,
    ),
    Step::Handle(
        0,
        Asked {
            kind: Kind::Cancel,
            number: 3,
            tag: 1,
            since: HEARD_B,
            knows: Some(HEARD_B),
        },
        Verdict::Done,
        3,
    ),
];

#[test]
fn a_cancelled_order_is_never_executed(rt: HostRuntime) {
    follows(&rt, false, &CANCEL);
}

/// A row is forgotten. An order from before that is old; the next one of the lane is executed.
static FORGOTTEN: [Step; 4] = [
    Step::Handle(
        0,
        Asked {
            kind: Kind::Order,
            number: 1,
            tag: 1,
            since: HEARD_A,
            knows: Some(HEARD_A),
        },
        Verdict::Execute,
        2,
    ),
    Step::Forget(0, 2),
    Step::Handle(
        0,
        Asked {
            kind: Kind::Order,
            number: 1,
            tag: 1,
            since: HEARD_A,
            knows: Some(HEARD_A),
        },
        Verdict::Old,
        3,
    ),
    Step::Handle(
        0,
        Asked {
            kind: Kind::Order,
            number: 2,
            tag: 1,
            since: HEARD_C,
            knows: Some(HEARD_C),
        },
        Verdict::Execute,
        4,
    ),
];

#[test]
fn an_order_from_before_a_forgotten_row_is_old(rt: HostRuntime) {
    follows(&rt, false, &FORGOTTEN);
}

/// A handler fails; by its answer the order has a newer commit, so that what is forgotten then does no
/// harm.
static NOT_NOW: [Step; 4] = [
    Step::Handle(
        1,
        Asked {
            kind: Kind::Order,
            number: 1,
            tag: 1,
            since: HEARD_A,
            knows: Some(HEARD_A),
        },
        Verdict::Execute,
        2,
    ),
    Step::Fail(
        0,
        Asked {
            kind: Kind::Order,
            number: 1,
            tag: 1,
            since: HEARD_A,
            knows: Some(HEARD_B),
        },
        Verdict::Execute,
        2,
    ),
    Step::Forget(1, 2),
    Step::Handle(
        0,
        Asked {
            kind: Kind::Order,
            number: 1,
            tag: 1,
            since: HEARD_B,
            knows: Some(HEARD_B),
        },
        Verdict::Execute,
        4,
    ),
];

#[test]
fn an_order_whose_handler_failed_is_executed_later(rt: HostRuntime) {
    follows(&rt, false, &NOT_NOW);
}

/// The store is set back to before an order that was answered: who knows of that is refused, and is served
/// when it adopts the new opening.
static SET_BACK: [Step; 6] = [
    Step::Keep,
    Step::Handle(
        0,
        Asked {
            kind: Kind::Order,
            number: 1,
            tag: 1,
            since: HEARD_A,
            knows: Some(HEARD_A),
        },
        Verdict::Execute,
        2,
    ),
    Step::SetBack,
    Step::Start(3, 2),
    Step::Handle(
        1,
        Asked {
            kind: Kind::Order,
            number: 1,
            tag: 1,
            since: HEARD_B,
            knows: Some(HEARD_B),
        },
        Verdict::Forked,
        2,
    ),
    Step::Handle(
        1,
        Asked {
            kind: Kind::Order,
            number: 1,
            tag: 1,
            since: HEARD_B,
            knows: Some(HEARD_D),
        },
        Verdict::Execute,
        3,
    ),
];

#[test]
fn who_knows_more_than_the_store_is_refused(rt: HostRuntime) {
    follows(&rt, false, &SET_BACK);
}

/// A standby takes over without the last commit. The client heard no answer: it loses nothing.
static BENEATH: [Step; 6] = [
    Step::Keep,
    Step::Handle(
        0,
        Asked {
            kind: Kind::Order,
            number: 1,
            tag: 1,
            since: HEARD_A,
            knows: Some(HEARD_A),
        },
        Verdict::Execute,
        2,
    ),
    Step::SetBack,
    Step::Start(3, 2),
    Step::Handle(
        1,
        Asked {
            kind: Kind::Order,
            number: 1,
            tag: 1,
            since: HEARD_A,
            knows: Some(HEARD_A),
        },
        Verdict::Execute,
        3,
    ),
    Step::Handle(
        0,
        Asked {
            kind: Kind::Order,
            number: 1,
            tag: 1,
            since: HEARD_A,
            knows: Some(HEARD_E),
        },
        Verdict::Execute,
        4,
    ),
];

#[test]
fn a_standby_without_the_last_commit_executes_it_anew(rt: HostRuntime) {
    follows(&rt, false, &BENEATH);
}

/// A client's store is set back: its next order has a number that was used. The row is touched, and the
/// next number is executed.
static CLIENT_SET_BACK: [Step; 5] = [
    Step::Handle(
        0,
        Asked {
            kind: Kind::Order,
            number: 1,
            tag: 1,
            since: HEARD_A,
            knows: Some(HEARD_A),
        },
        Verdict::Execute,
        2,
    ),
    Step::Handle(
        0,
        Asked {
            kind: Kind::Ask,
            number: 0,
            tag: 0,
            since: HEARD_A,
            knows: None,
        },
        Verdict::Read,
        2,
    ),
    Step::Handle(
        0,
        Asked {
            kind: Kind::Order,
            number: 1,
            tag: 3,
            since: HEARD_B,
            knows: Some(HEARD_B),
        },
        Verdict::Touch,
        3,
    ),
    Step::Handle(
        0,
        Asked {
            kind: Kind::Order,
            number: 1,
            tag: 3,
            since: HEARD_B,
            knows: Some(HEARD_B),
        },
        Verdict::Stale,
        3,
    ),
    Step::Handle(
        0,
        Asked {
            kind: Kind::Order,
            number: 2,
            tag: 3,
            since: HEARD_C,
            knows: Some(HEARD_C),
        },
        Verdict::Execute,
        4,
    ),
];

#[test]
fn a_number_that_was_used_is_stale(rt: HostRuntime) {
    follows(&rt, false, &CLIENT_SET_BACK);
}

/// An order is at work until another service has answered. It survives a start of the server and is not
/// forgotten.
static CHAIN: [Step; 5] = [
    Step::Begin(
        0,
        Asked {
            kind: Kind::Order,
            number: 1,
            tag: 1,
            since: HEARD_A,
            knows: Some(HEARD_A),
        },
        Verdict::Execute,
        2,
    ),
    Step::Handle(
        0,
        Asked {
            kind: Kind::Cancel,
            number: 1,
            tag: 1,
            since: HEARD_A,
            knows: Some(HEARD_A),
        },
        Verdict::AtWork,
        2,
    ),
    Step::Start(4, 3),
    Step::Finish(0, 4),
    Step::Handle(
        0,
        Asked {
            kind: Kind::Order,
            number: 1,
            tag: 1,
            since: HEARD_A,
            knows: Some(HEARD_B),
        },
        Verdict::Done,
        4,
    ),
];

#[test]
fn an_order_at_work_is_done_when_it_is_finished(rt: HostRuntime) {
    follows(&rt, false, &CHAIN);
}

/// The row of number 4 is forgotten, and number 3 makes a row: a late copy of 4 is old.
static BORN: [Step; 4] = [
    Step::Handle(
        0,
        Asked {
            kind: Kind::Order,
            number: 4,
            tag: 1,
            since: HEARD_A,
            knows: Some(HEARD_A),
        },
        Verdict::Execute,
        2,
    ),
    Step::Forget(0, 2),
    Step::Handle(
        0,
        Asked {
            kind: Kind::Order,
            number: 3,
            tag: 3,
            since: HEARD_C,
            knows: Some(HEARD_C),
        },
        Verdict::Execute,
        4,
    ),
    Step::Handle(
        0,
        Asked {
            kind: Kind::Order,
            number: 4,
            tag: 1,
            since: HEARD_A,
            knows: Some(HEARD_A),
        },
        Verdict::Old,
        4,
    ),
];

#[test]
fn a_row_made_anew_closes_what_was_forgotten(rt: HostRuntime) {
    follows(&rt, false, &BORN);
}

/// A strict server takes no order of a client that doesn't know of its present opening.
static STRICT: [Step; 3] = [
    Step::Start(3, 2),
    Step::Handle(
        0,
        Asked {
            kind: Kind::Order,
            number: 1,
            tag: 1,
            since: HEARD_A,
            knows: Some(HEARD_A),
        },
        Verdict::Hello,
        2,
    ),
    Step::Handle(
        0,
        Asked {
            kind: Kind::Order,
            number: 1,
            tag: 1,
            since: HEARD_A,
            knows: Some(HEARD_D),
        },
        Verdict::Execute,
        3,
    ),
];

#[test]
fn a_strict_server_is_met_first(rt: HostRuntime) {
    follows(&rt, true, &STRICT);
}
