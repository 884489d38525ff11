//! Tests of senders: worked runs played step by step, each with its own parameters and times.
ghost use Rattle.std.specs.Prelude.{◌≡◌, ◌<◌};
ghost use Rattle.dt_flow_model.specs.Keeping.{taken_by};

use crate::fixtures::{FLOW, STANDARD, holds, rules};
use crate::sender_rows::{GIVEN_UP, QUANTUM, RENEWAL, ROUND, THREE_PACKETS, UNCERTAIN, WINDOWS};
use crate::sender_steps::{Step, is_done};
use dt_layout::Frame;
use dt_send::Sender;
use dt_units::{Params, Steps};
use std::alloc::Global;
use std::marker::Brand;
use std::process::Abort;
use std::sync::ledger::{Blank, Ledger};

const NARROW: Params = Params {
    window: 4,
    ..STANDARD
};

const SHORT_RUNS: Params = Params {
    run_limit: 8,
    ..STANDARD
};

const LATE_START: Params = Params {
    start: 4_294_967_294,
    ..STANDARD
};

/// The parameters of a record, and its rows.
static RUNS: [(Params, &[(u64, Step)]); 7] = [
    (STANDARD, THREE_PACKETS),
    (STANDARD, UNCERTAIN),
    (NARROW, WINDOWS),
    (NARROW, GIVEN_UP),
    (SHORT_RUNS, RENEWAL),
    (SHORT_RUNS, QUANTUM),
    (LATE_START, ROUND),
];

/// A new record at 0.
fn sender(rt: &impl Abort, alloc: Global, params: &Params) -> Sender
    ensures { taken_by result.state ≡ 0 }
{
    Sender::new(alloc, &rules(rt, params), FLOW, 0).expect(rt, "memory")
}

/// A record at 0 goes through these rows.
fn goes<L: Ledger>(rt: &impl Abort, sender: &mut Sender, rows: &[(u64, Step)], steps: &mut Steps<L>)
    requires { taken_by sender.old.state ≡ 0 }
{
    let mut frame = Frame::new();
    let mut taken = 0;
    for (now, step) in rows {
        let is = is_done(sender, &mut taken, *now, step, &mut frame, steps);
        holds(rt, is, *now);
    }
}

/// A new record does.
fn plays<L: Ledger>(
    rt: &impl Abort,
    alloc: Global,
    params: &Params,
    rows: &[(u64, Step)],
    steps: &mut Steps<L>,
) {
    let mut sender = sender(rt, alloc, params);
    goes(rt, &mut sender, rows, steps);
}

/// All runs.
fn all_play<L: Ledger>(rt: &impl Abort, alloc: Global, steps: &mut Steps<L>) {
    for (params, rows) in &RUNS {
        plays(rt, alloc, params, rows, steps);
    }
}

fn rows_on<L: Ledger>(rt: &impl Abort, alloc: Global, ledger: Blank)
    requires name { ledger.name ≡ L.name }
    requires parts { ledger.parts ≡ L.parts }
    requires some { 0 < ledger.parts }
{
    all_play(rt, alloc, &mut Steps::<L>::new(ledger));
}

#[test]
fn records_act_in_time(rt: HostRuntime) {
    rows_on::<Brand>(&rt, rt.alloc(), Blank::new(1));
}
