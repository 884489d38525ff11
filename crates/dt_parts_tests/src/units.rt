//! Tests of the parameters and their time bounds, of the order of sequence numbers, and of the count of looks.
ghost use Rattle.std.specs.Prelude.{◌≡◌, ◌<◌, ◌+◌};

use crate::rows::holds_at;
use dt_units::numbers::relation;
use dt_units::{Field, ParamFault, Params, Relation, Steps, Times, later};
use std::marker::Brand;
use std::sync::ledger::{Blank, Ledger};

const STANDARD: Params = Params {
    mpl: 1000,
    r: 3000,
    a: 200,
    rto: 500,
    probe: 800,
    seg: 100,
    cap: 4096,
    rcap: 4096,
    window: 512,
    run_limit: 2_147_483_648,
    start: 0,
};

const SUMS: Times = Times {
    receive: 4200,
    give: 5200,
    send: 6200,
    quiet: 6200,
    spacing: 9200,
};

fn has_rules(params: &Params, times: Times) -> bool {
    match params.check() {
        Ok(rules) => *rules.params() == *params && *rules.times() == times,
        Err(_) => false,
    }
}

#[test]
fn time_bounds_are_the_sums(rt: HostRuntime) {
    assert!(rt; has_rules(&STANDARD, SUMS));
}

/// Parameters, and the field that is named of them, with its value.
static OUT_OF_RANGE: [(Params, ParamFault); 5] = [
    (
        Params { mpl: 1, ..STANDARD },
        ParamFault {
            field: Field::Mpl,
            value: 1,
        },
    ),
    (
        Params {
            a: 0,
            seg: 8193,
            ..STANDARD
        },
        ParamFault {
            field: Field::A,
            value: 0,
        },
    ),
    (
        Params {
            probe: 6200,
            ..STANDARD
        },
        ParamFault {
            field: Field::Probe,
            value: 6200,
        },
    ),
    (
        Params {
            window: 65_537,
            ..STANDARD
        },
        ParamFault {
            field: Field::Window,
            value: 65_537,
        },
    ),
    (
        Params {
            run_limit: 0,
            ..STANDARD
        },
        ParamFault {
            field: Field::RunLimit,
            value: 0,
        },
    ),
];

fn is_fault(params: &Params, fault: ParamFault) -> bool {
    match params.check() {
        Ok(_) => false,
        Err(found) => found == fault,
    }
}

#[test]
fn the_first_field_out_of_range_is_named(rt: HostRuntime) {
    for (params, fault) in &OUT_OF_RANGE {
        assert!(rt; is_fault(params, *fault), "{fault:?}");
    }
}

/// A number, the one that is expected, and where it stands.
static NUMBERS: [(u32, u32, Relation); 7] = [
    (99, 100, Relation::Below),
    (100, 100, Relation::Equal),
    (101, 100, Relation::Above),
    (5, 4_294_967_290, Relation::Above),
    (4_294_967_290, 5, Relation::Below),
    (2_147_483_647, 0, Relation::Above),
    (2_147_483_648, 0, Relation::Below),
];

fn stands(n: u32, expected: u32, wanted: Relation) -> bool {
    relation(n, expected) == wanted
}

fn are_later() -> bool {
    later(100, 50) == 150 && later(4_294_967_290, 10) == 4
}

#[test]
fn numbers_are_in_order(rt: HostRuntime) {
    for (n, expected, wanted) in &NUMBERS {
        let is = stands(*n, *expected, *wanted);
        holds_at(&rt, is, *n as usize, *expected as usize);
    }
    let is = are_later();
    assert!(rt; is);
}

/// Takes two looks.
fn look_twice<L: Ledger>(steps: &mut Steps<L>)
    ensures { steps.new ≡ steps.old + 2 }
{
    steps.tick();
    steps.tick();
}

/// Looks on a ledger of the caller's.
fn look_on<L: Ledger>(ledger: Blank)
    requires name { ledger.name ≡ L.name }
    requires parts { ledger.parts ≡ L.parts }
    requires some { 0 < ledger.parts }
{
    let mut steps = Steps::<L>::new(ledger);
    look_twice(&mut steps);
}

#[test]
fn looks_are_counted(rt: HostRuntime) {
    look_on::<Brand>(Blank::new(1));
    let size = size_of::<Steps<Brand>>();
    holds_at(&rt, size == 0, size, 0);
}
