//! The flow of the tests, its parameters, and how a row is asserted.
use dt_units::{Flow, NodeId, Params, Rules};
use std::process::Abort;

pub const STANDARD: Params = Params {
    mpl: 1000,
    r: 3000,
    a: 200,
    rto: 500,
    probe: 800,
    seg: 100,
    cap: 4096,
    rcap: 4096,
    window: 512,
    run_limit: 2_147_483_648,
    start: 0,
};

/// From port 10 of node 1 to port 20 of node 2.
pub const FLOW: Flow = Flow {
    from: NodeId(1),
    from_port: 10,
    to: NodeId(2),
    to_port: 20,
};

/// These parameters, which are in their ranges.
pub fn rules(rt: &impl Abort, params: &Params) -> Rules {
    params.check().expect(rt, "the parameters are refused")
}

/// What a row says holds, which is named by its moment or its number.
pub fn holds(rt: &impl Abort, is: bool, row: u64) {
    assert!(rt; is, "at {row}");
}
