//! Endpoints of two nodes.
use dt_endpoint::{Endpoint, InLink, Links, OutLink, Route};
use dt_items::NoMemory;
use dt_units::{Flow, NodeId, Params};
use std::alloc::Global;
use std::process::Abort;

pub const STANDARD: Params = Params {
    mpl: 1000,
    r: 3000,
    a: 200,
    rto: 500,
    probe: 800,
    seg: 100,
    cap: 4096,
    rcap: 4096,
    window: 4096,
    run_limit: 2_147_483_648,
    start: 0,
};

/// From port 10 of node 1 to port 20 of node 2.
pub const FLOW: Flow = Flow {
    from: NodeId(1),
    from_port: 10,
    to: NodeId(2),
    to_port: 20,
};

/// From node 2 to node 1.
pub const BACK: Flow = Flow {
    from: NodeId(2),
    from_port: 1,
    to: NodeId(1),
    to_port: 1,
};

const OUTS: [OutLink; 1] = [OutLink { link: 5, pace: 0 }];

const INS: [InLink; 1] = [InLink {
    link: 7,
    charge: 50,
}];

/// The endpoint of node 1 or 2, which begins for the first time, or again at a moment, with a route to the
/// other.
pub fn open(
    rt: &impl Abort,
    alloc: Global,
    me: u32,
    again: Option<u64>,
) -> Result<Endpoint, NoMemory> {
    let rules = STANDARD.check().expect(rt, "the parameters are refused");
    let routes = [Route {
        to: 3 - me.min(2),
        link: 5,
    }];
    let links = Links {
        outs: &OUTS,
        ins: &INS,
        routes: &routes,
    };
    Endpoint::open(alloc, &rules, NodeId(me), again, &links)
}

/// What a row says holds.
pub fn holds(rt: &impl Abort, is: bool, place: usize) {
    assert!(rt; is, "row {place}");
}
