//! A node that learns of another while it lives.
use crate::calls::{Call, answers};
use dt_endpoint::{Routed, Sent, Ticked};
use dt_units::{Flow, NodeId};

/// From node 1 to node 3, to which no route leads first.
const FAR: Flow = Flow {
    from: NodeId(1),
    from_port: 10,
    to: NodeId(3),
    to_port: 20,
};

/// Octets are taken, for which no frame leaves. They go again at 500 ms, when a route leads to node 3.
static LATE_ROUTE: [(u64, Call); 9] = [
    (0, Call::Send(FAR, b"a", true, true, Sent::Done)),
    (0, Call::NoFrame),
    (0, Call::HasRoute(3, false)),
    (0, Call::AddRoute(3, 6, Routed::NoLink)),
    (0, Call::AddRoute(2, 5, Routed::Known)),
    (0, Call::AddRoute(3, 5, Routed::Done)),
    (0, Call::HasRoute(3, true)),
    (500, Call::Tick(Ticked::Done)),
    (500, Call::NextFrame(3, 5)),
];

#[test]
fn route_that_is_added_leads(rt: HostRuntime) {
    answers(&rt, rt.alloc(), 1, None, &LATE_ROUTE);
}
