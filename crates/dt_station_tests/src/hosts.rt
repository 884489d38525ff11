//! A host that is opened, its flows and its acts, as the tests speak of them.
ghost use Rattle.std.specs.Prelude.{◌≡◌, ◌+◌, ◌<◌, ◌≤◌, IfOk, length, true};
ghost use Rattle.dt_flow_model.specs.Keeping.{most_moment};
ghost use Rattle.dt_world_model.specs.Host.{IsCurrentHost};

use dt_flow_model::{Cut, SendAct};
use dt_host::{Act, Done, Host, SendFault};
use dt_items::NoMemory;
use dt_layout::Frame;
use dt_units::{Flow, NodeId, Params, Steps};
use std::alloc::Global;
use std::process::Abort;
use std::sync::ledger::Ledger;

/// A segment goes out again every 500 ms for 3,000 ms.
pub const STANDARD: Params = Params {
    mpl: 1000,
    r: 3000,
    a: 200,
    rto: 500,
    probe: 800,
    seg: 100,
    cap: 4096,
    rcap: 4096,
    window: 1,
    run_limit: 2_147_483_648,
    start: 0,
};

pub const ME: NodeId = NodeId(1);

/// From a port of node 1 to port 20 of node 2.
pub fn out(from_port: u16) -> Flow
    ensures from { result.from.0 ≡ 1 }
    ensures to { result.to.0 ≡ 2 }
{
    Flow {
        from: ME,
        from_port,
        to: NodeId(2),
        to_port: 20,
    }
}

/// The first octet of a flow, alone in its segment.
pub fn first_octet() -> Cut {
    Cut {
        number: 0,
        length: 1,
        drf: true,
        begin: true,
        end: true,
    }
}

pub fn sends(flow: Flow, act: SendAct) -> Done {
    Done {
        flow,
        act: Act::Send(act),
    }
}

/// The host of node 1 with these parameters, which are in their ranges.
pub fn host_with(rt: &impl Abort, alloc: Global, params: &Params) -> Result<Host, NoMemory>
    ensures rules { IfOk result (λ host. host.rules ≡ params.now) }
    ensures me { IfOk result (λ host. host.state.me ≡ 1) }
    ensures latest { IfOk result (λ host. host.latest ≡ 0) }
{
    let rules = params.check().expect(rt, "the parameters are refused");
    Host::first(alloc, &rules, ME)
}

/// What has to be so at `now` is so.
pub fn holds(rt: &impl Abort, is: bool, now: u64)
    ensures { is ≡ true }
{
    assert!(rt; is, "at {now}");
}

/// What is answered where octets are sent as a message on a flow of node 1, if that has no sender.
pub fn offered<L: Ledger>(
    host: &mut Host,
    from_port: u16,
    octets: &[u8],
    now: u64,
    steps: &mut Steps<L>,
) -> Option<Result<(), SendFault>>
    requires node { host.old.state.me ≡ 1 }
    requires some { 1 ≤ length octets.now }
    requires few { length octets.now ≤ 8192 }
    requires moment { now ≤ most_moment }
    requires past { host.old.latest ≤ now }
    requires current { IsCurrentHost host.old.rules now host.old.state }
    ensures rules { host.new.rules ≡ host.old.rules }
    ensures me { host.new.state.me ≡ host.old.state.me }
    ensures latest { host.new.latest ≤ now }
    ensures looks { steps.new ≤ steps.old + 4 }
{
    let flow = out(from_port);
    match host.next_number(&flow) {
        Some(_) => None,
        None => Some(host.send(&flow, octets, true, true, now, steps)),
    }
}

/// No act is due at `now`. Before `r` no resend can have been missed, and then no record is looked at.
pub fn rests<L: Ledger>(
    rt: &impl Abort,
    host: &mut Host,
    now: u64,
    frame: &mut Frame,
    steps: &mut Steps<L>,
)
    requires moment { now ≤ most_moment }
    requires past { host.old.latest ≤ now }
    ensures same { host.new ≡ record host.old { latest = now } }
    ensures current { IsCurrentHost host.new.rules now host.new.state }
    ensures looks { now < host.old.rules.r → steps.new ≤ steps.old }
{
    let done = host.next(now, frame, steps);
    holds(rt, done.is_none(), now);
}

/// One act is due at `now`, and then none. Before `r` that takes 4 looks at records at most.
pub fn acts<L: Ledger>(
    rt: &impl Abort,
    host: &mut Host,
    now: u64,
    act: Done,
    frame: &mut Frame,
    steps: &mut Steps<L>,
)
    requires moment { now ≤ most_moment }
    requires past { host.old.latest ≤ now }
    ensures rules { host.new.rules ≡ host.old.rules }
    ensures me { host.new.state.me ≡ host.old.state.me }
    ensures latest { host.new.latest ≡ now }
    ensures current { IsCurrentHost host.new.rules now host.new.state }
    ensures looks { now < host.old.rules.r → steps.new ≤ steps.old + 4 }
{
    let done = host.next(now, frame, steps);
    holds(rt, done == Some(act), now);
    rests(rt, host, now, frame, steps);
}
