//! Tests of a host with 1,000 and with 20,000 senders: how many records it looks at to find each resend.
ghost use Rattle.std.specs.Prelude.{◌≡◌, ◌+◌, ◌<◌, ◌≤◌, IfOk};
ghost use Rattle.dt_flow_model.specs.Keeping.{most_moment};

use crate::hosts::{STANDARD, acts, first_octet, holds, host_with, offered, out, rests, sends};
use dt_flow_model::SendAct;
use dt_host::Host;
use dt_items::NoMemory;
use dt_layout::Frame;
use dt_units::{Params, Steps};
use std::alloc::Global;
use std::marker::Brand;
use std::process::Abort;
use std::sync::ledger::{Blank, Ledger};

/// A flow holds one octet, which goes out again every 20,000 ms for a day.
const LARGE: Params = Params {
    mpl: 1000,
    r: 86_400_000,
    a: 200,
    rto: 20_000,
    probe: 800,
    seg: 1,
    cap: 1,
    rcap: 1,
    window: 1,
    run_limit: 2_147_483_648,
    start: 0,
};

/// An octet is sent at `now` on a flow that has no sender, and goes out at once. Before `r` that takes
/// 8 looks at records at most.
fn begins<L: Ledger>(
    rt: &impl Abort,
    host: &mut Host,
    from_port: u16,
    now: u64,
    frame: &mut Frame,
    steps: &mut Steps<L>,
)
    requires node { host.old.state.me ≡ 1 }
    requires moment { now ≤ most_moment }
    requires past { host.old.latest ≤ now }
    ensures rules { host.new.rules ≡ host.old.rules }
    ensures me { host.new.state.me ≡ host.old.state.me }
    ensures latest { host.new.latest ≡ now }
    ensures looks { now < host.old.rules.r → steps.new ≤ steps.old + 8 }
{
    rests(rt, host, now, frame, steps);
    let is = matches!(offered(host, from_port, b"A", now, steps), Some(Ok(())));
    holds(rt, is, now);
    let act = SendAct::Sent(first_octet());
    acts(rt, host, now, sends(out(from_port), act), frame, steps);
}

/// A thousand senders, each with an octet that went out at 0.
fn thousand_senders<L: Ledger>(
    rt: &impl Abort,
    alloc: Global,
    steps: &mut Steps<L>,
) -> Result<Host, NoMemory>
    ensures rules { IfOk result (λ host. host.rules ≡ STANDARD) }
    ensures latest { IfOk result (λ host. host.latest ≡ 0) }
    ensures looks { steps.new ≤ steps.old + 8000 }
{
    let mut host = host_with(rt, alloc, &STANDARD)?;
    let mut frame = Frame::new();
    for port in 0..1000u16 {
        begins(rt, &mut host, port, 0, &mut frame, steps);
    }
    Ok(host)
}

/// Their resends are due at 500: at 499 no act is found, and no record is looked at.
fn rests_before_resends<L: Ledger>(rt: &impl Abort, host: &mut Host, steps: &mut Steps<L>)
    requires rules { host.old.rules ≡ STANDARD }
    requires latest { host.old.latest ≡ 0 }
    ensures looks { steps.new ≤ steps.old }
{
    let mut frame = Frame::new();
    rests(rt, host, 499, &mut frame, steps);
    assert!(rt; host.wake() == Some(500));
}

fn thousand_on<L: Ledger>(rt: &impl Abort, alloc: Global, ledger: Blank) -> Result<(), NoMemory>
    requires name { ledger.name ≡ L.name }
    requires parts { ledger.parts ≡ L.parts }
    requires some { 0 < ledger.parts }
{
    let mut steps = Steps::<L>::new(ledger);
    let mut host = thousand_senders(rt, alloc, &mut steps)?;
    rests_before_resends(rt, &mut host, &mut steps);
    drop(host);
    Ok(())
}

#[test]
fn no_record_is_looked_at_before_its_resend(rt: HostRuntime) -> Result<(), NoMemory> {
    thousand_on::<Brand>(&rt, rt.alloc(), Blank::new(1))
}

/// 20,000 senders, of which one is made each millisecond and sends its octet.
fn senders_begin<L: Ledger>(rt: &impl Abort, host: &mut Host, steps: &mut Steps<L>)
    requires rules { host.old.rules ≡ LARGE }
    requires node { host.old.state.me ≡ 1 }
    requires latest { host.old.latest ≡ 0 }
    ensures rules { host.new.rules ≡ LARGE }
    ensures latest { host.new.latest ≤ 19999 }
    ensures looks { steps.new ≤ steps.old + 160000 }
{
    let mut frame = Frame::new();
    for port in 0..20_000u16 {
        begins(rt, host, port, u64::from(port), &mut frame, steps);
    }
}

/// Each octet goes out again every 20,000 ms, a hundred times: two million acts, of which each is one
/// millisecond after the one before.
fn octets_go_again<L: Ledger>(rt: &impl Abort, host: &mut Host, steps: &mut Steps<L>)
    requires rules { host.old.rules ≡ LARGE }
    requires latest { host.old.latest ≤ 19999 }
    ensures looks { steps.new ≤ steps.old + 8000000 }
{
    let mut frame = Frame::new();
    let act = SendAct::Resent(first_octet());
    for now in 20_000..2_020_000u64 {
        let flow = out((now % 20_000) as u16);
        acts(rt, host, now, sends(flow, act), &mut frame, steps);
    }
}

/// Two million resends of 20,000 senders, which take no more than 8,160,000 looks at records with all
/// that goes before.
fn many_resends<L: Ledger>(
    rt: &impl Abort,
    alloc: Global,
    steps: &mut Steps<L>,
) -> Result<(), NoMemory>
    ensures looks { steps.new ≤ steps.old + 8160000 }
{
    let mut host = host_with(rt, alloc, &LARGE)?;
    senders_begin(rt, &mut host, steps);
    octets_go_again(rt, &mut host, steps);
    drop(host);
    Ok(())
}

fn many_on<L: Ledger>(rt: &impl Abort, alloc: Global, ledger: Blank) -> Result<(), NoMemory>
    requires name { ledger.name ≡ L.name }
    requires parts { ledger.parts ≡ L.parts }
    requires some { 0 < ledger.parts }
{
    many_resends(rt, alloc, &mut Steps::<L>::new(ledger))
}

#[test]
fn each_resend_is_found_among_many_senders(rt: HostRuntime) -> Result<(), NoMemory> {
    many_on::<Brand>(&rt, rt.alloc(), Blank::new(1))
}
