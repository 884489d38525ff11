//! Runs of a station.
ghost use Rattle.std.specs.Prelude.{◌≡◌, ◌≤◌, ◌^◌, false, OnOk};
ghost use Rattle.dt_layout.specs.Carried.{IsGram};
ghost use Rattle.dt_station.specs.Events.{MaySend};

use crate::audience::Seen;
use crate::event_rows::{
    ACKNOWLEDGED, FLUSHED, GOING_NOWHERE, HELLO, NOT_READ, NOTHING_READ, Row, SENT, Step,
};
use crate::fixtures::{FLOW, INS, OUTS, ROUTES, arrive, framed, play, rendezvous, rules, station};
use crate::hosts::holds;
use dt_items::NoMemory;
use dt_layout::Frame;
use dt_station::{Station, StationEvent};
use dt_units::NodeId;
use std::alloc::Global;
use std::process::Abort;

/// The first octets of `hello` with another octet at a place, as a frame.
fn changed(rt: &impl Abort, place: usize, octet: u8, len: usize) -> Frame
    ensures { IsGram result }
{
    let mut octets = HELLO;
    if place < 35 {
        octets[place] = octet;
    }
    framed(rt, octets.get(..len).unwrap_or(&[]))
}

/// A step is done, and what is wanted is seen of it.
fn happens(
    rt: &impl Abort,
    station: &mut Station<Frame>,
    now: u64,
    step: &Step,
    wanted: &[Seen],
) -> Result<(), NoMemory>
    requires unspent { station.old.spent ≡ false }
    requires past { station.old.latest ≤ now }
    requires moment { now ≤ 2 ^ 62 }
    ensures unspent { OnOk result (station.new.spent ≡ false) }
    ensures latest { OnOk result (station.new.latest ≤ now) }
{
    match step {
        Step::Meets(life, to) => arrive(rt, station, now, rendezvous(rt, *life, *to), wanted),
        Step::Hello => arrive(rt, station, now, framed(rt, &HELLO), wanted),
        Step::Changed(place, octet, len) => {
            arrive(rt, station, now, changed(rt, *place, *octet, *len), wanted)
        }
        Step::Ticks => play(rt, station, now, StationEvent::Tick, wanted),
        Step::Wakes(wake) => {
            holds(rt, station.wake() == *wake, now);
            Ok(())
        }
    }
}

fn runs(rt: &impl Abort, station: &mut Station<Frame>, rows: &[Row]) -> Result<(), NoMemory>
    requires unspent { station.old.spent ≡ false }
    requires past { station.old.latest ≡ 0 }
{
    let mut latest = 0;
    for (now, step, wanted) in rows {
        holds(rt, latest <= *now && *now <= 1 << 62, *now);
        latest = *now;
        happens(rt, station, latest, step, wanted)?;
    }
    Ok(())
}

/// The rows on a station of that node which starts for the first time.
fn runs_at(rt: &impl Abort, alloc: Global, me: u32, rows: &[Row]) -> Result<(), NoMemory> {
    let mut station = station(rt, alloc, me)?;
    runs(rt, &mut station, rows)
}

#[test]
fn links_are_flushed_in_their_order(rt: HostRuntime) -> Result<(), NoMemory> {
    runs_at(&rt, rt.alloc(), 9, &FLUSHED)
}

#[test]
fn packets_that_go_nowhere_are_told(rt: HostRuntime) -> Result<(), NoMemory> {
    runs_at(&rt, rt.alloc(), 9, &GOING_NOWHERE)
}

#[test]
fn data_is_acknowledged(rt: HostRuntime) -> Result<(), NoMemory> {
    runs_at(&rt, rt.alloc(), 2, &ACKNOWLEDGED)
}

#[test]
fn octets_that_do_not_read_are_told(rt: HostRuntime) -> Result<(), NoMemory> {
    runs_at(&rt, rt.alloc(), 2, &NOT_READ)
}

/// Octets that are sent go out at once.
fn sends(rt: &impl Abort, station: &mut Station<Frame>) -> Result<(), NoMemory>
    requires unspent { station.old.spent ≡ false }
    requires past { station.old.latest ≡ 0 }
    requires may { MaySend station.old.rules 0 station.old.state FLOW 5 }
    ensures unspent { OnOk result (station.new.spent ≡ false) }
    ensures latest { OnOk result (station.new.latest ≡ 0) }
{
    let event = StationEvent::Send {
        flow: FLOW,
        octets: b"hello",
        begin: true,
        end: true,
    };
    play(rt, station, 0, event, &SENT)
}

/// Octets are sent, and there is nothing to read.
fn sends_and_reads(rt: &impl Abort, station: &mut Station<Frame>) -> Result<(), NoMemory>
    requires unspent { station.old.spent ≡ false }
    requires past { station.old.latest ≡ 0 }
    requires may { MaySend station.old.rules 0 station.old.state FLOW 5 }
{
    sends(rt, station)?;
    let read = StationEvent::Read { flow: FLOW };
    play(rt, station, 0, read, &NOTHING_READ)
}

#[test]
fn octets_are_sent_and_read(rt: HostRuntime) -> Result<(), NoMemory> {
    let rules = rules(&rt);
    let mut station = Station::<Frame>::new(
        rt.alloc(),
        &rules,
        NodeId(1),
        None,
        &OUTS,
        &INS,
        &ROUTES,
    )?;
    sends_and_reads(&rt, &mut station)
}
