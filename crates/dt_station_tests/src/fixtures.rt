//! Stations and frames, and an event that is reported as wanted.
ghost use Rattle.std.specs.Prelude.{◌≡◌, ◌≤◌, ◌^◌, false, IfOk, OnOk};
ghost use Rattle.dt_layout.specs.Carried.{IsGram};
ghost use Rattle.dt_station.specs.Events.{MayHappen};

use crate::audience::{Audience, Seen};
use crate::hosts::holds;
use dt_items::NoMemory;
use dt_layout::{Frame, Packet, read_deltagram, write_frame};
use dt_station::{InLink, OutLink, Route, Station, StationEvent};
use dt_units::{Flow, NodeId, Params, Rules};
use std::alloc::Global;
use std::process::Abort;

const STANDARD: Params = Params {
    mpl: 1000,
    r: 3000,
    a: 200,
    rto: 500,
    probe: 800,
    seg: 100,
    cap: 4096,
    rcap: 4096,
    window: 4096,
    run_limit: 2_147_483_648,
    start: 0,
};

/// From port 10 of node 1 to port 20 of node 2.
pub const FLOW: Flow = Flow {
    from: NodeId(1),
    from_port: 10,
    to: NodeId(2),
    to_port: 20,
};

/// To node 2 on link 5, to node 3 on link 1; the links stand in this order.
pub static OUTS: [OutLink; 2] = [
    OutLink {
        link: 5,
        pace: 1000,
    },
    OutLink {
        link: 1,
        pace: 1000,
    },
];

pub static INS: [InLink; 1] = [InLink {
    link: 7,
    charge: 50,
}];

pub static ROUTES: [Route; 2] = [Route { to: 2, link: 5 }, Route { to: 3, link: 1 }];

pub fn rules(rt: &impl Abort) -> Rules {
    STANDARD.check().expect(rt, "the parameters are refused")
}

/// A station of that node which starts for the first time.
pub fn station(rt: &impl Abort, alloc: Global, me: u32) -> Result<Station<Frame>, NoMemory>
    ensures unspent { IfOk result (λ station. station.spent ≡ false) }
    ensures latest { IfOk result (λ station. station.latest ≡ 0) }
{
    Station::new(alloc, &rules(rt), NodeId(me), None, &OUTS, &INS, &ROUTES)
}

/// A rendezvous from node 1 to this node.
pub fn rendezvous(rt: &impl Abort, life: u32, to: u32) -> Frame
    ensures { IsGram result }
{
    let mut frame = Frame::new();
    let meet = Packet::Meet {
        from_port: 10,
        to_port: 20,
        number: 7,
    };
    assert!(rt; life > 0);
    write_frame(&mut frame, life, 1, to, &meet);
    frame
}

/// A frame of octets, which read as a Deltagram.
pub fn framed(rt: &impl Abort, octets: &[u8]) -> Frame
    ensures { IsGram result }
{
    let frame = Frame::from_bytes(octets).expect(rt, "the octets are too many for a frame");
    assert!(rt; read_deltagram(frame.as_slice()).is_ok());
    frame
}

/// The event is reported as wanted, and nothing else is.
pub fn play(
    rt: &impl Abort,
    station: &mut Station<Frame>,
    now: u64,
    event: StationEvent<'_, Frame>,
    wanted: &[Seen],
) -> Result<(), NoMemory>
    requires unspent { station.old.spent ≡ false }
    requires past { station.old.latest ≤ now }
    requires moment { now ≤ 2 ^ 62 }
    requires event { MayHappen (λ frame. frame) station.old.rules now station.old.state 64 event }
    ensures unspent { OnOk result (station.new.spent ≡ false) }
    ensures latest { OnOk result (station.new.latest ≡ now) }
{
    let mut audience = Audience::new(wanted, 1000);
    let mut buf = [0; 64];
    let result = station.event(now, event, &mut buf, &mut audience);
    holds(rt, result.is_err() || audience.is_content(), now);
    result
}

/// A packet comes on link 7.
pub fn arrive(
    rt: &impl Abort,
    station: &mut Station<Frame>,
    now: u64,
    packet: Frame,
    wanted: &[Seen],
) -> Result<(), NoMemory>
    requires gram { IsGram packet }
    requires unspent { station.old.spent ≡ false }
    requires past { station.old.latest ≤ now }
    requires moment { now ≤ 2 ^ 62 }
    ensures unspent { OnOk result (station.new.spent ≡ false) }
    ensures latest { OnOk result (station.new.latest ≡ now) }
{
    let event = StationEvent::Arrive { link: 7, packet };
    play(rt, station, now, event, wanted)
}
