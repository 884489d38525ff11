//! Want of memory spends a station.
ghost use Rattle.std.specs.Prelude.{◌≡◌};

use crate::audience::Audience;
use crate::fixtures::{INS, ROUTES, rendezvous, rules};
use dt_items::NoMemory;
use dt_layout::Frame;
use dt_station::{OutLink, Station, StationEvent};
use dt_units::NodeId;
use std::alloc::Global;
use std::process::Abort;

/// Whether a packet comes to a station that isn't spent, and is passed on.
fn passes(rt: &impl Abort, station: &mut Station<Frame>, audience: &mut Audience<'_>) -> bool
    requires past { station.old.latest ≡ 0 }
    ensures latest { station.new.latest ≡ 0 }
{
    if station.is_spent() {
        return false;
    }
    let packet = rendezvous(rt, 5000, 2);
    let event = StationEvent::Arrive { link: 7, packet };
    station.event(0, event, &mut [], audience).is_ok()
}

/// A visitor that has memory for so many packets, none, one or two, ends the event of the next there, and
/// the station is spent.
fn is_spent_behind(rt: &impl Abort, station: &mut Station<Frame>, memory: usize)
    requires { station.old.latest ≡ 0 }
{
    let mut audience = Audience::new(&[], memory);
    for number in 0..3usize {
        let passed = passes(rt, station, &mut audience);
        assert!(rt; passed == (number < memory));
    }
    assert!(rt; station.is_spent());
}

static OUTS: [OutLink; 1] = [OutLink { link: 5, pace: 0 }];

fn spends(rt: &impl Abort, alloc: Global, memory: usize) -> Result<(), NoMemory> {
    let mut station = Station::<Frame>::new(
        alloc,
        &rules(rt),
        NodeId(9),
        None,
        &OUTS,
        &INS,
        &ROUTES,
    )?;
    is_spent_behind(rt, &mut station, memory);
    Ok(())
}

#[test]
fn want_of_memory_spends_the_station(rt: HostRuntime) -> Result<(), NoMemory> {
    for memory in 0..3usize {
        spends(&rt, rt.alloc(), memory)?;
    }
    Ok(())
}
