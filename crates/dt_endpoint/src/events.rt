//! One event of an endpoint's station, collected.
ghost use Rattle.std.specs.Prelude.{◌≡◌, OnOk, false, length};
ghost use Rattle.dt_layout.specs.Carried.{IsGram};
ghost use Rattle.dt_station.specs.Events.{MayHappenHere, local_seen};
ghost use Rattle.dt_station.specs.Stations.{Stays};
ghost use Rattle.dt_world_model.specs.Station.{Arrive, station_event};
ghost use Rattle.dt_endpoint.specs.Acts.{plain};
ghost use Rattle.dt_endpoint.specs.Collecting.{CollectEnds, begun};
ghost use Rattle.dt_endpoint.specs.Endpoints.{GoesOn, MayGo};
ghost use Rattle.dt_world_laws.specs.Counting.{octets_sent};

use crate::collectors::Collector;
use dt_flow_model::Reading;
use dt_items::NoMemory;
use dt_layout::Frame;
use dt_station::{LocalEvent, Station};

/// One event that brings no packet, which is collected. After `NoMemory` a first part of it was.
pub fn collect_event(
    station: &mut Station<Frame>,
    collector: &mut Collector,
    now: u64,
    event: LocalEvent<'_>,
    buf: &mut [u8],
) -> Result<(), NoMemory>
    requires may { MayHappenHere station.old.rules now station.old.state (length buf.old) event }
    requires go { MayGo now station.old }
    requires fine { collector.old.failed ≡ false }
    ensures ends { let script = station_event station.old.rules now (local_seen (length buf.old) event.entry) station.old.state in
        CollectEnds result script (begun collector.old) collector.new station.new.state }
    ensures on { OnOk result (GoesOn now (octets_sent (local_seen (length buf.old) event.entry)) station.old station.new) }
    ensures stays { Stays (record station.old { latest = now }) station.new }
    ensures ins { station.new.state.relay.ins ≡ station.old.state.relay.ins }
{
    collector.begin();
    let now = Reading { ms: now };
    let done = station.local_event(now, event, buf, collector);
    if collector.failed() {
        return Err(NoMemory);
    }
    done
}

/// The same for a packet that comes on a link, whose octets are in the frame. They must read as a
/// Deltagram, and are the station's to change.
pub fn receive(
    station: &mut Station<Frame>,
    collector: &mut Collector,
    now: u64,
    link: u16,
    frame: &mut Frame,
) -> Result<(), NoMemory>
    requires gram { IsGram frame.old }
    requires go { MayGo now station.old }
    requires fine { collector.old.failed ≡ false }
    ensures ends { let script = station_event station.old.rules now (Arrive link (plain frame.old)) station.old.state in
        CollectEnds result script (begun collector.old) collector.new station.new.state }
    ensures on { OnOk result (GoesOn now 0 station.old station.new) }
    ensures stays { Stays (record station.old { latest = now }) station.new }
    ensures ins { station.new.state.relay.ins ≡ station.old.state.relay.ins }
{
    collector.begin();
    let now = Reading { ms: now };
    let done = station.arrive(now, link, frame, (), collector);
    if collector.failed() {
        return Err(NoMemory);
    }
    done
}
