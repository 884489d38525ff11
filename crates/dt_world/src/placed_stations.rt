//! The stations of the world, and an event at one.
ghost use Rattle.std.specs.Prelude.{◌≡◌, ◌+◌, ◌^◌, ◌<◌, ◌≤◌, IfOk, OnErr, OnOk, false};
ghost use Rattle.dt_world_model.specs.Relay.{emptied, new_relay};
ghost use Rattle.dt_world_model.specs.Host.{first_host, restarted_host};
ghost use Rattle.dt_world_model.specs.Station.{station_event, station_with};
ghost use Rattle.dt_station.specs.Stations.{Stays, is_spent_by};
ghost use Rattle.dt_notes.specs.Occasions.{occasion_seen};
ghost use Rattle.dt_world.specs.PlacedEvents.{MayCome, event_seen};
ghost use Rattle.dt_world.specs.Steps.{Happened, Played, noted_first};
ghost use Rattle.dt_world.specs.Reporters.{Ends, occasion_of};

use crate::placed_events::PlacedEvent;
use crate::readings::read_clock;
use crate::reporters::Reporter;
use dt_flow_model::Reading;
use dt_items::{MarkedOctets, NoMemory};
use dt_notes::{EventContext, Lines, MarkedFrame, Moment, Notes};
use dt_station::{InLink, LocalEvent, OutLink, Route, Station};
use dt_units::{NodeId, Rules};
use std::alloc::Global;
use std::mem::size_of;

/// A station of the world. Its clock is ahead of the world's moment by `zero` ms.
#[derive(Drop)]
pub struct PlacedStation {
    pub zero: u32,
    /// How often it started again.
    pub life: u32,
    pub plan: Plan,
    pub station: Station<MarkedFrame>,
}

// It is moved when it is made and when it starts again.
const _: () = prove!(size_of::<PlacedStation>() <= 512);

/// A station's links and routes, in the order of the setup.
#[derive(Drop)]
pub struct Plan {
    pub outs: Vec<OutLink>,
    pub ins: Vec<InLink>,
    pub routes: Vec<Route>,
}

/// An event at a station's reading, seen by a reporter.
fn take_part<L: Lines>(
    station: &mut Station<MarkedFrame>,
    now: Reading,
    event: &mut PlacedEvent<'_>,
    reporter: &mut Reporter<'_, '_, L>,
) -> Result<(), NoMemory>
    requires unspent { station.old.spent ≡ false }
    requires may { MayCome station.old.rules now.ms station.old.state event.old }
    requires past { station.old.latest ≤ now.ms }
    ensures script { Ends L.tells result (station_event station.old.rules now.ms (event_seen event.old) station.old.state) reporter.old reporter.new station.new.state }
    ensures spent { station.new.spent ≡ is_spent_by result }
    ensures stays { Stays (record station.old { latest = now.ms }) station.new }
{
    match event {
        PlacedEvent::Send {
            flow,
            octets,
            begin,
            end,
        } => {
            let sent = MarkedOctets {
                octets,
                begin: *begin,
                end: *end,
            };
            station.local_event(
                now,
                LocalEvent::Send { flow: *flow, sent },
                &mut [],
                reporter,
            )
        }
        PlacedEvent::Read { flow, buf } => {
            station.local_event(now, LocalEvent::Read { flow: *flow }, buf, reporter)
        }
        PlacedEvent::Tick => station.local_event(now, LocalEvent::Tick, &mut [], reporter),
        PlacedEvent::Arrive { link, frame, mark } => {
            station.arrive(now, *link, frame, *mark, reporter)
        }
    }
}

/// An event at a station's reading, seen by a reporter that hasn't failed. `NoMemory` comes also where the
/// reporter has failed.
pub fn play<L: Lines>(
    station: &mut Station<MarkedFrame>,
    now: Reading,
    event: &mut PlacedEvent<'_>,
    reporter: &mut Reporter<'_, '_, L>,
) -> Result<(), NoMemory>
    requires fresh { reporter.old.failed ≡ false }
    requires unspent { station.old.spent ≡ false }
    requires may { MayCome station.old.rules now.ms station.old.state event.old }
    requires past { station.old.latest ≤ now.ms }
    ensures notes { reporter.new.notes.ghost_name ≡ reporter.old.notes.ghost_name }
    ensures lines { reporter.new.lines.ghost_name ≡ reporter.old.lines.ghost_name }
    ensures played { let script = station_event station.old.rules now.ms (event_seen event.old) station.old.state in
        Played L.tells result (occasion_of reporter.old) script (noted_first reporter.old) reporter.old.lines.now reporter.new station.new.state }
    ensures spent { OnOk result (station.new.spent ≡ false) }
    ensures relay { OnOk result (emptied station.new.state.relay ≡ emptied station.old.state.relay) }
    ensures stays { Stays (record station.old { latest = now.ms }) station.new }
{
    take_part(station, now, event, reporter)?;
    if reporter.failed {
        return Err(NoMemory);
    }
    Ok(())
}

/// An event at a station of the world, which isn't spent.
pub fn deliver_to_station<'a, 'o, L: Lines>(
    placed: &mut PlacedStation,
    event: &mut PlacedEvent<'_>,
    context: EventContext<'o>,
    notes: &'a mut Notes,
    lines: &'a mut L,
) -> Result<(), NoMemory>
    requires unspent { placed.old.station.spent ≡ false }
    requires may { MayCome placed.old.station.rules (context.now + placed.old.zero) placed.old.station.state event.old }
    requires past { placed.old.station.latest ≤ context.now + placed.old.zero }
    ensures happened { let script = station_event placed.old.station.rules (context.entry.now + placed.old.zero) (event_seen event.old) placed.old.station.state in
        Happened L.tells result (occasion_seen context.entry) script notes.old lines.old notes.new lines.new placed.new.station.state }
    ensures zero { placed.new.zero ≡ placed.old.zero }
    ensures life { placed.new.life ≡ placed.old.life }
    ensures plan { placed.new.plan ≡ placed.old.plan }
    ensures relay { OnOk result (emptied placed.new.station.state.relay ≡ emptied placed.old.station.state.relay) }
    ensures rules { placed.new.station.rules ≡ placed.old.station.rules }
    ensures latest { placed.new.station.latest ≡ context.entry.now + placed.old.zero }
    ensures spent { OnOk result (placed.new.station.spent ≡ false) }
{
    let now = Moment { ms: context.now };
    let reading = read_clock(now, placed.zero);
    let mut reporter = Reporter {
        notes,
        lines,
        context,
        failed: false,
    };
    play(&mut placed.station, reading, event, &mut reporter)
}

/// A station of these links and routes that starts for the first time.
pub fn start_first(
    alloc: Global,
    rules: &Rules,
    node: u32,
    plan: &Plan,
) -> Result<Station<MarkedFrame>, NoMemory>
    ensures station { let relay = new_relay plan.now.outs.items plan.now.ins.items plan.now.routes.items in
        IfOk result (λ s. s.state ≡ station_with (first_host node) relay) }
    ensures rules { IfOk result (λ s. s.rules ≡ rules.now) }
    ensures unspent { IfOk result (λ s. s.spent ≡ false) }
    ensures latest { IfOk result (λ s. s.latest ≡ 0) }
{
    Station::new(
        alloc,
        rules,
        NodeId(node),
        None,
        &plan.outs,
        &plan.ins,
        &plan.routes,
    )
}

/// The station starts again, with its links and routes and nothing else, and is silent for a while.
/// `NoMemory` leaves it as it was; it comes also where the life number is at its end.
pub fn start_again(
    alloc: Global,
    placed: &mut PlacedStation,
    rules: &Rules,
    node: u32,
    now: Moment,
) -> Result<(), NoMemory>
    ensures station { let relay = new_relay placed.old.plan.outs.items placed.old.plan.ins.items placed.old.plan.routes.items in
        OnOk result (placed.new.station.state ≡ station_with (restarted_host rules.now node (now.ms + placed.old.zero)) relay) }
    ensures err { OnErr result (placed.new ≡ placed.old) }
    ensures within { OnOk result (placed.old.life + 1 < 2 ^ 32) }
    ensures life { OnOk result (placed.new.life ≡ placed.old.life + 1) }
    ensures rules { OnOk result (placed.new.station.rules ≡ rules.now) }
    ensures unspent { OnOk result (placed.new.station.spent ≡ false) }
    ensures latest { OnOk result (placed.new.station.latest ≡ now.ms + placed.old.zero) }
    ensures zero { placed.new.zero ≡ placed.old.zero }
    ensures plan { placed.new.plan ≡ placed.old.plan }
{
    if placed.life == u32::MAX {
        return Err(NoMemory);
    }
    let reading = read_clock(now, placed.zero);
    let plan = &placed.plan;
    let again = Some(reading.ms);
    let station = Station::new(
        alloc,
        rules,
        NodeId(node),
        again,
        &plan.outs,
        &plan.ins,
        &plan.routes,
    )?;
    placed.station = station;
    placed.life += 1;
    Ok(())
}
