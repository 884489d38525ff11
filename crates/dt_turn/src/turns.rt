//! A turn of a node.
ghost use Rattle.std.specs.Prelude.{◌≡◌, ◌*◌, ◌<◌, ◌≤◌, All, IfOk, OnErr, OnOk, false, length, true, vec_len};
ghost use Rattle.std.specs.Option.{IsSomeAnd};
ghost use Rattle.dt_flow_model.specs.SendActs.{IsBefore};
ghost use Rattle.dt_layout.specs.Reading.{gram_fault};
ghost use Rattle.dt_station.specs.Events.{MayHappenHere, local_seen};
ghost use Rattle.dt_world_model.specs.Script.{Concludes};
ghost use Rattle.dt_world_model.specs.Station.{Tick, station_event};
ghost use Rattle.dt_world_laws.specs.Counting.{HasTakenAtMost, octets_sent};
ghost use Rattle.dt_text.specs.Tasks.{most_octets, task_seen};
ghost use Rattle.dt_script.specs.Codes.{IsCommandOf, IsTaskOf, most_commands, orders_seen};
ghost use Rattle.dt_turn.specs.Codes.{GoesOn, IsReady, MayGo, MayTurn, arrival_seen, arrived, left_of, node_seen, turned};
ghost use Rattle.dt_turn.specs.Shelving.{inside};
ghost use Rattle.dt_turn.specs.Turns.{comes, do_due, event_of, finish, hand_in, turn};

use crate::arriving::arrive;
use crate::datagrams::LinkDatagram;
use crate::incoming::Incoming;
use crate::nodes::{Node, StationIo};
use dt_flow_model::Reading;
use dt_items::{MarkedOctets, NoMemory};
use dt_layout::{Frame, GramOctets};
use dt_reports::Report;
use dt_script::{Orders, has_link};
use dt_shelf::Shelf;
use dt_station::{InLink, LocalEvent, Station, Visitor};
use dt_text::Task;

/// One event of the station, before a visitor.
fn do_event<V: Visitor<Frame>>(
    station: &mut Station<Frame>,
    event: LocalEvent<'_>,
    buf: &mut [u8],
    now: u64,
    visitor: &mut V,
) -> Result<(), NoMemory>
    requires may { MayHappenHere station.old.rules now station.old.state (length buf.old) event }
    requires go { MayGo now station.old }
    ensures ends { let script = station_event station.old.rules now (local_seen (length buf.old) event.entry) station.old.state in
        Concludes V.tells (V.tags now) V.hands V.fails result script visitor.old visitor.new station.new.state }
    ensures on { OnOk result (GoesOn now (octets_sent (local_seen (length buf.old) event.entry)) station.old station.new) }
    ensures memory { OnErr result (station.new.spent ≡ true) }
{
    let now = Reading { ms: now };
    station.local_event(now, event, buf, visitor)
}

/// A datagram that came: it arrives, or gives its `bad` line.
fn comes<V: Visitor<Frame>>(
    io: &mut StationIo,
    shelf: &mut Option<Shelf>,
    arrival: LinkDatagram<'_>,
    now: u64,
    visitor: &mut V,
) -> Result<(), NoMemory>
    requires go { MayGo now io.old.station }
    ensures ends { let script = comes io.old.station.rules now (arrival_seen arrival.entry) (gram_fault arrival.entry.octets.now) io.old.station.state shelf.old in
        Concludes V.tells (V.tags now) V.hands V.fails result script visitor.old visitor.new (inside io.new.station.state shelf.new) }
    ensures on { OnOk result (GoesOn now 0 io.old.station io.new.station) }
    ensures memory { OnErr result (io.new.station.spent ≡ true) }
{
    match GramOctets::read(arrival.octets) {
        Err(fault) => {
            visitor.tell(&Report::Bad { fault });
            Ok(())
        }
        Ok(gram) => {
            let incoming = Incoming {
                link: arrival.link,
                gram,
            };
            arrive(io, shelf, incoming, now, visitor)
        }
    }
}

/// Hands in what the last turn took. A datagram on a link that no peer has counts as none.
fn hand_in<V: Visitor<Frame>>(
    node: &mut Node,
    ins: &[InLink],
    came: Option<LinkDatagram<'_>>,
    now: u64,
    visitor: &mut V,
) -> Result<(), NoMemory>
    requires ins { node.old.io.station.state.relay.ins ≡ ins.now }
    requires go { MayGo now node.old.io.station }
    ensures ends { let script = hand_in node.old.io.station.rules now (arrived came.entry) node.old.io.station.state node.old.shelf in
        Concludes V.tells (V.tags now) V.hands V.fails result script visitor.old visitor.new (inside node.new.io.station.state node.new.shelf) }
    ensures on { OnOk result (GoesOn now 0 node.old.io.station node.new.io.station) }
    ensures memory { OnErr result (node.new.io.station.spent ≡ true) }
    ensures next { node.new.next ≡ node.old.next }
    ensures room { vec_len node.new.buf ≡ vec_len node.old.buf }
{
    match came {
        Some(arrival) if has_link(arrival.link, ins) => {
            comes(&mut node.io, &mut node.shelf, arrival, now, visitor)
        }
        _ => Ok(()),
    }
}

/// Does a command, as one event. `buf` has room for 65,536 octets.
fn do_task<V: Visitor<Frame>>(
    station: &mut Station<Frame>,
    task: &Task,
    buf: &mut Vec<u8>,
    now: u64,
    visitor: &mut V,
) -> Result<(), NoMemory>
    requires can { IsTaskOf station.old.state.host.me (task_seen task.now) }
    requires few { HasTakenAtMost (most_commands * most_octets) station.old.state.host }
    requires room { vec_len buf.old ≡ most_octets }
    requires go { MayGo now station.old }
    ensures ends { let script = station_event station.old.rules now (event_of (task_seen task.now)) station.old.state in
        Concludes V.tells (V.tags now) V.hands V.fails result script visitor.old visitor.new station.new.state }
    ensures on { OnOk result (GoesOn now most_octets station.old station.new) }
    ensures memory { OnErr result (station.new.spent ≡ true) }
    ensures room { vec_len buf.new ≡ most_octets }
{
    match task {
        Task::Send {
            flow,
            begin,
            end,
            octets,
        } => {
            let sent = MarkedOctets {
                octets,
                begin: *begin,
                end: *end,
            };
            let event = LocalEvent::Send { flow: *flow, sent };
            do_event(station, event, &mut [], now, visitor)
        }
        Task::Read { flow, max } => {
            let room = *max as usize;
            let event = LocalEvent::Read { flow: *flow };
            do_event(station, event, &mut buf[..room], now, visitor)
        }
    }
}

/// Does the commands that are due, in order.
fn do_due<V: Visitor<Frame>>(
    orders: &Orders,
    node: &mut Node,
    now: u64,
    visitor: &mut V,
) -> Result<(), NoMemory>
    requires may { MayTurn orders.now now node.old }
    ensures ends { let script = do_due orders.now.setup.rules now node.old.shelf (left_of orders.now node.old.next) node.old.io.station.state in
        Concludes V.tells (V.tags now) V.hands V.fails result script visitor.old visitor.new (node_seen orders.now node.new) }
    ensures memory { OnErr result (node.new.io.station.spent ≡ true) }
    ensures ready { OnOk result (IsReady orders.now now node.new) }
{
    'due: while node.next < orders.commands.len() {
        let command = &orders.commands[node.next];
        if u64::from(command.at) > now {
            return Ok(());
        }
        do_task(
            &mut node.io.station,
            &command.task,
            &mut node.buf,
            now,
            visitor,
        )?;
        node.next += 1;
    }
    Ok(())
}

/// Whether a moment is due by now.
fn is_due(moment: Option<u64>, now: u64) -> bool
    ensures due { result ≡ true → IsSomeAnd moment (λ m. m ≤ now) }
    ensures later { result ≡ false → IsBefore now moment }
{
    match moment {
        Some(moment) => moment <= now,
        None => false,
    }
}

/// Lets the station tick where something is due. Before its wake a tick would report nothing and change
/// nothing.
#[tactic(auto, using(crate::proofs::Readying::goes_first))]
fn tick<V: Visitor<Frame>>(
    station: &mut Station<Frame>,
    now: u64,
    visitor: &mut V,
) -> Result<(), NoMemory>
    requires go { MayGo now station.old }
    ensures ends { let script = station_event station.old.rules now Tick station.old.state in
        Concludes V.tells (V.tags now) V.hands V.fails result script visitor.old visitor.new station.new.state }
    ensures on { OnOk result (GoesOn now 0 station.old station.new) }
    ensures memory { OnErr result (station.new.spent ≡ true) }
{
    if !is_due(station.wake(), now) {
        return Ok(());
    }
    do_event(station, LocalEvent::Tick, &mut [], now, visitor)
}

/// Ends the run where the stop is due, and ticks else. It says whether the stop was due.
fn finish<V: Visitor<Frame>>(
    orders: &Orders,
    node: &mut Node,
    now: u64,
    visitor: &mut V,
) -> Result<bool, NoMemory>
    requires may { MayTurn orders.now now node.old }
    ensures ends { let script = finish (orders_seen orders.now) now (node_seen orders.now node.old) in
        Concludes V.tells (V.tags now) V.hands V.fails result script visitor.old visitor.new (turned result (node_seen orders.now node.new)) }
    ensures memory { OnErr result (node.new.io.station.spent ≡ true) }
    ensures ready { OnOk result (IsReady orders.now now node.new) }
    ensures going { IfOk result (λ stopped. stopped ≡ false → now < orders.now.stop) }
{
    if u64::from(orders.stop) <= now {
        visitor.tell(&Report::End);
        return Ok(true);
    }
    tick(&mut node.io.station, now, visitor)?;
    Ok(false)
}

/// A turn at the moment `now`, in ms, before a visitor: what came for it is handed in, the commands that
/// are due are done, and then the stop is due or the station ticks. It says whether the stop was due. It
/// takes no memory but for what comes of the events; after `NoMemory` the node is used no more. A visitor
/// that couldn't write a line keeps that fact, and its owner asks it when the turn has ended.
pub fn turn<V: Visitor<Frame>>(
    orders: &Orders,
    node: &mut Node,
    now: u64,
    came: Option<LinkDatagram<'_>>,
    visitor: &mut V,
) -> Result<bool, NoMemory>
    requires may { MayTurn orders.now now node.old }
    ensures ends { let script = turn (orders_seen orders.now) now (arrived came.entry) (node_seen orders.now node.old) in
        Concludes V.tells (V.tags now) V.hands V.fails result script visitor.old visitor.new (turned result (node_seen orders.now node.new)) }
    ensures memory { OnErr result (node.new.io.station.spent ≡ true) }
    ensures ready { OnOk result (IsReady orders.now now node.new) }
    ensures going { IfOk result (λ stopped. stopped ≡ false → now < orders.now.stop) }
{
    hand_in(node, &orders.setup.ins, came, now, visitor)?;
    do_due(orders, node, now, visitor)?;
    finish(orders, node, now, visitor)
}
