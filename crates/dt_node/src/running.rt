//! Turn after turn.
ghost use Rattle.std.specs.Prelude.{◌≡◌, ◌≢◌, ◌≤◌, [], IfSome, length, true};
ghost use Rattle.dt_edges.specs.Wires.{handed};
ghost use Rattle.dt_trace.specs.Inputs.{Taken};
ghost use Rattle.dt_trace.specs.Standing.{HasFound};
ghost use Rattle.dt_trace.specs.Written.{input_written};
ghost use Rattle.dt_trace.specs.Lines.{most_taken};
ghost use Rattle.dt_world_model.specs.Station.{station_wake};
ghost use Rattle.dt_script.specs.Codes.{IsGood, orders_seen};
ghost use Rattle.dt_turn.specs.Codes.{IsReady, left_of, node_seen};
ghost use Rattle.dt_turn.specs.Nodes.{first_node};
ghost use Rattle.dt_node.specs.declared.outcomes.NodeOutcome.TheVariants as outcome;
ghost use Rattle.dt_node.specs.Logging.{NotesFault};
ghost use Rattle.dt_node.specs.Runs.{next_moment, wait_until, wakes_by};
ghost use Rattle.dt_node.specs.Serving.{Serves, seen_by};

use crate::node_runs::NodeRun;
use crate::outcomes::NodeOutcome;
use crate::recorders::Recorder;
use crate::turns::Turn;
use crate::watch::{MOST_EQUAL, Watch};
use dt_edges::{Clock, Sink, Wire};
use dt_fold::Stop;
use dt_script::Orders;
use dt_trace::{Input, MOST_TAKEN};
use dt_turn::{Node, datagram_of};

/// How long a take may wait: to the station's wake and to the next command or the stop, 1 to 1,000 ms.
fn wait_for(orders: &Orders, node: &Node, moment: u64) -> u32
    ensures { let wake = station_wake node.now.io.station.rules node.now.io.station.state in
        result ≡ wait_until (wakes_by wake (next_moment orders.now.stop (left_of orders.now node.now.next))) moment }
{
    let command = match orders.commands.get(node.next) {
        Some(command) => u64::from(command.at),
        None => u64::from(orders.stop),
    };
    let due = match node.io.station.wake() {
        Some(wake) => wake.min(command),
        None => command,
    };
    due.saturating_sub(moment).max(1).min(1000) as u32
}

/// Notes that a call of the wire failed, which ends the run.
fn fail<K: Sink>(failed: &Input<'_>, out: &mut K, recorder: &mut Recorder) -> NodeOutcome
    requires { recorder.old.buffer ≡ [] }
    ensures notes { NotesFault (input_written failed.now) recorder.old.writer.form result (K.sight out.old) (K.sight out.new) }
    ensures memory { result ≢ outcome.NoMemory }
{
    match recorder.note(failed, out) {
        Ok(()) => NodeOutcome::WireFault,
        Err(_) => NodeOutcome::WriteFault,
    }
}

/// What a take found, as an input.
fn input_of(came: Option<(u16, usize)>, octets: &[u8]) -> Input<'_>
    requires link { IfSome came (λ d. d.0 ≤ 255) }
    requires within { IfSome came (λ d. d.1 ≤ length octets.now) }
    requires room { length octets.now ≤ most_taken }
    ensures input { input_written result ≡ Taken (handed came octets.now) }
    ensures fits { HasFound (handed came octets.now) }
{
    Input::taken(came, octets)
}

/// Opens the wire, and takes turns until one of them ends the run. The recorder has no lines that wait,
/// and has counted no frame.
pub fn run_turns<W: Wire, C: Clock, K: Sink>(
    orders: &Orders,
    run: &mut NodeRun,
    wire: &mut W,
    clock: &mut C,
    out: &mut K,
) -> NodeOutcome
    requires good { IsGood (orders_seen orders.now) }
    requires first { node_seen orders.now run.old.node ≡ first_node (orders_seen orders.now) }
    requires ready { IsReady orders.now 0 run.old.node }
    requires empty { run.old.recorder.buffer ≡ [] }
    requires new { run.old.recorder.writer.gives ≡ 0 }
    ensures serves { let seen = seen_by W.sight C.sight K.sight in
        Serves run.old.recorder.writer.form (orders_seen orders.now) result (seen wire.old clock.old out.old) (seen wire.new clock.new out.new) }
    ensures memory { result ≡ outcome.NoMemory → run.new.node.io.station.spent ≡ true }
{
    let peers = &orders.setup.peers;
    if let Err(_) = wire.open(orders.setup.local, peers) {
        return fail(&Input::FailedOpen, out, &mut run.recorder);
    }
    let mut octets = [0; MOST_TAKEN];
    let mut came = None;
    let mut reading = clock.now();
    let mut watch = Watch::start(reading);
    'turns: loop {
        let moment = watch.moment();
        let arrival = datagram_of(came, &octets);
        let turn = Turn {
            orders,
            reading,
            moment,
            came: arrival,
        };
        match run.take_turn(turn, wire, out) {
            Ok(false) => (),
            Ok(true) => return NodeOutcome::Done,
            Err(Stop::NoMemory) => return NodeOutcome::NoMemory,
            Err(Stop::WriteFault) => return NodeOutcome::WriteFault,
        }
        let wait = wait_for(orders, &run.node, moment);
        match wire.take(wait, &mut octets) {
            Ok(found) => came = found,
            Err(_) => return fail(&Input::FailedTake, out, &mut run.recorder),
        }
        if let Err(_) = run.recorder.note(&input_of(came, &octets), out) {
            return NodeOutcome::WriteFault;
        }
        if watch.equal == MOST_EQUAL {
            return NodeOutcome::ClockStill;
        }
        reading = clock.now();
        watch = watch.next(reading);
    }
}
