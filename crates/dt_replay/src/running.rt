//! What happens in the world of a schedule, and its last lines.
ghost use Rattle.std.specs.Prelude.{◌≡◌, false, None};
ghost use Rattle.dt_edges.specs.Sinks.{Puts};
ghost use Rattle.dt_fold.specs.Logging.{TurnsTo};
ghost use Rattle.dt_log.specs.Logs.{entry_text, log_text};
ghost use Rattle.dt_reports.specs.Told.{told};
ghost use Rattle.dt_notes.specs.Events.{MayStep, event_of};
ghost use Rattle.dt_world_model.specs.World.{last_lines};
ghost use Rattle.dt_world_model.specs.WorldStep.{world_step};
ghost use Rattle.dt_replay.specs.Schedules.{by_step};

use dt_edges::{Failed, Sink};
use dt_fold::Stop;
use dt_log::write_line;
use dt_notes::Event;
use dt_reports::{Fault, LogLine, Report};
use dt_scenario::{Log, stepped};
use dt_world::World;

/// A step of the world, and its lines are logged. A world that is spent finds no memory any more.
pub fn step<K: Sink>(
    world: &mut World,
    event: &Event<'_>,
    out: &mut K,
) -> Result<Option<Fault>, Stop>
    requires { MayStep (event_of event.now) }
    ensures { TurnsTo K.sight (by_step (world_step world.old.state (event_of event.now))) result world.old.state world.new.state out.old out.new }
{
    if world.is_spent() {
        return Err(Stop::NoMemory);
    }
    let mut log = Log { out, failed: false };
    step_logged(world, event, &mut log)
}

fn step_logged<K: Sink>(
    world: &mut World,
    event: &Event<'_>,
    log: &mut Log<'_, K>,
) -> Result<Option<Fault>, Stop>
    requires event { MayStep (event_of event.now) }
    requires unspent { world.old.spent ≡ false }
    requires fine { log.old.failed ≡ false }
    ensures turns { TurnsTo K.sight (by_step (world_step world.old.state (event_of event.now))) result world.old.state world.new.state log.old.out.now log.new.out.now }
    ensures same { log.new.out.ghost_name ≡ log.old.out.ghost_name }
{
    let answer = world.step(event, log);
    stepped(answer, log.failed)
}

/// Logs the totals of each flow, and the end. The cost is the lines.
pub fn close_world<K: Sink>(world: &World, out: &mut K) -> Result<(), Failed>
    ensures { Puts K.sight (log_text (last_lines world.now.state)) result out.old out.new }
{
    let ledger = world.ledger();
    for i in 0..ledger.flows() {
        let totals = ledger.totals_at(i);
        tell(world.now(), totals.report(ledger.flow_at(i)), out)?;
    }
    tell(world.now(), Report::End, out)
}

/// Logs a line of the world's own.
fn tell<K: Sink>(moment: u64, report: Report<'_>, out: &mut K) -> Result<(), Failed>
    ensures { Puts K.sight (entry_text (record { moment = moment; node = None; told = told report.entry })) result out.old out.new }
{
    let line = LogLine {
        moment,
        node: None,
        report,
    };
    write_line(&line, out)
}
