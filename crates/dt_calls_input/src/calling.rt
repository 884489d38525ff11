//! What happens to the calls of an input.
ghost use Rattle.std.specs.Prelude.{◌≡◌, false, reverse};
ghost use Rattle.dt_fold.specs.Logging.{TurnsTo};
ghost use Rattle.dt_calls_model.specs.CallStep.{Happens, call_step};
ghost use Rattle.dt_scenario.specs.Scenes.{event_by};
ghost use Rattle.dt_calls_input.specs.CallInputs.{by_calls};
ghost use Rattle.dt_calls.specs.CallOutcomes.{MayCome, call_event};

use crate::call_logs::CallLog;
use dt_call_parts::Reversing;
use dt_calls::{CallEvent, Calls};
use dt_edges::Sink;
use dt_fold::Stop;
use dt_reports::Fault;
use dt_scenario::{Log, stepped, world_event};
use dt_text::WorldLine;

/// What a line of a world says happens: that is no send and no read.
#[tactic(auto, using(crate::proofs::CallTurns::comes_quietly))]
pub fn apply_world_line<K: Sink>(
    calls: &mut Calls<Reversing>,
    line: WorldLine,
    out: &mut K,
) -> Result<Option<Fault>, Stop>
    ensures { TurnsTo K.sight (by_calls (call_step reverse calls.old.calls (Happens (event_by line)))) result calls.old.calls calls.new.calls out.old out.new }
{
    let event = world_event(line);
    step(calls, &CallEvent::World(event), out)
}

/// A step of the calls, and its lines are written. Calls that are spent find no memory any more.
pub fn step<K: Sink>(
    calls: &mut Calls<Reversing>,
    event: &CallEvent<'_>,
    out: &mut K,
) -> Result<Option<Fault>, Stop>
    requires { MayCome (call_event event.now) }
    ensures { TurnsTo K.sight (by_calls (call_step reverse calls.old.calls (call_event event.now))) result calls.old.calls calls.new.calls out.old out.new }
{
    if calls.is_spent() {
        return Err(Stop::NoMemory);
    }
    let mut log = CallLog {
        log: Log { out, failed: false },
    };
    step_logged(calls, event, &mut log)
}

fn step_logged<K: Sink>(
    calls: &mut Calls<Reversing>,
    event: &CallEvent<'_>,
    log: &mut CallLog<'_, K>,
) -> Result<Option<Fault>, Stop>
    requires event { MayCome (call_event event.now) }
    requires unspent { calls.old.spent ≡ false }
    requires fine { log.old.log.failed ≡ false }
    ensures turns { TurnsTo K.sight (by_calls (call_step reverse calls.old.calls (call_event event.now))) result calls.old.calls calls.new.calls log.old.log.out.now log.new.log.out.now }
    ensures same { log.new.log.out.ghost_name ≡ log.old.log.out.ghost_name }
{
    let answer = calls.step(event, log);
    stepped(answer, log.log.failed)
}
