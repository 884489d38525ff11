//! The trait for simulations over the world of a setup, whose input lines are applied one by one.
ghost use Rattle.std.specs.Prelude.{◌≡◌, IfOk};
ghost use Rattle.dt_edges.specs.Sinks.{Puts};
ghost use Rattle.dt_fold.specs.Logging.{TurnsTo};
ghost use Rattle.dt_text.specs.Said.{run_said};
ghost use Rattle.dt_world_model.specs.Setup.{new_world};
ghost use Rattle.dt_scenario.specs.Parts.{IsLineOf};
ghost use Rattle.dt_scenario.specs.Scenes.{Simulates};

use dt_edges::{Failed, Sink};
use dt_fold::Stop;
use dt_items::NoMemory;
use dt_notes::Setup;
use dt_reports::Fault;
use dt_text::{Form, RunLine};
use std::alloc::Global;

/// What a scenario simulates over the world that it sets up. A contract sees a state of its own
/// definitions, and what each line does to it.
pub trait Simulation: Drop {
    ghost State: { Type 0 };

    ghost state: { Self → State };

    ghost simulates: { Simulates State };

    /// The form of its lines.
    fn form() -> Form
        ensures { result ≡ simulates.form };

    /// It starts over the world of a setup, in which nothing has happened.
    fn start(alloc: Global, setup: &Setup) -> Result<Self, NoMemory>
        ensures { IfOk result (λ started. state started ≡ simulates.starts (new_world setup.now)) };

    /// Does what a line after `go` says, and logs its text; or says why it is refused, and changes
    /// and logs nothing then.
    fn apply_line<K: Sink>(
        &mut self,
        line: &RunLine<'_>,
        out: &mut K,
    ) -> Result<Option<Fault>, Stop>
        requires { IsLineOf simulates (run_said line.now) }
        ensures { TurnsTo K.sight (simulates.does (state self.old) (run_said line.now)) result (state self.old) (state self.new) out.old out.new };

    /// Logs what stands after the last line.
    fn close<K: Sink>(&self, out: &mut K) -> Result<(), Failed>
        ensures { Puts K.sight (simulates.close (state self.now)) result out.old out.new };
}
