//! `Scenario`, which reads an input line by line: the setup of a world, then `go`, then lines for a simulation of it.
ghost use Rattle.std.specs.Prelude.{◌≡◌};
ghost use Rattle.dt_text.specs.Said.{said};
ghost use Rattle.dt_fold.specs.Logging.{Closes, TurnsTo};
ghost use Rattle.dt_text.specs.Spelling.{IsLine};
ghost use Rattle.dt_scenario.specs.Parts.{scene_in};
ghost use Rattle.dt_scenario.specs.Scenes.{Empty, done_by};

use crate::scenario_phases::ScenarioPhase;
use crate::simulations::Simulation;
use dt_edges::Sink;
use dt_fold::{LineTurns, Stop};
use dt_reports::Fault;
use dt_text::{Line, MISPLACED, follows, read_line};
use std::alloc::Global;

/// An input that is read line by line: its first lines set up a world, `go` starts a simulation over
/// it, and the lines after it make things happen there.
#[derive(Drop)]
pub struct Scenario<S: Simulation> {
    alloc: Global,
    phase: ScenarioPhase<S>,
}

impl<S: Simulation> Scenario<S> {
    /// Nothing was read yet. What its lines take is taken of `alloc`.
    pub fn new(alloc: Global) -> Scenario<S>
        ensures { scene_in S.state result ≡ Empty }
    {
        Scenario {
            alloc,
            phase: ScenarioPhase::Nothing,
        }
    }

    /// Does what a line says that is allowed here.
    fn apply_allowed<K: Sink>(
        &mut self,
        line: &Line<'_>,
        out: &mut K,
    ) -> Result<Option<Fault>, Stop>
        requires in_form { IsLine S.simulates.form (said line.now) }
        ensures { TurnsTo K.sight (done_by S.simulates (scene_in S.state self.old) (said line.now)) result (scene_in S.state self.old) (scene_in S.state self.new) out.old out.new }
    {
        let phase = &mut self.phase;
        match line {
            Line::Blank => Ok(None),
            Line::Params(params) => Ok(phase.configure(self.alloc, params)),
            Line::Go => Ok(phase.go(self.alloc)?),
            Line::Setup(line) => Ok(phase.add(*line)?),
            Line::Run(line) => phase.simulate(line, out),
            Line::Script(_) => Ok(Some(MISPLACED)),
        }
    }
}

impl<S: Simulation> LineTurns for Scenario<S> {
    ghost use Rattle.dt_scenario.specs.Parts.{scene_in};
    ghost use Rattle.dt_scenario.specs.Scenes.{Scene, scenario_turns};

    ghost State = { Scene S.State };

    ghost state = { λ s. scene_in S.state s };

    ghost turns = { scenario_turns S.simulates };

    fn turn<K: Sink>(&mut self, line: &[u8], out: &mut K) -> Result<Option<Fault>, Stop> {
        let said = match read_line(S::form(), line) {
            Ok(said) => said,
            Err(fault) => return Ok(Some(Fault::Line(fault))),
        };
        match follows(S::form(), self.phase.stage(), &said) {
            Some(_) => self.apply_allowed(&said, out),
            None => Ok(Some(MISPLACED)),
        }
    }

    fn close<K: Sink>(&self, out: &mut K) -> Result<Option<Fault>, Stop> {
        match &self.phase {
            ScenarioPhase::Nothing | ScenarioPhase::Preparing(_) => Ok(Some(MISPLACED)),
            ScenarioPhase::Running(simulation) => {
                simulation.close(out)?;
                Ok(None)
            }
        }
    }
}
