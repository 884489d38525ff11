//! What the lines of a setup do.
ghost use Rattle.std.specs.Prelude.{◌≡◌, Ok, IfErr, OnErr, OnOk};
ghost use Rattle.dt_units.specs.Limits.{first_out_of_range};
ghost use Rattle.dt_edges.specs.Sinks.{Puts};
ghost use Rattle.dt_text.specs.Said.{run_said};
ghost use Rattle.dt_fold.specs.Logging.{TurnsTo};
ghost use Rattle.dt_notes.specs.Setups.{IsFaultOf};
ghost use Rattle.dt_world_model.specs.Setup.{setup_call};
ghost use Rattle.dt_scenario.specs.Parts.{IsLineOf, LeadsTo, added, scene_of};
ghost use Rattle.dt_scenario.specs.Scenes.{adds, by_params, call_of, goes, happens, stage_of};

use crate::simulations::Simulation;
use dt_edges::Sink;
use dt_fold::Stop;
use dt_items::NoMemory;
use dt_notes::Setup;
use dt_reports::{Fault, SetupFault};
use dt_text::{MISPLACED, RunLine, SetupLine, Stage};
use dt_units::{NodeId, Params};
use std::alloc::Global;

/// What the lines so far have led to.
#[derive(Drop)]
pub enum ScenarioPhase<S> {
    Nothing,
    Preparing(Setup),
    Running(S),
}

impl<S: Simulation> ScenarioPhase<S> {
    pub fn stage(&self) -> Stage
        ensures { result ≡ stage_of (scene_of S.state self.now) }
    {
        match self {
            ScenarioPhase::Nothing => Stage::Start,
            ScenarioPhase::Preparing(_) => Stage::Setup,
            ScenarioPhase::Running(_) => Stage::Run { last: 0 },
        }
    }

    /// The parameters are checked, and a setup begins.
    pub fn configure(&mut self, alloc: Global, params: &Params) -> Option<Fault>
        ensures { LeadsTo (by_params params.now (first_out_of_range params.now)) (Ok result) (scene_of S.state self.old) (scene_of S.state self.new) }
    {
        match params.check() {
            Ok(rules) => {
                *self = ScenarioPhase::Preparing(Setup::new(alloc, rules));
                None
            }
            Err(fault) => Some(Fault::Param(fault)),
        }
    }

    /// A station, a link or a route is added to the setup.
    pub fn add(&mut self, line: SetupLine) -> Result<Option<Fault>, NoMemory>
        ensures { LeadsTo (adds (scene_of S.state self.old) (call_of line)) result (scene_of S.state self.old) (scene_of S.state self.new) }
    {
        match self {
            ScenarioPhase::Preparing(setup) => answer(add(setup, line)),
            ScenarioPhase::Nothing | ScenarioPhase::Running(_) => Ok(Some(MISPLACED)),
        }
    }

    /// The setup ends, and the simulation starts over its world.
    pub fn go(&mut self, alloc: Global) -> Result<Option<Fault>, NoMemory>
        ensures { LeadsTo (goes S.simulates (scene_of S.state self.old)) result (scene_of S.state self.old) (scene_of S.state self.new) }
    {
        match self {
            ScenarioPhase::Preparing(setup) => {
                let started = S::start(alloc, setup)?;
                *self = ScenarioPhase::Running(started);
                Ok(None)
            }
            ScenarioPhase::Nothing | ScenarioPhase::Running(_) => Ok(Some(MISPLACED)),
        }
    }

    /// Something happens in the simulation.
    #[tactic(auto, using(crate::proofs::Happenings::happening_turns))]
    pub fn simulate<K: Sink>(
        &mut self,
        line: &RunLine<'_>,
        out: &mut K,
    ) -> Result<Option<Fault>, Stop>
        requires { IsLineOf S.simulates (run_said line.now) }
        ensures { TurnsTo K.sight (happens S.simulates (scene_of S.state self.old) (run_said line.now)) result (scene_of S.state self.old) (scene_of S.state self.new) out.old out.new }
    {
        match self {
            ScenarioPhase::Running(simulation) => simulation.apply_line(line, out),
            ScenarioPhase::Nothing | ScenarioPhase::Preparing(_) => Ok(Some(MISPLACED)),
        }
    }
}

/// The station, the link or the route of a line is added to the setup.
fn add(setup: &mut Setup, line: SetupLine) -> Result<(), SetupFault>
    ensures ok { OnOk result (setup_call setup.old (call_of line) ≡ Ok setup.new) }
    ensures fault { IfErr result (IsFaultOf (setup_call setup.old (call_of line))) }
    ensures same { OnErr result (setup.new ≡ setup.old) }
{
    match line {
        SetupLine::Station { n, zero } => setup.add_station(NodeId(n), zero),
        SetupLine::Link {
            link,
            from,
            to,
            charge,
            pace,
        } => setup.add_link(link, NodeId(from), NodeId(to), charge, pace),
        SetupLine::Route { at, to, link } => setup.add_route(NodeId(at), NodeId(to), link),
    }
}

/// What a call of a setup says of its line.
fn answer(call: Result<(), SetupFault>) -> Result<Option<Fault>, NoMemory>
    ensures { result ≡ added call }
{
    match call {
        Ok(()) => Ok(None),
        Err(SetupFault::NoMemory) => Err(NoMemory),
        Err(fault) => Ok(Some(Fault::Setup(fault))),
    }
}
