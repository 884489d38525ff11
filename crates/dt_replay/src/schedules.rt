//! What the lines of a schedule do after `go`.
ghost use Rattle.dt_fold.specs.Logging.{TurnsTo};
ghost use Rattle.dt_text.specs.Said.{user_said};
ghost use Rattle.dt_text.specs.Tasks.{task_of};
ghost use Rattle.dt_text.specs.declared.lines.RunLine.TheVariants.{User};
ghost use Rattle.dt_world_model.specs.WorldStep.{world_step};
ghost use Rattle.dt_scenario.specs.Parts.{IsLineOf};
ghost use Rattle.dt_replay.specs.Schedules.{by_step, event_of_task, simulates_world};

use crate::running::{close_world, step};
use dt_edges::{Failed, Sink};
use dt_fold::Stop;
use dt_items::NoMemory;
use dt_notes::{Event, Setup};
use dt_reports::Fault;
use dt_scenario::{Scenario, Simulation, world_event};
use dt_text::{Form, MISPLACED, RunLine, Task, UserLine};
use dt_world::World;
use std::alloc::Global;
use std::mem::size_of;

/// The world of a schedule, in which its lines make things happen.
#[derive(Drop)]
pub struct ScheduledWorld {
    world: World,
    /// From where the octets of a send are taken.
    alloc: Global,
}

// It is moved when it begins.
const _: () = prove!(size_of::<Scenario<ScheduledWorld>>() <= 512);

impl Simulation for ScheduledWorld {
    ghost use Rattle.dt_world_model.specs.World.{World};
    ghost use Rattle.dt_replay.specs.Schedules.{simulates_world};

    ghost State = { World };

    ghost state = { λ s. s.world.state };

    ghost simulates = { simulates_world };

    fn form() -> Form {
        Form::Schedule
    }

    fn start(alloc: Global, setup: &Setup) -> Result<Self, NoMemory> {
        let world = World::new(alloc, setup)?;
        Ok(ScheduledWorld { world, alloc })
    }

    fn apply_line<K: Sink>(
        &mut self,
        line: &RunLine<'_>,
        out: &mut K,
    ) -> Result<Option<Fault>, Stop> {
        match line {
            RunLine::World(line) => step(&mut self.world, &world_event(*line), out),
            RunLine::User(line) => self.use_node(line, out),
            RunLine::Call { .. } => Ok(Some(MISPLACED)),
        }
    }

    fn close<K: Sink>(&self, out: &mut K) -> Result<(), Failed> {
        close_world(&self.world, out)
    }
}

impl ScheduledWorld {
    /// The user of a node does something.
    #[tactic(auto, using(dt_text::proofs::TaskLaws::user_pairs))]
    fn use_node<K: Sink>(&mut self, line: &UserLine<'_>, out: &mut K) -> Result<Option<Fault>, Stop>
        requires { IsLineOf simulates_world (User (user_said line.now)) }
        ensures { TurnsTo K.sight (by_step (world_step self.old.world.state (event_of_task (task_of (user_said line.now))))) result self.old.world.state self.new.world.state out.old out.new }
    {
        match Task::of(line, self.alloc)? {
            Task::Send {
                flow,
                begin,
                end,
                octets,
            } => {
                let event = Event::Send {
                    flow,
                    octets: &octets,
                    begin,
                    end,
                };
                step(&mut self.world, &event, out)
            }
            Task::Read { flow, max } => step(&mut self.world, &Event::Read { flow, max }, out),
        }
    }
}
