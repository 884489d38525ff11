//! The stages of an input, and the function that checks which lines are allowed at each stage.
ghost use Rattle.std.specs.Prelude.{◌≡◌};
ghost use Rattle.dt_text.specs.Said.{run_said, said, script_said};
ghost use Rattle.dt_text.specs.Stages.{before_params, after_me, after_params, calls_run, in_run, in_setup, not_before, schedule_run, script_after, script_line_after, stage_after, world_after};

use crate::lines::{Form, Line, RunLine, ScriptLine};
use dt_reports::{Fault, LineFault};

/// The fault of a line that isn't allowed where it stands: [`follows`] has no stage for it.
pub const MISPLACED: Fault = Fault::Line(LineFault::Order);

/// How far an input has come, by its lines that aren't blank.
#[derive(Clone, Copy, PartialEq, Eq)]
pub enum Stage {
    /// Nothing was read yet.
    Start,
    /// A script: the parameters were read.
    Params,
    /// A script: the node's number was read.
    Me,
    /// Stations, links, peers and routes are set up.
    Setup,
    /// The setup has ended. `last` is the moment of the last line of a script, in ms; in the other
    /// forms it is 0.
    Run { last: u32 },
    /// A script: the stop was read.
    Ended,
}

/// At the start alone, and then in the next stage.
fn before_params(stage: Stage, next: Stage) -> Option<Stage>
    ensures { result ≡ before_params stage next }
{
    match stage {
        Stage::Start => Some(next),
        _ => None,
    }
}

/// After the parameters of a script alone, and then in the next stage.
fn after_params(stage: Stage, next: Stage) -> Option<Stage>
    ensures { result ≡ after_params stage next }
{
    match stage {
        Stage::Params => Some(next),
        _ => None,
    }
}

/// After the number of the node alone, and then in the next stage.
fn after_me(stage: Stage, next: Stage) -> Option<Stage>
    ensures { result ≡ after_me stage next }
{
    match stage {
        Stage::Me => Some(next),
        _ => None,
    }
}

/// In the setup alone, and then in the next stage.
fn in_setup(stage: Stage, next: Stage) -> Option<Stage>
    ensures { result ≡ in_setup stage next }
{
    match stage {
        Stage::Setup => Some(next),
        _ => None,
    }
}

/// After `go` alone, and the stage stays.
fn in_run(stage: Stage) -> Option<Stage>
    ensures { result ≡ in_run stage }
{
    match stage {
        Stage::Run { last } => Some(Stage::Run { last }),
        _ => None,
    }
}

/// After `go` alone, and not before the last moment.
fn not_before(stage: Stage, moment: u32, next: Stage) -> Option<Stage>
    ensures { result ≡ not_before stage moment next }
{
    match stage {
        Stage::Run { last } if moment >= last => Some(next),
        _ => None,
    }
}

/// The stage after a line of a schedule after `go`.
fn schedule_run(stage: Stage, line: &RunLine<'_>) -> Option<Stage>
    ensures { result ≡ schedule_run stage (run_said line.now) }
{
    match line {
        RunLine::World(_) | RunLine::User(_) => in_run(stage),
        RunLine::Call { .. } => None,
    }
}

/// The stage after a line of an input of calls after `go`.
fn calls_run(stage: Stage, line: &RunLine<'_>) -> Option<Stage>
    ensures { result ≡ calls_run stage (run_said line.now) }
{
    match line {
        RunLine::World(_) | RunLine::Call { .. } => in_run(stage),
        RunLine::User(_) => None,
    }
}

/// A match on a line of the input of a world, by what says which lines stand after its `go`.
macro_rules! world_after {
    ($stage:expr, $line:expr, $run:ident) => {
        match $line {
            Line::Blank => Some($stage),
            Line::Params(_) => before_params($stage, Stage::Setup),
            Line::Go => in_setup($stage, Stage::Run { last: 0 }),
            Line::Setup(_) => in_setup($stage, Stage::Setup),
            Line::Run(line) => $run($stage, line),
            Line::Script(_) => None,
        }
    };
}

/// The stage after a line of a schedule.
fn schedule_after(stage: Stage, line: &Line<'_>) -> Option<Stage>
    ensures { result ≡ world_after schedule_run stage (said line.now) }
{
    world_after!(stage, line, schedule_run)
}

/// The stage after a line of an input of calls.
fn calls_after(stage: Stage, line: &Line<'_>) -> Option<Stage>
    ensures { result ≡ world_after calls_run stage (said line.now) }
{
    world_after!(stage, line, calls_run)
}

/// The stage after a line of a script alone.
fn script_line_after(stage: Stage, line: &ScriptLine<'_>) -> Option<Stage>
    ensures { result ≡ script_line_after stage (script_said line.now) }
{
    match line {
        ScriptLine::Me { .. } => after_params(stage, Stage::Me),
        ScriptLine::Local(_) => after_me(stage, Stage::Setup),
        ScriptLine::Node(_) => in_setup(stage, Stage::Setup),
        ScriptLine::At { at, .. } => not_before(stage, *at, Stage::Run { last: *at }),
        ScriptLine::Stop { at } => not_before(stage, *at, Stage::Ended),
    }
}

/// The stage after a line of a script.
fn script_after(stage: Stage, line: &Line<'_>) -> Option<Stage>
    ensures { result ≡ script_after stage (said line.now) }
{
    match line {
        Line::Blank => Some(stage),
        Line::Params(_) => before_params(stage, Stage::Params),
        Line::Go => in_setup(stage, Stage::Run { last: 0 }),
        Line::Script(line) => script_line_after(stage, line),
        Line::Setup(_) | Line::Run(_) => None,
    }
}

/// The stage after a line that stands at this stage of its input. It is `None` exactly where the
/// line isn't allowed there, which is the fault [`crate::LineFault::Order`]. In a schedule the
/// parameters come first, then stations, links and routes, then `go`, then what happens; in an
/// input of calls it is the same, with calls in place of sends and reads. In a script the parameters
/// come first, then the node's number, then its address, then peers, routes and the shelf, then
/// `go`, then what happens at moments that never fall, and the stop last. Blank lines are allowed
/// everywhere and change no stage.
pub fn follows(form: Form, stage: Stage, line: &Line<'_>) -> Option<Stage>
    ensures { result ≡ stage_after form stage (said line.now) }
{
    match form {
        Form::Schedule => schedule_after(stage, line),
        Form::Script => script_after(stage, line),
        Form::Calls => calls_after(stage, line),
    }
}
