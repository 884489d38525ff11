//! What the lines of a world make happen in it.
ghost use Rattle.std.specs.Prelude.{◌≡◌};
ghost use Rattle.dt_notes.specs.Events.{MayStep, event_of};
ghost use Rattle.dt_scenario.specs.Scenes.{event_by};

use dt_notes::Event;
use dt_text::WorldLine;
use dt_units::NodeId;

/// What a line of a world makes happen in it: one row a line.
pub fn world_event(line: WorldLine) -> Event<'static>
    ensures event { event_of result ≡ event_by line }
    ensures may { MayStep (event_of result) }
{
    match line {
        WorldLine::Pass { by } => Event::Pass { by },
        WorldLine::Tick { n } => Event::Tick { station: NodeId(n) },
        WorldLine::Arrive { copy } => Event::Arrive { copy },
        WorldLine::Lose { copy } => Event::Lose { copy },
        WorldLine::Restart { n } => Event::Restart { station: NodeId(n) },
    }
}
