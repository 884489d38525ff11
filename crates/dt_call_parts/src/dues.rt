//! Which sides must be read after an event.
ghost use Rattle.std.specs.Prelude.{◌≡◌};
ghost use Rattle.dt_notes.specs.Events.{event_of};
ghost use Rattle.dt_call_parts.specs.Dues.{due_after, due_after_event};
ghost use Rattle.dt_call_parts.specs.Flows.{flows_seen};

use crate::flows::Flows;
use crate::heard::Heard;
use dt_messages::reversed;
use dt_notes::Event;
use dt_units::Flow;

/// Which sides must be read. At all others nothing is unread, and their stations have done what is due,
/// so that a read would report nothing and change nothing.
#[derive(Clone, Copy)]
pub enum Due {
    Nothing,
    /// Both sides of this flow.
    Flow(Flow),
    All,
}

/// What must be read after an event: all where time has passed, and else what it gave.
pub fn due_after_event(event: &Event<'_>, flows: &Flows, heard: &Heard) -> Due
    ensures { result ≡ due_after_event (event_of event.now) (flows_seen flows.now.entries) heard.now }
{
    match *event {
        Event::Pass { .. } | Event::Send { .. } | Event::Read { .. } => Due::All,
        Event::Tick { .. } | Event::Arrive { .. } | Event::Lose { .. } => due_after(flows, heard),
        Event::Restart { .. } => Due::Nothing,
    }
}

/// What must be read after an event in which no time passed: both sides of the flow of which it
/// accepted data, if that goes on the way of requests or of replies.
fn due_after(flows: &Flows, heard: &Heard) -> Due
    ensures { result ≡ due_after (flows_seen flows.now.entries) heard.now }
{
    if heard.piece().is_some() || heard.has_several() {
        return Due::All;
    }
    let Some(flow) = heard.accepted() else {
        return Due::Nothing;
    };
    let way = reversed(flow);
    match (flows.contains_key(&flow), flows.contains_key(&way)) {
        (false, false) => Due::Nothing,
        (true, false) => Due::Flow(flow),
        (false, true) => Due::Flow(way),
        (true, true) => Due::All,
    }
}
