//! What happens to the calls of a world.
use dt_notes::Event;
use dt_units::Flow;

/// What happens to the calls of a world.
#[derive(Clone, Copy)]
pub enum CallEvent<'a> {
    /// A call is made along the flow, with 1 to 65,528 octets.
    Call { flow: Flow, payload: &'a [u8] },
    /// An event of the world that is no send and no read.
    World(Event<'a>),
}
