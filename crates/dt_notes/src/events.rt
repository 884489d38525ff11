//! What happens to a world.
use dt_units::{Flow, NodeId};

/// What happens to a world.
#[derive(Clone, Copy)]
pub enum Event<'a> {
    /// `by` milliseconds pass.
    Pass {
        by: u32,
    },
    /// Octets are sent at the station where the flow begins. The first begins a message and the last
    /// ends one, where that is asked for.
    Send {
        flow: Flow,
        octets: &'a [u8],
        begin: bool,
        end: bool,
    },
    /// At most `max` unread octets are read at the station where the flow ends.
    Read {
        flow: Flow,
        max: u32,
    },
    /// The station does what is due.
    Tick {
        station: NodeId,
    },
    /// A copy comes to the station at its link's end. It may come again, and in any order.
    Arrive {
        copy: u32,
    },
    /// A copy is lost.
    Lose {
        copy: u32,
    },
    /// The station starts again.
    Restart {
        station: NodeId,
    },
}
