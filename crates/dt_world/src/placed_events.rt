//! An event at a station of the world.
use dt_layout::Frame;
use dt_notes::Mark;
use dt_units::Flow;

/// What happens to a station of the world. What is large is lent: a packet that comes stays in the
/// frame that it is read from.
#[derive(Drop)]
pub enum PlacedEvent<'a> {
    /// Octets are sent on a flow from this node to another.
    Send {
        flow: Flow,
        octets: &'a [u8],
        begin: bool,
        end: bool,
    },
    /// Unread octets of a flow are read, at most as many as the buffer holds.
    Read {
        flow: Flow,
        buf: &'a mut [u8],
    },
    /// Nothing but that time has passed.
    Tick,
    /// A packet comes on a link, with its mark. Its octets read as a Deltagram. What the frame holds
    /// afterwards isn't said.
    Arrive {
        link: u16,
        frame: &'a mut Frame,
        mark: Mark,
    },
}
