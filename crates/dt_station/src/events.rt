//! The events of a station: octets to send, reads, ticks, and packets that arrive on a link.
use dt_items::MarkedOctets;
use dt_units::Flow;

/// What happens to a station. The buffer into which a read writes is handed to
/// [`Station::event`](crate::Station::event) beside it.
#[derive(Drop)]
pub enum StationEvent<'a, P> {
    /// Octets are sent on a flow from this node to another, 1 or more. The first begins a message and
    /// the last ends one, where that is asked for.
    Send {
        flow: Flow,
        octets: &'a [u8],
        begin: bool,
        end: bool,
    },
    /// Unread octets of a flow are read, at most as many as the buffer holds, which isn't empty.
    Read {
        flow: Flow,
    },
    /// Nothing but that time has passed.
    Tick,
    /// A packet comes on a link. Its octets read as a Deltagram.
    Arrive {
        link: u16,
        packet: P,
    },
}

/// What happens to a station without a packet that comes: [`StationEvent`] but for its last, so that
/// it is small. It is given to [`Station::local_event`](crate::Station::local_event).
#[derive(Clone, Copy, Drop)]
pub enum LocalEvent<'a> {
    /// Octets are sent on a flow from this node to another, 1 or more.
    Send { flow: Flow, sent: MarkedOctets<'a> },
    /// Unread octets of a flow are read, at most as many as the buffer holds, which isn't empty.
    Read { flow: Flow },
    /// Nothing but that time has passed.
    Tick,
}
