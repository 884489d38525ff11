//! The facts that an audit reads from a log: octets taken, sent, acknowledged, uncertain or accepted, and restarts.
use dt_units::Flow;

/// What a line of a log says of octets and of lives: how many octets a flow took, sent, had
/// acknowledged, gave up and had accepted; and in which life a node began again. Any other line
/// says nothing of them.
#[derive(Clone, Copy)]
pub enum Fact {
    /// A send was taken: `count` octets.
    Took {
        flow: Flow,
        count: u32,
    },
    /// Octets went out for the first time, the first of them with this sequence number.
    Sent {
        flow: Flow,
        number: u32,
        length: u32,
    },
    /// `count` octets were acknowledged.
    Settled {
        flow: Flow,
        count: u32,
    },
    /// `count` octets were given up.
    Uncertain {
        flow: Flow,
        count: u32,
    },
    /// Octets were accepted, the first of them with this sequence number. With `run` the receiver
    /// doesn't know what stood before them.
    Accepted {
        flow: Flow,
        number: u32,
        length: u32,
        run: bool,
    },
    /// A node began again, in this life.
    Restarted {
        node: u32,
        life: u32,
    },
    /// The line says nothing of these.
    Other,
}
