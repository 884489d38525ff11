//! Ports with their kinds, and the limits on a node's calls and requests.

/// What a port is for. It has its kind for good.
#[derive(Clone, Copy, Debug, PartialEq, Eq)]
pub enum PortKind {
    /// Requests go from it alone, and what comes to it are replies.
    Caller,
    /// Requests come to it alone, and what goes from it are replies.
    Service,
}

/// A port that has a kind.
#[derive(Clone, Copy)]
pub struct Port {
    pub port: u16,
    pub kind: PortKind,
}

/// How much a node takes on.
#[derive(Clone, Copy, Debug, PartialEq, Eq)]
pub struct Most {
    /// So many calls at most wait or have an end that wasn't taken.
    pub calls: u32,
    /// So many requests at most have no reply, and so many weren't taken.
    pub requests: u32,
    /// So many requests of one flow at most have no reply.
    pub of_a_flow: u32,
}
