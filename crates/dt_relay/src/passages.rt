//! The result if a packet tries to pass a relay at once: it leaves, expires, has to wait, or has no route or room.

/// What becomes at once of a packet that is to leave a relay.
#[derive(Clone, Copy, PartialEq, Eq)]
pub enum Passage {
    /// It leaves on the link, with its life less by one millisecond.
    Leaves { link: u16 },
    /// It hasn't more life than that millisecond, and is gone.
    Expired { link: u16 },
    /// It is to wait on the link: others wait before it, or the link keeps its pace.
    Waits { link: u16 },
    /// No route names its node, or the route's link isn't among the out links.
    NoRoute { to: u32 },
    /// As many as may wait on the link wait.
    Full { link: u16 },
}
