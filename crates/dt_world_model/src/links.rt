//! The links of a world and of a station, routes over them, and the result when a packet enters a relay.

/// A link on which packets leave a station.
#[derive(Clone, Copy, Debug, PartialEq, Eq)]
pub struct OutLink {
    /// The link's number, 0 to 255.
    pub link: u16,
    /// The least time from one packet to the next, 0 to 86,400,000 ms.
    pub pace: u32,
}

/// A link on which packets come to a station.
#[derive(Clone, Copy, Debug, PartialEq, Eq)]
pub struct InLink {
    /// The link's number, 0 to 255.
    pub link: u16,
    /// What a packet pays of its life for the link, 0 to 86,400,000 ms.
    pub charge: u32,
}

/// Packets to this node leave on this link.
#[derive(Clone, Copy, Debug, PartialEq, Eq)]
pub struct Route {
    pub to: u32,
    pub link: u16,
}

/// What became of a packet that was to enter a relay. A packet that isn't queued is dropped.
#[derive(Clone, Copy, PartialEq, Eq)]
pub enum Entered {
    /// It waits on the link.
    Queued { link: u16 },
    /// No route names its node.
    NoRoute { to: u32 },
    /// As many as may wait on the link wait.
    Full { link: u16 },
}

/// A link of the world, from one station to another.
#[derive(Clone, Copy)]
pub struct Link {
    /// Its number, 0 to 255.
    pub link: u16,
    pub from: u32,
    pub to: u32,
    /// What an arrival pays of its life, and the longest time that a copy may be on the link, 0 to
    /// 86,400,000 ms.
    pub charge: u32,
    /// The least time from one packet to the next, 0 to 86,400,000 ms.
    pub pace: u32,
}
