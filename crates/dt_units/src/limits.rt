//! Limits that several layers share.

/// A day in milliseconds: the greatest time that a parameter, a charge or a pace may be.
pub const DAY: u32 = 86_400_000;

/// The most octets that a send record holds, that a receiver has unread and that a window is of. So
/// one send hands in no more, and one read takes no more.
pub const MOST_OCTETS: u32 = 65_536;
