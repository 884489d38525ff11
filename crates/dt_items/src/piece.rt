//! The result of a read from a queue: how many octets were read, and the marks of the first and the last one.

/// What a read took: octets of one message, or of one part of a message. An end mark stands only
/// on the last of them, and a begin or run mark only on the first.
#[derive(Clone, Copy, PartialEq, Eq)]
pub struct Piece {
    /// The number of octets, at least 1.
    pub len: usize,
    /// The first octet has a begin mark.
    pub begin: bool,
    /// The last octet has an end mark.
    pub end: bool,
    /// The first octet has a run mark.
    pub run: bool,
}
