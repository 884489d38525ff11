//! The octets of a data packet as a receiver uses them: with their sequence number, data-run flag and marks.
use dt_items::MarkedOctets;

/// A data packet's octets, and what it says of them.
#[derive(Clone, Copy)]
pub struct Segment<'a> {
    /// The sequence number of the first octet.
    pub number: u32,
    /// The data-run flag: no octet before these is still under way from this sender.
    pub drf: bool,
    /// The octets with their marks.
    pub payload: MarkedOctets<'a>,
}
