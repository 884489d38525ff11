//! A packet that arrived too early, with its octets lent to the shelf, which copies them if it has room.
use dt_layout::GramOctets;
use dt_units::Flow;

/// A packet that came too early, whose octets are lent.
#[derive(Clone, Copy)]
pub struct EarlyPacket<'a> {
    /// The link on which it came.
    pub link: u16,
    pub flow: Flow,
    /// The sequence number of its first octet.
    pub number: u32,
    pub gram: GramOctets<'a>,
}
