//! The octets of a valid datagram that arrived, with the number of its link.
use dt_layout::GramOctets;

/// A datagram that came on a link and reads as a Deltagram.
#[derive(Clone, Copy)]
pub struct Incoming<'a> {
    pub link: u16,
    pub gram: GramOctets<'a>,
}
