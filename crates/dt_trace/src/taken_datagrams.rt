//! A datagram in a trace: its link and its octets.

/// A datagram that a take found.
#[derive(Drop)]
pub struct TakenDatagram {
    pub link: u8,
    pub octets: Vec<u8>,
}
