//! An IPv4 address with a UDP port, and a peer: the number of a link and the address at its other end.

/// An IPv4 address and a UDP port.
#[derive(Clone, Copy, Debug, PartialEq, Eq)]
pub struct Address {
    /// The four numbers of the address, as they are written from left to right.
    pub ip: [u8; 4],
    /// The port, 0 to 65,535.
    pub port: u16,
}

/// The other end of a link, in both directions.
#[derive(Clone, Copy)]
pub struct Peer {
    /// The number of the link, 0 to 255.
    pub link: u16,
    /// Where datagrams of the link come from and go to.
    pub address: Address,
}
