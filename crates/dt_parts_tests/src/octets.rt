//! The octets of a packet of each kind, and how octets are read.
use dt_layout::{Deltagram, LayoutFault, Packet, read_deltagram, read_packet};

/// A data packet from node 1, port 10, to node 2, port 20: life 999, number 0, all three marks,
/// and the octets `hello`.
pub static FRAME: [u8; 35] = [
    1, 1, 0, 19, 0, 0, 3, 231, 0, 0, 0, 1, 0, 0, 0, 2, 1, 7, 0, 10, 0, 20, 0, 0, 0, 0, 0, 0, 0, 0,
    104, 101, 108, 108, 111,
];

/// An acknowledgement on the way back.
pub static ACKNOWLEDGEMENT: [u8; 30] = [
    1, 1, 0, 14, 0, 0, 3, 231, 0, 0, 0, 2, 0, 0, 0, 1, 2, 0, 0, 20, 0, 10, 0, 0, 0, 5, 0, 0, 15,
    251,
];

/// The acknowledgement with the widest window, and with one that is wider.
pub static WIDEST: [u8; 30] = [
    1, 1, 0, 14, 0, 0, 3, 231, 0, 0, 0, 2, 0, 0, 0, 1, 2, 0, 0, 20, 0, 10, 0, 0, 0, 5, 0, 1, 0, 0,
];

pub static TOO_WIDE: [u8; 30] = [
    1, 1, 0, 14, 0, 0, 3, 231, 0, 0, 0, 2, 0, 0, 0, 1, 2, 0, 0, 20, 0, 10, 0, 0, 0, 5, 0, 1, 0, 1,
];

pub static RENDEZVOUS: [u8; 30] = [
    1, 1, 0, 14, 0, 0, 3, 231, 0, 0, 0, 1, 0, 0, 0, 2, 3, 0, 0, 10, 0, 20, 128, 0, 0, 0, 0, 0, 0, 0,
];

/// The rendezvous, with a life that is 744 ms less.
pub static LOWERED: [u8; 30] = [
    1, 1, 0, 14, 0, 0, 0, 255, 0, 0, 0, 1, 0, 0, 0, 2, 3, 0, 0, 10, 0, 20, 128, 0, 0, 0, 0, 0, 0, 0,
];

/// A closing packet.
pub static CLOSING: [u8; 30] = [
    2, 1, 0, 14, 0, 0, 3, 231, 0, 0, 0, 1, 0, 0, 0, 2, 4, 0, 0, 10, 0, 20, 0, 0, 0, 5, 0, 0, 0, 0,
];

/// What stands before the data of two frames of version 2, with 8,192 octets from number 0 on and
/// with the 1,808 that follow.
pub static FIRST: [u8; 30] = [
    2, 1, 32, 14, 0, 0, 3, 231, 0, 0, 0, 1, 0, 0, 0, 2, 1, 3, 0, 10, 0, 20, 0, 0, 0, 0, 0, 0, 0, 0,
];

pub static SECOND: [u8; 30] = [
    2, 1, 7, 30, 0, 0, 3, 231, 0, 0, 0, 1, 0, 0, 0, 2, 1, 4, 0, 10, 0, 20, 0, 0, 32, 0, 0, 0, 0, 0,
];

pub fn read_whole(bytes: &[u8]) -> Result<(Deltagram<'_>, Packet<'_>), LayoutFault> {
    match read_deltagram(bytes) {
        Ok(d) => match read_packet(&d) {
            Ok(packet) => Ok((d, packet)),
            Err(fault) => Err(fault),
        },
        Err(fault) => Err(fault),
    }
}

/// What refuses the octets, if something does.
pub fn fault_of(bytes: &[u8]) -> Option<LayoutFault> {
    read_whole(bytes).err()
}
