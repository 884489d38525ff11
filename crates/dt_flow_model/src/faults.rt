//! The error of a send record that has no room for the octets of a send.

/// Why a send record took no octets. It is as it was.
#[derive(Clone, Copy, Debug, PartialEq, Eq)]
pub enum PutFault {
    /// The octets don't fit: the record holds all but `free` octets of its capacity, 0 to 65,536.
    Full { free: u32 },
}
