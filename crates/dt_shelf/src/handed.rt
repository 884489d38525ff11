//! The result of taking a packet off a shelf: the packet has a shorter lifetime, or has expired.

/// What became of a packet that was taken from a shelf, whose octets are the caller's already.
#[derive(Clone, Copy)]
pub enum Handed {
    /// It is there, with its life less by the charge for its time on the shelf. It came on this link.
    Again { link: u16 },
    /// It hadn't the life for that charge, and is gone.
    Stale,
}
