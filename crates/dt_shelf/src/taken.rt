//! The result of taking a packet from a shelf: the packet with its reduced life, or that it has expired.
use dt_layout::Frame;

/// What became of a packet that was taken from a shelf.
#[derive(Drop)]
pub enum Taken {
    /// It is there, with its life less by the charge for its time on the shelf.
    Again { link: u16, frame: Frame },
    /// It hadn't the life for that charge, and is gone.
    Stale,
}
