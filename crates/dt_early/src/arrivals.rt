//! A datagram that comes, as it is handed in.

/// A datagram that came on a link at the moment `now`, after it waited so many milliseconds on this machine.
#[derive(Clone, Copy)]
pub struct Arrival<'a> {
    /// In milliseconds.
    pub now: u64,
    pub link: u16,
    pub datagram: &'a [u8],
    pub waited: u32,
}
