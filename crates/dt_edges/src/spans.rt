//! The place of a datagram in the shared octets of an inbox in memory: its link, its start and its end.

/// Where the octets of a datagram stand among those of others, and its link.
#[derive(Clone, Copy)]
pub struct Span {
    pub(crate) link: u16,
    pub(crate) start: usize,
    pub(crate) end: usize,
}
