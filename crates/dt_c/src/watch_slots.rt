//! The memory of a watch in C: what is known of a peer, and how much may be under way to it.
use dt_watch::{Watch, Window};

/// What a handle of a watch holds: nothing until it is opened.
#[derive(Clone, Copy)]
pub struct WatchSlot {
    pub watch: Option<Watch>,
    pub window: Option<Window>,
}

/// The memory of a handle of a watch, as C sees it.
#[repr(C)]
#[derive(Drop)]
pub struct WatchHandle {
    opaque: u8,
}
