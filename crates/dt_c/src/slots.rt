//! The content of a handle: an open node or none, its guard, its shelf and its message assembly; and the handle as C sees it.
use dt_early::EarlyShelf;
use dt_endpoint::{Endpoint, Guard};
use dt_inbox::Mailbox;

/// What a handle holds: a node, or none.
#[derive(Drop)]
pub struct Slot {
    pub endpoint: Option<Endpoint>,
    /// What stands before the node.
    pub guard: Guard,
    /// What holds data that came too early, where it is asked for. It stands between the two.
    pub shelf: Option<EarlyShelf>,
    /// Its whole messages, where they are asked for.
    pub mailbox: Option<Mailbox>,
}

/// The memory of a handle, as C sees it.
#[repr(C)]
#[derive(Drop)]
pub struct Handle {
    opaque: u8,
}
