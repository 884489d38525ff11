//! The memory of a service handle in C: an open service or none, its guard, its shelf, and what was given with its calls.
use crate::call_users::CallUsers;
use dt_early::EarlyShelf;
use dt_endpoint::Guard;
use dt_service::Service;

/// What a handle of a service holds: a service, or none.
#[derive(Drop)]
pub struct ServiceSlot {
    pub service: Option<Service>,
    /// What stands before the service.
    pub guard: Guard,
    /// What holds data that came too early, where it is asked for. It stands between the two.
    pub shelf: Option<EarlyShelf>,
    /// What was given with its calls.
    pub users: CallUsers,
}

/// The memory of a handle of a service, as C sees it.
#[repr(C)]
#[derive(Drop)]
pub struct ServiceHandle {
    opaque: u8,
}
