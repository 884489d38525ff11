//! The node as a library for C. The caller gives the memory of a handle, and each call is handed a
//! pointer to it.
#![tactic(auto)]

mod c_structs;
mod call_users;
mod calls;
mod drive_exports;
mod flow_exports;
mod networks;
mod orders_exports;
mod service_calls;
mod service_events;
mod service_exports;
mod service_slots;
mod service_structs;
mod setup_exports;
mod slots;
mod watch_calls;
mod watch_exports;
mod watch_slots;
mod watch_structs;

pub use c_structs::{
    BlockedCounts, CFlow, CLink, CParams, CReport, CRoute, Datagram, FlowCounts, Message,
    NodeCounts, NodeOptions, OpenResult, ReadResult, ReceiveResult, SendResult,
};
pub use dt_orders_turns::{OrdersLane, OrdersLook, OrdersServer};
pub use networks::CNetwork;
pub use service_slots::{ServiceHandle, ServiceSlot};
pub use service_structs::{CCallCounts, CToken, CallResult, Event, ReplyResult, ServiceOptions};
pub use slots::{Handle, Slot};
pub use watch_slots::{WatchHandle, WatchSlot};
pub use watch_structs::{CArrival, CPassage, WatchOptions};
