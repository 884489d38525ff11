//! What a node has beside its endpoint for request and reply, and each thing that the definitions do to
//! it: the open calls of a caller and the open requests of a service, without an endpoint.
#![tactic(auto)]

mod asked;
mod begun_messages;
mod call_book;
mod closing;
mod happenings;
mod numbers;
mod ports;
mod reports;
mod uncertain;
mod whole;

pub use asked::carried;
pub use call_book::CallBook;
pub use dt_messages::reversed;
pub use numbers::write_message;
pub use whole::LONGEST_MESSAGE;
