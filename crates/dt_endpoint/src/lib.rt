//! An endpoint: a station without a socket, a clock or a thread of its own. Its caller hands in datagrams,
//! octets and moments, and pulls frames and reports.
#![tactic(auto)]

mod answers;
mod collectors;
mod counts;
mod endpoints;
mod events;
mod followed_totals;
mod frames;
mod guards;
mod heard_answers;
mod laws;
mod links;

pub use answers::{Delivered, Received, Routed, Sent, Ticked};
pub use counts::{Counts, Octets};
pub use dt_station::{InLink, OutLink, Route};
pub use endpoints::Endpoint;
pub use frames::OutFrame;
pub use guards::{Admission, Guard};
pub use laws::{datagram_that_waited_keeps_the_facts, endpoint_follows_the_world};
pub use links::Links;
