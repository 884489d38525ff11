//! One station: a host and a relay, and what they do in one event.
#![tactic(auto)]

mod arrivals;
mod events;
mod flushing;
mod laws;
mod local_events;
mod passing;
mod starts;
mod stations;
mod telling;
mod turning;
mod visitor;

pub use dt_relay::{InLink, OutLink, Route};
pub use events::{LocalEvent, StationEvent};
pub use laws::octets_that_do_not_read_change_nothing;
pub use stations::Station;
pub use visitor::Visitor;
