//! A shelf before an endpoint or a service: data that came too early wait there for their place.
#![tactic(auto)]

mod arrivals;
mod early_data;
mod held;
mod laws;
mod shelves;

pub use arrivals::Arrival;
pub use laws::{delays_go_on, shelf_is_a_link_that_delays};
pub use shelves::EarlyShelf;
