//! Packets that wait for their link, and what they pay with their life.
#![tactic(auto)]

mod buffers;
mod carrying;
mod first_places;
mod passages;
mod queues;
mod relays;

pub use carrying::Carry;
pub use dt_flow_model::Reading;
pub use dt_world_model::{Entered, InLink, OutLink, Route};
pub use passages::Passage;
pub use queues::Left;
pub use relays::Relay;
