//! A request as it is sent, and a lane as it is stored.
use dt_orders_model::{Called, Lane};

/// What a client sends before the body of an order: the call, and the lane that it is on.
#[derive(Clone, Copy)]
pub struct Request {
    pub lane: u32,
    pub called: Called,
}

/// A lane with its number, which no other lane of the client has.
#[derive(Clone, Copy)]
pub struct NumberedLane {
    pub number: u32,
    pub lane: Lane,
}
