//! The calls of a world over messages: a call is sent as a message on its flow, its server answers it in a
//! message on the flow the other way, and each call is served at most once, whatever the links and the
//! stations do. What is reported of them is reported to whoever listens; nothing here knows of any text.
#![tactic(auto)]

mod call_courses;
mod call_events;
mod making;
mod reading;
mod unsure_calls;
mod world_calls;

pub use call_events::CallEvent;
pub use dt_calls_model::{Call, CallState};
pub use world_calls::Calls;
