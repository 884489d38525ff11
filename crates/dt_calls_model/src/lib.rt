//! Calls over messages in definitions: a call is a message of its client, its server answers it in a
//! message on the flow the other way, and messages are read out of the world's flows. The definitions
//! stand in specs/; here are the plain types that they share with the program.
#![tactic(auto)]

mod calls;
mod worked;

pub use calls::{Call, CallState, Posted};
pub use worked::{
    call_is_answered, call_is_unsure, call_on_the_way_of_replies_is_refused, lost_reply_is_unsure,
    repeated_request_is_served_once, request_in_two_segments, restart_makes_calls_unsure,
};
