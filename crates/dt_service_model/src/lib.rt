//! Request and reply at one node in definitions: what it keeps of its calls and of the requests that it
//! was handed, and its turns, each an event of its endpoint and then an end. The definitions stand in
//! specs/; here are the plain types that they share with the program.
#![tactic(auto)]

mod answers;
mod call_counts;
mod calls;
mod happenings;
mod laws;
mod names;
mod ports;
mod worked;

pub use answers::{Declined, Forgot, Made, Replied, Unfit};
pub use call_counts::CallCounts;
pub use calls::{Cause, OpenCall};
pub use happenings::{Happening, Payload};
pub use laws::{
    call_waits_or_ends_once, given_up_reply_is_told_once, no_cause_is_left,
    turn_that_stops_is_a_first_part,
};
pub use names::{CallNumber, Token};
pub use ports::{Most, Port, PortKind};
pub use worked::{
    answered_in_any_order, asked_again, client_restarts_at_a_slow_service, given_up_and_served,
    life_used_twice, no_room_for_a_reply, reply_given_up, reply_late, request_lost,
    server_restarts_before_its_reply, tail_and_head_lost,
};
