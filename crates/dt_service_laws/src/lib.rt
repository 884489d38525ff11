//! Laws of whole messages, and of request and reply between nodes. Each law is the contract of a public
//! function whose body names the laws of networks that it stands on, and does nothing.
#![tactic(auto)]

mod fates;
mod messages;
mod requests;
mod worked;

pub use fates::{
    calls_are_unsure_for_their_causes, calls_end_once, calls_end_once_for_their_causes,
};
pub use messages::{
    messages_sent_whole_are_those_that_were_sent, whole_messages_come_once_and_in_order,
};
pub use requests::{
    answers_are_what_the_service_gave, names_are_called_handed_out_and_replied_to_once,
    requests_are_calls_once_and_in_their_order, services_take_calls_that_are_made_and_nothing_else,
};
pub use worked::{
    call_is_answered, call_that_is_handed_out_keeps_the_duties, client_finds_no_memory,
    client_starts_again, client_that_starts_again_keeps_the_duties, service_finds_no_memory,
    unlisted_client_is_answered,
};
