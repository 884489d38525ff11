//! Whole messages, put together from the pieces that are read, and the messages of calls.
#![tactic(auto)]

mod call_messages;
mod joiners;
mod laws;

pub use call_messages::{read_message, reversed, write_message};
pub use joiners::{Joiner, Marks, Message};
pub use laws::{joiner_without_a_longest_is_the_definition, message_too_long_leaves_a_gap};
