//! The open calls of a caller, in the order of making, of which each is found by what it is: by its number, by
//! its flow, and by the moment at which something is due of it.
#![tactic(auto)]

mod call_index;
mod ends;
mod fates;
mod judging;
mod open_calls;
mod search;
mod slots;
mod spans;

pub use open_calls::OpenCalls;
