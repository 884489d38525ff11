//! Request and reply at a node: an endpoint, and beside it what the node keeps of its calls and of the
//! requests that it was handed. Its caller hands in datagrams, calls, replies and moments, and pulls frames
//! and happenings.
#![tactic(auto)]

mod reading;
mod refusals;
mod sending;
mod service_parts;
mod services;
mod turns;

pub use services::{Service, ServiceStart};
