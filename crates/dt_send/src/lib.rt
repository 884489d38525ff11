//! The send record of a flow: what its sender holds, when each of its acts is due, and the acts.
#![tactic(auto)]

mod act_contexts;
mod dues;
mod kept_segments;
mod numbering;
mod octets;
mod send_buffer;
mod senders;
mod sent_segments;

pub use dt_flow_model::{Cut, PutFault, SendAct, SendKind, SendMoments};
pub use senders::Sender;
