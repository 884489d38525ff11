//! The host: all records of one node, and the order of their acts.
#![tactic(auto)]

mod acts;
mod dues;
mod faults;
mod hosts;
mod laws;
mod recv_side;
mod send_side;

pub use acts::{Act, Done};
pub use dt_flow_model::{Arrived, Cut, RecvAct, SendAct};
pub use faults::SendFault;
pub use hosts::{Host, flow_of_packet};
pub use laws::other_flows_stay;
