//! The receiver of a flow: the octets that are unread, and a receive record or none. What it does with
//! a packet goes by a table of cases.
#![tactic(auto)]

mod acknowledgements;
mod cases;
mod receivers;
mod records;
mod segment;

pub use cases::action;
pub use dt_flow_model::{Action, Arrived, RecvAct, RecvKind, RecvMoments};
pub use receivers::Receiver;
pub use segment::Segment;
