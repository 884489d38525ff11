//! Whole messages, taken out of an endpoint.
#![tactic(auto)]

mod flow_inboxes;
mod inboxes;
mod mailboxes;

pub use dt_messages::Message;
pub use flow_inboxes::FlowInboxes;
pub use inboxes::{Inbox, TakenMessage};
pub use mailboxes::{Handed, Mailbox};
