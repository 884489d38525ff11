//! A shelf for packets that came too early.
#![tactic(auto)]

mod early_packet;
mod handed;
mod held;
mod shelves;
mod taken;

pub use early_packet::EarlyPacket;
pub use handed::Handed;
pub use shelves::Shelf;
pub use taken::Taken;
