//! Octets with their marks, the queue of those that are unread, and the one answer for want of
//! memory.
#![tactic(auto)]

mod item;
mod marked_octets;
mod memory;
mod octets;
mod piece;
mod unread;

pub use item::Item;
pub use marked_octets::MarkedOctets;
pub use memory::NoMemory;
pub use octets::{copy_octets, item_in, unmarked_from};
pub use piece::Piece;
pub use unread::{Queue, append_marked};
