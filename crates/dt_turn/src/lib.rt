//! A node's turn: a station with its shelf, what a turn hands in and does, and who hears of it.
#![tactic(auto)]

mod arriving;
mod datagrams;
mod handed_in;
mod incoming;
mod nodes;
mod packet_answers;
mod turns;

pub use datagrams::{LinkDatagram, datagram_of};
pub use nodes::{Node, StationIo};
pub use turns::turn;
