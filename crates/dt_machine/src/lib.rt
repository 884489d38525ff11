//! The machine's own wire and clock: a UDP socket, whose datagrams wait at most 20 ms in this machine,
//! and the time since the first reading. No contract can say what a socket gives or takes, so these
//! adapters are trusted, and tell nothing but counts.
#![tactic(auto)]

mod backlogs;
mod hastes;
mod intakes;
mod machine_clock;
mod moments;
mod names;
mod peers;
mod sockets;
mod udp_wire;
mod uptime;
mod waits;
mod wire_counts;

pub use backlogs::{Backlog, ReceivedDatagram};
pub use hastes::Haste;
pub use machine_clock::MachineClock;
pub use moments::Moments;
pub use udp_wire::UdpWire;
pub use waits::may_have_waited;
