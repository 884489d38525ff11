//! Where octets come from and go to: sources, sinks, the wire and the clock, their forms in memory,
//! and the adapters over the process's own streams.
#![tactic(auto)]

mod addresses;
mod buffers;
mod clocks;
mod failures;
mod mem_clocks;
mod mem_inboxes;
mod mem_outboxes;
mod mem_sinks;
mod mem_sources;
mod mem_wires;
mod planning;
mod readers;
mod sinks;
mod sources;
mod spans;
mod wires;
mod writers;

pub use addresses::{Address, Peer};
pub use buffers::{Buffer, Buffered};
pub use clocks::Clock;
pub use failures::Failed;
pub use mem_clocks::MemClock;
pub use mem_sinks::MemSink;
pub use mem_sources::MemSource;
pub use mem_wires::MemWire;
pub use readers::ReaderSource;
pub use sinks::{Sink, put_all};
pub use sources::Source;
pub use wires::Wire;
pub use writers::WriterSink;
