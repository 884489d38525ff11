//! Counters of a wire: its opens, takes and gives, their faults, and the wait of the last take.

/// How often a wire was called, and how often a call failed. Each count stands still at 2^64 - 1.
#[derive(Clone, Copy)]
pub struct WireCounts {
    pub opens: u64,
    /// How long the last take was to wait, in ms.
    pub last_wait: Option<u32>,
    pub takes: u64,
    /// How many opens and takes failed.
    pub take_faults: u64,
    pub gives: u64,
    pub give_faults: u64,
}
