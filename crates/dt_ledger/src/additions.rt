//! The additions to the ledger of a flow: octets that were taken, given or read.
use crate::given_octets::GivenOctets;
use dt_items::MarkedOctets;

/// What is added to the ledger of a flow.
#[derive(Clone, Copy)]
pub enum Addition<'a> {
    /// Octets were taken in a life of the sending station.
    Taken { life: u32, octets: MarkedOctets<'a> },
    /// Octets were given to the receiver.
    Given { octets: GivenOctets<'a> },
    /// So many octets were read in a life of the receiving station.
    Read { life: u32, count: u64 },
}
