//! What a report says of octets, packets and lives.
use crate::faults::Refusal;
use dt_units::Flow;

/// What a report says of octets, packets and lives. Counts and windows are octets, lives of packets
/// milliseconds.
#[derive(Clone, Copy)]
pub enum Matter<'a> {
    /// `count` octets of a send were taken.
    Taken {
        flow: Flow,
        count: u32,
    },
    /// A send was refused.
    Refused {
        flow: Flow,
        fault: Refusal,
    },
    /// A segment went out for the first time.
    Transmitted {
        flow: Flow,
        number: u32,
        count: u32,
    },
    /// A segment or a rendezvous packet went out again.
    Retransmitted {
        flow: Flow,
    },
    /// `count` octets were given up.
    GivenUp {
        flow: Flow,
        count: u32,
    },
    /// `count` octets were acknowledged.
    Acknowledged {
        flow: Flow,
        count: u32,
        window: u32,
    },
    /// Octets were accepted, as a new run or not.
    Accepted {
        flow: Flow,
        number: u32,
        count: u32,
        run: bool,
    },
    /// A reply went out at once.
    Replied {
        flow: Flow,
        number: u32,
    },
    /// A packet was dropped.
    Dropped {
        flow: Flow,
    },
    /// A piece was read.
    ReadOut {
        flow: Flow,
        run: bool,
        begin: bool,
        end: bool,
        octets: &'a [u8],
    },
    /// A read found nothing.
    NothingRead {
        flow: Flow,
    },
    /// A packet left on a link.
    Left {
        link: u16,
        life: u32,
    },
    /// A station began a life.
    Begun {
        life: u32,
    },
    /// None of these.
    Neither,
}
