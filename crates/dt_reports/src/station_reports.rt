//! What a station itself reports.
use crate::faults::Refusal;
use dt_layout::LayoutFault;
use dt_units::Flow;

/// What a station itself reports, whoever drives it: the [`Report`](crate::Report) of the same name, but
/// for the octets of a piece that was read. Counts, lengths and windows are octets.
#[derive(Clone, Copy)]
pub enum StationReport {
    /// A send was taken.
    Took {
        flow: Flow,
        count: u32,
    },
    /// A send was refused.
    Refused {
        flow: Flow,
        fault: Refusal,
    },
    /// A segment went for the first time.
    Sent {
        flow: Flow,
        number: u32,
        length: u32,
        drf: bool,
        begin: bool,
        end: bool,
    },
    /// A segment went again.
    Resent {
        flow: Flow,
        number: u32,
        length: u32,
        drf: bool,
        begin: bool,
        end: bool,
    },
    /// A rendezvous went out.
    Met {
        flow: Flow,
        number: u32,
    },
    /// A segment was given up.
    Uncertain {
        flow: Flow,
        count: u32,
    },
    /// A record was released: the send record, or else the receive record.
    Released {
        flow: Flow,
        sending: bool,
    },
    /// A send record began again.
    Renewed {
        flow: Flow,
    },
    /// An owed acknowledgement went out.
    Acked {
        flow: Flow,
        number: u32,
        window: u32,
    },
    /// A reply went out at once.
    Replied {
        flow: Flow,
        number: u32,
        window: u32,
    },
    /// Data was accepted, as a new run or not.
    Accepted {
        flow: Flow,
        number: u32,
        length: u32,
        run: bool,
    },
    /// A packet was dropped.
    Dropped {
        flow: Flow,
        number: u32,
    },
    /// No more data of a run follows: the number is the one after its last octet.
    Closing {
        flow: Flow,
        number: u32,
    },
    /// An acknowledgement was used.
    Settled {
        flow: Flow,
        count: u32,
        window: u32,
    },
    /// An acknowledgement changed nothing.
    Ignored {
        flow: Flow,
        number: u32,
        window: u32,
    },
    /// A packet met quiet time, which ends where the host's own clock reads `until` ms.
    Quiet {
        until: u64,
    },
    /// A piece was read.
    Read {
        flow: Flow,
        run: bool,
        begin: bool,
        end: bool,
    },
    /// A read found nothing.
    Nothing {
        flow: Flow,
    },
    /// A packet left on a link with a life of `life` ms.
    Put {
        link: u16,
        life: u32,
    },
    /// An arrival had no life left.
    ExpiredIn {
        link: u16,
    },
    /// A waiting packet had no life left.
    ExpiredOut {
        link: u16,
    },
    /// No route names the node.
    NoRoute {
        to: u32,
    },
    /// As many packets as may wait on the link waited.
    Full {
        link: u16,
    },
    /// Octets came that don't read.
    Bad {
        fault: LayoutFault,
    },
}
