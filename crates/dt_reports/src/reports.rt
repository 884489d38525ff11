//! What is reported in the log; what each report says of octets, packets and lives, and whether a station
//! itself makes it: one row a report.
ghost use Rattle.std.specs.Prelude.{◌≡◌};
ghost use Rattle.dt_reports.specs.Matters.{matter_of, matter_seen, station_report_of};
ghost use Rattle.dt_reports.specs.Told.{told, without_octets};

use crate::faults::{Fault, Refusal};
use crate::matters::Matter;
use crate::station_reports::StationReport;
use dt_layout::LayoutFault;
use dt_units::Flow;

/// What is reported in the log. Counts, lengths and windows are octets.
#[derive(Clone, Copy)]
pub enum Report<'a> {
    /// A send was taken.
    Took {
        flow: Flow,
        count: u32,
    },
    /// A send was refused.
    Refused {
        flow: Flow,
        fault: Refusal,
    },
    /// A segment went for the first time.
    Sent {
        flow: Flow,
        number: u32,
        length: u32,
        drf: bool,
        begin: bool,
        end: bool,
    },
    /// A segment went again.
    Resent {
        flow: Flow,
        number: u32,
        length: u32,
        drf: bool,
        begin: bool,
        end: bool,
    },
    /// A rendezvous went out.
    Met {
        flow: Flow,
        number: u32,
    },
    /// A segment was given up.
    Uncertain {
        flow: Flow,
        count: u32,
    },
    /// A record was released: the send record, or else the receive record.
    Released {
        flow: Flow,
        sending: bool,
    },
    /// A send record began again.
    Renewed {
        flow: Flow,
    },
    /// An owed acknowledgement went out.
    Acked {
        flow: Flow,
        number: u32,
        window: u32,
    },
    /// A reply went out at once.
    Replied {
        flow: Flow,
        number: u32,
        window: u32,
    },
    /// Data was accepted. A run mark says that the receiver doesn't know what stood before it.
    Accepted {
        flow: Flow,
        number: u32,
        length: u32,
        run: bool,
    },
    /// A packet was dropped: data that doesn't begin a data run, where there was no record, or a
    /// closing packet whose number isn't the one that is expected.
    Dropped {
        flow: Flow,
        number: u32,
    },
    /// A closing packet says that no more data of its run follows. The number is the one after the
    /// run's last octet.
    Closing {
        flow: Flow,
        number: u32,
    },
    /// An acknowledgement was used.
    Settled {
        flow: Flow,
        count: u32,
        window: u32,
    },
    /// An acknowledgement changed nothing.
    Ignored {
        flow: Flow,
        number: u32,
        window: u32,
    },
    /// A packet met quiet time, which ends where the host's own clock reads `until` ms.
    Quiet {
        until: u64,
    },
    /// A piece was read.
    Read {
        flow: Flow,
        run: bool,
        begin: bool,
        end: bool,
        octets: &'a [u8],
    },
    /// A read found nothing.
    Nothing {
        flow: Flow,
    },
    /// A packet left on a link with a life of `life` ms.
    Put {
        link: u16,
        life: u32,
    },
    /// The same in the world, which numbers the copies and reports this in place of `Put`.
    PutAs {
        link: u16,
        life: u32,
        copy: u64,
    },
    /// An arrival had no life left.
    ExpiredIn {
        link: u16,
    },
    /// A waiting packet had no life left.
    ExpiredOut {
        link: u16,
    },
    /// No route names the node.
    NoRoute {
        to: u32,
    },
    /// As many packets as may wait on the link waited.
    Full {
        link: u16,
    },
    /// Octets came that don't read.
    Bad {
        fault: LayoutFault,
    },
    /// The wire didn't take a packet.
    Unsent {
        link: u16,
    },
    /// Data that came too early was put on the shelf. The number is that of its first octet.
    Shelved {
        flow: Flow,
        number: u32,
    },
    /// Data came too early, and the shelf was full.
    NoShelf {
        flow: Flow,
        number: u32,
    },
    /// Data left the shelf and arrives again.
    Again {
        flow: Flow,
        number: u32,
    },
    /// Data left the shelf, but too little of its life is left for it to arrive again.
    Stale {
        flow: Flow,
        number: u32,
    },
    /// A station restarted, and this is its life number.
    Restarted {
        life: u32,
    },
    /// The world lost a copy.
    Lost {
        copy: u32,
    },
    /// The totals of a flow over all lives, at the end of a replay: see [`crate::Totals`].
    FlowTotals {
        flow: Flow,
        taken: u64,
        acked: u64,
        uncertain: u64,
        unsettled: u64,
        given: u64,
        read: u64,
    },
    /// The run ended.
    End,
    /// The line with this number, counted from 1, was refused.
    Fault {
        line: u64,
        fault: Fault,
    },
}

/// A match on a report, with one row a report of which every field is kept.
macro_rules! keeping {
    ($report:expr; $($told:ident { $($field:ident),* },)*; $($other:pat => $kept:expr,)*) => {
        match $report {
            $(Report::$told { $($field),* } => Report::$told { $($field),* },)*
            $($other => $kept,)*
        }
    };
}

/// A match on a report, with one row a report that a station makes, of which every field is kept.
macro_rules! made_by_station {
    ($report:expr; $($made:ident { $($field:ident),* },)*; $($other:pat => $kept:expr,)*) => {
        match $report {
            $(Report::$made { $($field),* } => Some(StationReport::$made { $($field),* }),)*
            $($other => $kept,)*
        }
    };
}

impl<'a> Report<'a> {
    /// What the report says of octets, packets and lives: one row a report.
    pub fn matter(&self) -> Matter<'a>
        ensures { matter_seen result ≡ matter_of (told self.now) }
    {
        match *self {
            Report::Took { flow, count } => Matter::Taken { flow, count },
            Report::Refused { flow, fault } => Matter::Refused { flow, fault },
            Report::Sent {
                flow,
                number,
                length: count,
                ..
            } => Matter::Transmitted {
                flow,
                number,
                count,
            },
            Report::Resent { flow, .. } | Report::Met { flow, .. } => Matter::Retransmitted {
                flow,
            },
            Report::Uncertain { flow, count } => Matter::GivenUp { flow, count },
            Report::Settled {
                flow,
                count,
                window,
            } => Matter::Acknowledged {
                flow,
                count,
                window,
            },
            Report::Accepted {
                flow,
                number,
                length: count,
                run,
            } => Matter::Accepted {
                flow,
                number,
                count,
                run,
            },
            Report::Replied { flow, number, .. } => Matter::Replied { flow, number },
            Report::Dropped { flow, .. } => Matter::Dropped { flow },
            Report::Read {
                flow,
                run,
                begin,
                end,
                octets,
            } => Matter::ReadOut {
                flow,
                run,
                begin,
                end,
                octets,
            },
            Report::Nothing { flow } => Matter::NothingRead { flow },
            Report::Put { link, life } => Matter::Left { link, life },
            Report::Restarted { life } => Matter::Begun { life },
            Report::Released { .. }
            | Report::Renewed { .. }
            | Report::Acked { .. }
            | Report::Closing { .. }
            | Report::Ignored { .. }
            | Report::Quiet { .. }
            | Report::PutAs { .. }
            | Report::ExpiredIn { .. }
            | Report::ExpiredOut { .. }
            | Report::NoRoute { .. }
            | Report::Full { .. }
            | Report::Bad { .. }
            | Report::Unsent { .. }
            | Report::Shelved { .. }
            | Report::NoShelf { .. }
            | Report::Again { .. }
            | Report::Stale { .. }
            | Report::Lost { .. }
            | Report::FlowTotals { .. }
            | Report::End
            | Report::Fault { .. } => Matter::Neither,
        }
    }

    /// The report as a station itself makes it, whoever drives it, or `None` where it is one of a world, a
    /// node or a run: one row a report.
    pub fn station_report(&self) -> Option<StationReport>
        ensures { result ≡ station_report_of (told self.now) }
    {
        made_by_station! { *self;
            Took { flow, count },
            Refused { flow, fault },
            Sent { flow, number, length, drf, begin, end },
            Resent { flow, number, length, drf, begin, end },
            Met { flow, number },
            Uncertain { flow, count },
            Released { flow, sending },
            Renewed { flow },
            Acked { flow, number, window },
            Replied { flow, number, window },
            Accepted { flow, number, length, run },
            Dropped { flow, number },
            Closing { flow, number },
            Settled { flow, count, window },
            Ignored { flow, number, window },
            Quiet { until },
            Nothing { flow },
            Put { link, life },
            ExpiredIn { link },
            ExpiredOut { link },
            NoRoute { to },
            Full { link },
            Bad { fault },
            ;
            Report::Read { flow, run, begin, end, .. } =>
                Some(StationReport::Read { flow, run, begin, end }),
            Report::PutAs { .. } | Report::Lost { .. } | Report::Restarted { .. } | Report::Unsent { .. } => None,
            Report::Shelved { .. } | Report::NoShelf { .. } | Report::Again { .. } | Report::Stale { .. } => None,
            Report::FlowTotals { .. } | Report::End | Report::Fault { .. } => None,
        }
    }

    /// The report without the octets of a piece that was read, which are known by their count no more
    /// either: one row a report.
    pub fn without_octets(&self) -> Report<'static>
        ensures { told result ≡ without_octets (told self.now) }
    {
        keeping! { *self;
            Took { flow, count },
            Refused { flow, fault },
            Sent { flow, number, length, drf, begin, end },
            Resent { flow, number, length, drf, begin, end },
            Met { flow, number },
            Uncertain { flow, count },
            Released { flow, sending },
            Renewed { flow },
            Acked { flow, number, window },
            Replied { flow, number, window },
            Accepted { flow, number, length, run },
            Dropped { flow, number },
            Closing { flow, number },
            Settled { flow, count, window },
            Ignored { flow, number, window },
            Quiet { until },
            Nothing { flow },
            Put { link, life },
            PutAs { link, life, copy },
            ExpiredIn { link },
            ExpiredOut { link },
            NoRoute { to },
            Full { link },
            Bad { fault },
            Unsent { link },
            Shelved { flow, number },
            NoShelf { flow, number },
            Again { flow, number },
            Stale { flow, number },
            Restarted { life },
            Lost { copy },
            FlowTotals { flow, taken, acked, uncertain, unsettled, given, read },
            Fault { line, fault },
            ;
            Report::Read { flow, run, begin, end, .. } => Report::Read { flow, run, begin, end, octets: &[] },
            Report::End => Report::End,
        }
    }
}
