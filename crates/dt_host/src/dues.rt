//! The act of a host that comes next: the least by class, then by the moment since when it is due. Of
//! equals the one of the record that was made first comes first.
ghost use Rattle.std.specs.Prelude.{◌≡◌, Some};
ghost use Rattle.dt_host.specs.Dues.{class_of, goes_first, sooner_of};

use dt_flow_model::{RecvKind, SendKind};
use dt_units::Flow;

/// What kind of act is due.
#[derive(Clone, Copy)]
pub enum DueKind {
    Send(SendKind),
    Recv(RecvKind),
}

/// An act that is due: its kind, since when it is, in milliseconds, and the flow whose record offers
/// it.
#[derive(Clone, Copy)]
pub struct DueAct {
    pub kind: DueKind,
    pub moment: u64,
    pub flow: Flow,
}

impl DueKind {
    /// The place of the kind's class in the order of acts.
    fn class(self) -> u8
        ensures { result ≡ class_of self }
    {
        match self {
            DueKind::Send(SendKind::GiveUp) => 0,
            DueKind::Send(SendKind::Release) => 1,
            DueKind::Recv(RecvKind::Release) => 2,
            DueKind::Recv(RecvKind::Ack) => 3,
            DueKind::Send(SendKind::Resend) => 4,
            DueKind::Send(SendKind::Send) => 5,
            DueKind::Send(SendKind::Meet) => 6,
        }
    }
}

impl DueAct {
    /// Whether it comes before an act of a record that was made before its own.
    fn goes_before(self, other: DueAct) -> bool
        ensures { result ≡ goes_first self other }
    {
        let class = self.kind.class();
        let others = other.kind.class();
        class < others || (class == others && self.moment < other.moment)
    }

    /// It or the one that came first so far: the one that comes first.
    pub fn first_of(self, best: Option<DueAct>) -> Option<DueAct>
        ensures { result ≡ Some (sooner_of best self) }
    {
        match best {
            Some(best) if !self.goes_before(best) => Some(best),
            Some(_) | None => Some(self),
        }
    }
}
