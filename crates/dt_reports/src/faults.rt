//! The reasons to refuse a line, a setup, an event of the world, or octets to send.
ghost use Rattle.std.specs.Prelude.{◌≡◌};

use dt_items::NoMemory;
use dt_units::ParamFault;
use thiserror::Error;

/// Why a line isn't read, or isn't allowed where it stands: the first test that fails. The tests
/// come in the order of the variants, but that the words after the first are tested from left to
/// right.
#[derive(Clone, Copy, Debug, PartialEq, Eq, Error)]
pub enum LineFault {
    /// The first word isn't one of the form's, or another fixed word isn't what stands there.
    #[error("word")]
    Word,
    /// The line has more words or fewer than its kind.
    #[error("count")]
    Count,
    /// A word isn't a number of its range, or an address.
    #[error("number")]
    Number,
    /// A word isn't a flow.
    #[error("flow")]
    Flow,
    /// A word isn't a list of pairs of hexadecimal digits, or has more of them than are allowed.
    #[error("hex")]
    Hex,
    /// The line isn't allowed at its place among the lines.
    #[error("order")]
    Order,
}

/// Why a line of a setup is refused. After any of them the setup is as it was.
#[derive(Clone, Copy, Debug, Error)]
pub enum SetupFault {
    /// The station, the link or the route `n` stands already.
    #[error("twice {n}")]
    Twice { n: u32 },
    /// The station or the link `n` isn't there.
    #[error("unknown {n}")]
    Unknown { n: u32 },
    /// The link `n` doesn't lead from one station to another, or a route over it doesn't.
    #[error("stray {n}")]
    Stray { n: u32 },
    /// There was no memory.
    #[error("out of memory")]
    NoMemory,
}

impl From<NoMemory> for SetupFault {
    ghost use Rattle.dt_reports.specs.declared.faults.SetupFault.TheVariants as setup;

    ghost from_gives = { λ _ fault. fault ≡ setup.NoMemory };

    fn from(_: NoMemory) -> Self {
        SetupFault::NoMemory
    }
}

/// Why an event of the world is refused.
#[derive(Clone, Copy, Debug, Error)]
pub enum StepFault {
    /// A flow goes from a station to itself, or isn't one of the station that is asked.
    #[error("bad flow")]
    BadFlow,
    /// The station `n` isn't in the setup.
    #[error("no station {n}")]
    NoStation { n: u32 },
    /// No copy has the number `n` yet.
    #[error("no copy {n}")]
    NoCopy { n: u32 },
    /// The copy `n` was lost before.
    #[error("lost {n}")]
    Lost { n: u32 },
    /// The copy was on its link for `held` ms, which is more than the link's charge in ms.
    #[error("too late {held} {charge}")]
    TooLate { held: u64, charge: u32 },
    /// There was no memory.
    #[error("out of memory")]
    NoMemory,
}

impl From<NoMemory> for StepFault {
    ghost use Rattle.dt_reports.specs.declared.faults.StepFault.TheVariants as step;

    ghost from_gives = { λ _ fault. fault ≡ step.NoMemory };

    fn from(_: NoMemory) -> Self {
        StepFault::NoMemory
    }
}

/// Why a line of an input is refused. Want of memory isn't among the texts: it isn't printed.
#[derive(Clone, Copy, Debug)]
pub enum Fault {
    /// The line isn't read, or isn't allowed at its place.
    Line(LineFault),
    /// A parameter is out of its range.
    Param(ParamFault),
    /// The setup refuses the line.
    Setup(SetupFault),
    /// The event is refused.
    Step(StepFault),
}

/// Why a station refuses to take octets to send.
#[derive(Clone, Copy, Debug, PartialEq, Eq)]
pub enum Refusal {
    /// The host is silent after a restart until its own clock reads `until` ms.
    Quiet { until: u64 },
    /// The send record has room for `free` octets only.
    Full { free: u32 },
}
