//! The flaws that an audit can find in a log: a malformed line, a stray fact or a broken promise.
ghost use Rattle.std.specs.Prelude.{◌≡◌};
ghost use Rattle.dt_audit.specs.Flaws.{promise_text};

use dt_reports::LineFault;

/// What a log can break.
#[derive(Clone, Copy)]
pub enum Promise {
    /// The places of accepted octets rise.
    InOrder,
    /// Each place that was passed over was given up, or is of an earlier life of its sender.
    SkipsReported,
    /// What is acknowledged was accepted.
    AcknowledgedIsGiven,
    /// Accepted octets without a run mark follow those before them, in the same life of the receiver.
    RunsUnbroken,
}

/// What is wrong with a line of a log.
#[derive(Clone, Copy)]
pub enum Flaw {
    /// It states a fact and isn't written as the log writes it.
    Line(LineFault),
    /// It speaks of octets that aren't there, or of a life that doesn't come next.
    Stray,
    /// What it states breaks a promise.
    Breaks(Promise),
}

impl Promise {
    /// The number by which the log of an audit names it.
    pub fn name(self) -> &'static str
        ensures { result.now ≡ promise_text self }
    {
        match self {
            Promise::InOrder => "S1",
            Promise::SkipsReported => "S3",
            Promise::AcknowledgedIsGiven => "S4",
            Promise::RunsUnbroken => "S6",
        }
    }
}
