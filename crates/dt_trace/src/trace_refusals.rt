//! Why a line isn't noted.
ghost use Rattle.std.specs.Prelude.{◌≡◌};

use dt_items::NoMemory;
use dt_reports::LineFault;

/// Why a line isn't noted.
#[derive(Clone, Copy)]
pub enum TraceRefusal {
    /// The line is refused for this fault.
    Line(LineFault),
    /// There was no memory.
    NoMemory,
}

impl From<NoMemory> for TraceRefusal {
    ghost use Rattle.dt_trace.specs.declared.trace_refusals.TraceRefusal.TheVariants as refusals;

    ghost from_gives = { λ _ refusal. refusal ≡ refusals.NoMemory };

    fn from(_: NoMemory) -> Self {
        TraceRefusal::NoMemory
    }
}

impl From<LineFault> for TraceRefusal {
    ghost use Rattle.dt_trace.specs.declared.trace_refusals.TraceRefusal.TheVariants as refusals;

    ghost from_gives = { λ fault refusal. refusal ≡ refusals.Line fault };

    fn from(fault: LineFault) -> Self {
        TraceRefusal::Line(fault)
    }
}
