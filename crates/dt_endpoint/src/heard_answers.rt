//! What is kept of a report.
ghost use Rattle.std.specs.Prelude.{◌≡◌};
ghost use Rattle.dt_reports.specs.Told.{told};
ghost use Rattle.dt_reports.specs.Matters.{matter_seen};
ghost use Rattle.dt_endpoint.specs.Hearing.{hears, hears_by, kept};

use dt_items::Piece;
use dt_reports::{Matter, Refusal, Report};

/// What the station answered to the call, as far as it was reported.
#[derive(Clone, Copy)]
pub enum HeardAnswer {
    /// Nothing yet.
    Nothing,
    /// A send was taken.
    Took,
    /// A send was refused.
    Refused { fault: Refusal },
    /// A read found nothing.
    NoPiece,
    /// A piece was read.
    Piece(Piece),
}

/// What is heard after a report.
pub fn heard_after(report: &Report<'_>, before: HeardAnswer) -> HeardAnswer
    ensures { result ≡ hears (told report.now) before }
{
    heard_by(report.matter(), before)
}

/// What is heard after this was said.
fn heard_by(matter: Matter<'_>, before: HeardAnswer) -> HeardAnswer
    ensures { result ≡ hears_by (matter_seen matter.entry) before }
{
    match matter {
        Matter::Taken { .. } => HeardAnswer::Took,
        Matter::Refused { fault, .. } => HeardAnswer::Refused { fault },
        Matter::NothingRead { .. } => HeardAnswer::NoPiece,
        Matter::ReadOut {
            run,
            begin,
            end,
            octets,
            ..
        } => HeardAnswer::Piece(Piece {
            len: octets.len(),
            begin,
            end,
            run,
        }),
        Matter::Transmitted { .. }
        | Matter::Retransmitted { .. }
        | Matter::GivenUp { .. }
        | Matter::Acknowledged { .. }
        | Matter::Accepted { .. }
        | Matter::Replied { .. }
        | Matter::Dropped { .. }
        | Matter::Left { .. }
        | Matter::Begun { .. }
        | Matter::Neither => before,
    }
}

/// The report without the octets of a piece, which are handed over by the read.
pub fn kept_report(report: &Report<'_>) -> Report<'static>
    ensures { told result ≡ kept (told report.now) }
{
    report.without_octets()
}
