//! What a report says of the world.
ghost use Rattle.std.specs.Prelude.{◌≡◌};
ghost use Rattle.dt_reports.specs.Told.{told};
ghost use Rattle.dt_reports.specs.Matters.{matter_seen};
ghost use Rattle.dt_world_model.specs.Ledgers.{effect_by, effect_of};
ghost use Rattle.dt_notes.specs.Effects.{effect_seen};
ghost use Rattle.dt_notes.specs.declared.effects.Change.TheVariants as change;
ghost use Rattle.dt_notes.specs.declared.effects.Effect.TheVariants as variant;

use dt_reports::{Matter, Report};
use dt_units::Flow;

/// What a flow's sender does with octets that it took.
#[derive(Clone, Copy)]
pub enum SenderStep {
    /// `count` octets went out for the first time.
    Transmits { count: u32 },
    /// A segment went out again, or a rendezvous packet did.
    TransmitsAgain,
    /// `count` octets were given up.
    GivesUp { count: u32 },
    /// `count` octets were acknowledged.
    Settles { count: u32 },
}

/// What becomes of a flow's octets.
#[derive(Clone, Copy)]
pub enum Change {
    /// Octets were taken.
    Takes,
    /// The flow's sender did something with octets that it took.
    Sends { step: SenderStep },
    /// Octets were accepted, as a new run or not.
    Accepts { run: bool },
    /// `count` octets were read.
    ReadsOut { count: u64 },
}

/// What a report says of the world.
#[derive(Clone, Copy)]
pub enum Effect {
    /// The ledger and the run of a flow change.
    Changes { flow: Flow, change: Change },
    /// A packet left a station.
    Leaves { link: u16, life: u32 },
    /// Nothing.
    Neither,
}

/// What a report says of the world.
pub fn effect_of(report: &Report<'_>) -> Effect
    ensures { effect_seen result ≡ effect_of (told report.now) }
{
    effect_by(report.matter())
}

/// What is said of octets, packets and lives, as the world has it.
fn effect_by(matter: Matter<'_>) -> Effect
    ensures { effect_seen result ≡ effect_by (matter_seen matter.entry) }
{
    match matter {
        Matter::Taken { flow, .. } => changes(flow, Change::Takes),
        Matter::Transmitted { flow, count, .. } => sends(flow, SenderStep::Transmits { count }),
        Matter::Retransmitted { flow } => sends(flow, SenderStep::TransmitsAgain),
        Matter::GivenUp { flow, count } => sends(flow, SenderStep::GivesUp { count }),
        Matter::Acknowledged { flow, count, .. } => sends(flow, SenderStep::Settles { count }),
        Matter::Accepted { flow, run, .. } => changes(flow, Change::Accepts { run }),
        Matter::ReadOut { flow, octets, .. } => {
            let count = octets.len() as u64;
            changes(flow, Change::ReadsOut { count })
        }
        Matter::Left { link, life } => Effect::Leaves { link, life },
        Matter::Refused { .. }
        | Matter::Replied { .. }
        | Matter::Dropped { .. }
        | Matter::NothingRead { .. }
        | Matter::Begun { .. }
        | Matter::Neither => Effect::Neither,
    }
}

fn changes(flow: Flow, change: Change) -> Effect
    ensures { result ≡ variant.Changes flow change }
{
    Effect::Changes { flow, change }
}

fn sends(flow: Flow, step: SenderStep) -> Effect
    ensures { result ≡ variant.Changes flow (change.Sends step) }
{
    changes(flow, Change::Sends { step })
}
