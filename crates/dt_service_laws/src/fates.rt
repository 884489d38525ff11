//! What becomes of calls over a network of services.
ghost use Rattle.std.specs.Prelude.{ℕ, ◌≤◌, List, ◌∷◌};
ghost use Rattle.dt_units.specs.declared.endpoints.Flow.{Flow};
ghost use Rattle.dt_units.specs.Limits.{IsWithinLimits};
ghost use Rattle.dt_network.specs.Network.{Setup};
ghost use Rattle.dt_service_model.specs.declared.names.CallNumber.{CallNumber};
ghost use Rattle.dt_service_model.specs.declared.ports.PortKind.{PortKind};
ghost use Rattle.dt_service_model.specs.declared.ports.Most.{Most};
ghost use Rattle.dt_service_model.specs.Accounts.{ends_in};
ghost use Rattle.dt_service_laws.specs.Causes.{TellCauses};
ghost use Rattle.dt_service_laws.specs.Fates.{calls_at, told_at};
ghost use Rattle.dt_service_laws.specs.Histories.{count_of, lives_at};
ghost use Rattle.dt_service_laws.specs.Outcomes.{AreAccounted, AreAllPatient, HasOneFate};
ghost use Rattle.dt_service_laws.specs.Premises.{Differ, IsLife, IsServed, KeepsKinds, KeepsTurns};
ghost use Rattle.dt_service_laws.specs.Services.{Turn, new_services, services_by};

use crate::requests::{
    answers_are_what_the_service_gave, services_take_calls_that_are_made_and_nothing_else,
};

/// EACH CALL ENDS ONCE. Where programs keep their duties, whichever turns find no memory, and however often
/// nodes open again: of the calls that were made at a node each has, by its number, one end that the node
/// reported, or waits there, or was lost with its program, to whom nothing is reported any more. Only of a call
/// that found no memory it isn't known whether it was made; if it was, its end is reported in that turn. Where
/// the lives of a node differ one call at most has a number: so it ends once at most, and what has ended
/// neither waits nor ends again.
pub fn calls_end_once()
    ensures accounts { (setup : Setup) (most : ℕ → Most) (life : ℕ → ℕ) (turns : List Turn) (node : ℕ) → KeepsTurns setup turns (new_services setup most life) → AreAccounted setup node turns (new_services setup most life) }
    ensures once { (setup : Setup) (most : ℕ → Most) (life : ℕ → ℕ) (turns : List Turn) (node : ℕ) (name : CallNumber) → KeepsTurns setup turns (new_services setup most life) → Differ (life node ∷ lives_at node setup turns (new_services setup most life)) → count_of name (calls_at node setup turns (new_services setup most life)) ≤ 1 }
    ensures ends { (setup : Setup) (most : ℕ → Most) (life : ℕ → ℕ) (turns : List Turn) (node : ℕ) (name : CallNumber) → KeepsTurns setup turns (new_services setup most life) → Differ (life node ∷ lives_at node setup turns (new_services setup most life)) → ends_in name (told_at node setup turns (new_services setup most life)) ≤ 1 }
{}

/// CALLS ARE UNSURE FOR THEIR CAUSES ALONE. Where programs keep their duties, however often nodes open again:
/// where a turn reports a call unsure, an octet of its request was given up within that turn, as its node
/// heard; or it waited still and its deadline had come; or its node closed, as it does where a turn finds no
/// memory. And each cause ends a call: one of whose request an octet is given up within a turn is reported
/// unsure in it unless it is answered there, none waits after a turn whose deadline has come, and none at
/// a node that is closed.
pub fn calls_are_unsure_for_their_causes()
    ensures told { (setup : Setup) (most : ℕ → Most) (life : ℕ → ℕ) (turns : List Turn) → KeepsTurns setup turns (new_services setup most life) → TellCauses setup turns (new_services setup most life) }
    ensures waits { (setup : Setup) (most : ℕ → Most) (life : ℕ → ℕ) (turns : List Turn) → KeepsTurns setup turns (new_services setup most life) → AreAllPatient (services_by setup turns (new_services setup most life)) }
{}

/// THE FATE OF A CALL. Over a network of services, whatever was lost, came again or came late, whichever
/// turns found no memory, and however often nodes died and opened again: a name is that of one call at
/// most, and where the call was made it has one end, or waits, or was lost with its program. Answered, it
/// has what its service gave to it; unsure, it has one of three causes; and of a call that was declined or
/// refused nothing was taken.
pub fn calls_end_once_for_their_causes()
    ensures { (setup : Setup) (most : ℕ → Most) (life : ℕ → ℕ) (kinds : ℕ → ℕ → PortKind) (turns : List Turn) (f : Flow) → IsWithinLimits setup.params → ((n : ℕ) → IsLife (life n)) → KeepsKinds kinds turns → IsServed kinds f → KeepsTurns setup turns (new_services setup most life) → Differ (life f.from.0 ∷ lives_at f.from.0 setup turns (new_services setup most life)) → (name : CallNumber) → HasOneFate setup f turns (new_services setup most life) name }
{
    calls_end_once();
    calls_are_unsure_for_their_causes();
    answers_are_what_the_service_gave();
    services_take_calls_that_are_made_and_nothing_else();
}
