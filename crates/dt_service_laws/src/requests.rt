//! Requests and replies over a network of services.
ghost use Rattle.std.specs.Prelude.{ℕ, ◌<◌, ◌≤◌, Contains, List, ◌∷◌};
ghost use Rattle.dt_units.specs.declared.endpoints.Flow.{Flow};
ghost use Rattle.dt_units.specs.Limits.{IsWithinLimits};
ghost use Rattle.dt_network.specs.Network.{Setup};
ghost use Rattle.dt_service_model.specs.declared.names.CallNumber.{CallNumber};
ghost use Rattle.dt_service_model.specs.declared.ports.PortKind.{PortKind};
ghost use Rattle.dt_service_model.specs.declared.ports.Most.{Most};
ghost use Rattle.dt_service_laws.specs.Histories.{Message, answers_at, calls_on, count_of, lives_at, replies_on, requests_on};
ghost use Rattle.dt_service_laws.specs.Orders.{AreSomeOf};
ghost use Rattle.dt_service_laws.specs.Premises.{Differ, IsLife, IsServed, KeepsKinds, KeepsTurns};
ghost use Rattle.dt_service_laws.specs.Services.{Turn, new_services};
ghost use Rattle.dt_service_laws.specs.Tie.{TakesCallsAlone};

use dt_network::{network_is_a_world, what_is_read_is_what_was_sent};

/// A NETWORK OF SERVICES IS ONE OF ENDPOINTS. Whatever is done at its nodes comes to calls of their
/// endpoints that keep the duties; and a flow from a caller to a service takes the messages of the calls
/// that are made on it, whole and side by side, and nothing else. So of a call that is declined or refused
/// no octet is taken. Only of one that found no memory it isn't known whether its message was.
pub fn services_take_calls_that_are_made_and_nothing_else()
    ensures { (setup : Setup) (most : ℕ → Most) (life : ℕ → ℕ) (kinds : ℕ → ℕ → PortKind) (turns : List Turn) (f : Flow) → IsWithinLimits setup.params → ((n : ℕ) → IsLife (life n)) → KeepsKinds kinds turns → IsServed kinds f → KeepsTurns setup turns (new_services setup most life) → TakesCallsAlone setup f turns (new_services setup most life) }
{
    network_is_a_world();
    what_is_read_is_what_was_sent();
}

/// REQUESTS ARE CALLS, EACH ONCE AND IN THEIR ORDER. Whatever programs ask of their nodes, whichever turns
/// find no memory, and however often nodes die and open again: the requests of a flow from a caller to a
/// service that are handed out are calls that were made on it, by number and payload, each at most once,
/// and in the order of their making, over all lives of both ends. So a call that was handed out settles
/// every earlier one of its flow: that was handed out before it, or never will be.
pub fn requests_are_calls_once_and_in_their_order()
    ensures { (setup : Setup) (most : ℕ → Most) (life : ℕ → ℕ) (kinds : ℕ → ℕ → PortKind) (turns : List Turn) (f : Flow) → IsWithinLimits setup.params → ((n : ℕ) → IsLife (life n)) → KeepsKinds kinds turns → IsServed kinds f → KeepsTurns setup turns (new_services setup most life) → AreSomeOf (requests_on f setup turns (new_services setup most life)) (calls_on f setup turns (new_services setup most life)) }
{
    network_is_a_world();
    what_is_read_is_what_was_sent();
}

/// A NAME STANDS ONCE. Where the lives of a caller's node differ, no two of its calls have the same number.
/// A name is handed out no more often than it was called, and replied to no more often than it was handed
/// out: so each at most once, over all lives of both ends.
pub fn names_are_called_handed_out_and_replied_to_once()
    ensures called { (setup : Setup) (most : ℕ → Most) (life : ℕ → ℕ) (kinds : ℕ → ℕ → PortKind) (turns : List Turn) (f : Flow) → IsWithinLimits setup.params → ((n : ℕ) → IsLife (life n)) → KeepsKinds kinds turns → IsServed kinds f → KeepsTurns setup turns (new_services setup most life) → Differ (life f.from.0 ∷ lives_at f.from.0 setup turns (new_services setup most life)) → (name : CallNumber) → count_of name (calls_on f setup turns (new_services setup most life)) ≤ 1 }
    ensures handed_out { (setup : Setup) (most : ℕ → Most) (life : ℕ → ℕ) (kinds : ℕ → ℕ → PortKind) (turns : List Turn) (f : Flow) → IsWithinLimits setup.params → ((n : ℕ) → IsLife (life n)) → KeepsKinds kinds turns → IsServed kinds f → KeepsTurns setup turns (new_services setup most life) → (name : CallNumber) → count_of name (requests_on f setup turns (new_services setup most life)) ≤ count_of name (calls_on f setup turns (new_services setup most life)) }
    ensures replied_to { (setup : Setup) (most : ℕ → Most) (life : ℕ → ℕ) (kinds : ℕ → ℕ → PortKind) (turns : List Turn) (f : Flow) → IsWithinLimits setup.params → ((n : ℕ) → IsLife (life n)) → KeepsKinds kinds turns → IsServed kinds f → KeepsTurns setup turns (new_services setup most life) → (name : CallNumber) → count_of name (replies_on f setup turns (new_services setup most life)) ≤ count_of name (requests_on f setup turns (new_services setup most life)) }
{
    network_is_a_world();
    what_is_read_is_what_was_sent();
}

/// AN ANSWER IS WHAT THE SERVICE GAVE for that very call: where the lives of a caller's node differ, each
/// answer that is handed out there with the number of a call of a flow is a reply that its service gave to
/// the request of that flow and number, with the same octets. No other was given, as a name stands once.
pub fn answers_are_what_the_service_gave()
    ensures { (setup : Setup) (most : ℕ → Most) (life : ℕ → ℕ) (kinds : ℕ → ℕ → PortKind) (turns : List Turn) (f : Flow) → IsWithinLimits setup.params → ((n : ℕ) → IsLife (life n)) → KeepsKinds kinds turns → IsServed kinds f → KeepsTurns setup turns (new_services setup most life) → Differ (life f.from.0 ∷ lives_at f.from.0 setup turns (new_services setup most life)) → (answer : Message) → Contains (answers_at f.from.0 setup turns (new_services setup most life)) answer → 0 < count_of answer.number (calls_on f setup turns (new_services setup most life)) → Contains (replies_on f setup turns (new_services setup most life)) answer }
{
    network_is_a_world();
    what_is_read_is_what_was_sent();
}
