//! The laws of whole runs: what holds after every list of events from a setup.
ghost use Rattle.std.specs.Prelude.{ℕ, ◌+◌, ◌≡◌, ◌<◌, ◌≤◌, ◌==◌, ◌++◌, ◌∷◌, true, false, List, length, Some, None};
ghost use Rattle.std.specs.List.{All};
ghost use Rattle.std.proofs.Math.ListN.{drop};
ghost use Rattle.dt_reports.specs.Entries.{Entry};
ghost use Rattle.dt_reports.specs.declared.faults.StepFault.{StepFault};
ghost use Rattle.dt_units.specs.declared.endpoints.Flow.{Flow};
ghost use Rattle.dt_units.specs.Limits.{IsWithinLimits};
ghost use Rattle.dt_flow_model.specs.Facts.{KeepsFates};
ghost use Rattle.dt_flow_model.specs.Ledger.{given_at, given_in, is_given, item_of, read_in, row_at, sent_item_of, top};
ghost use Rattle.dt_flow_model.specs.declared.rows.Fate.TheVariants.{Acked, Uncertain};
ghost use Rattle.dt_world_laws.specs.Lift.{IsLifted};
ghost use Rattle.dt_world_model.specs.World.{World, view};
ghost use Rattle.dt_world_model.specs.Setup.{Setup, new_world};
ghost use Rattle.dt_world_model.specs.WorldStep.{Refused, Stepped, WorldEvent, after_event, first_refusal, refusals, run, world_after, world_step};
ghost use Rattle.dt_world_model.specs.WorldFacts.{CanHappen, SafeWorld, WorldFacts};

/// THE PROMISE. Whatever happens in a world, each of its flows is safe: after every list of events from
/// a setup whose parameters are within their limits, refused events among them. Numbers may go round,
/// a first number may be any, stations may restart, and packets may be lost, come again and come in any
/// order. Since the list is any list, it holds after each event of a run.
pub fn every_flow_is_safe_after_every_run()
    ensures { (setup : Setup) (events : List WorldEvent) → IsWithinLimits setup.params → All CanHappen events → SafeWorld (world_after (new_world setup) events) }
{}

/// So each octet of every flow is given at most once, in the order of its sending, with its marks: the
/// places of the given rows strictly increase, each is that of an octet that was taken, and its octet
/// and marks are those that were taken there. What is unread are the given octets of the receiver's
/// present life after those that were read in it, with their marks; so a read takes the next ones.
pub fn each_octet_is_given_once_in_order_with_its_marks()
    ensures in_order { (setup : Setup) (events : List WorldEvent) (f : Flow) → IsWithinLimits setup.params → All CanHappen events → let s = view (world_after (new_world setup) events) f in (j k : ℕ) → j < k → k < length s.given → (given_at s.given j).place < (given_at s.given k).place }
    ensures taken { (setup : Setup) (events : List WorldEvent) (f : Flow) → IsWithinLimits setup.params → All CanHappen events → let s = view (world_after (new_world setup) events) f in (k : ℕ) → k < length s.given → (given_at s.given k).place < length s.taken }
    ensures intact { (setup : Setup) (events : List WorldEvent) (f : Flow) → IsWithinLimits setup.params → All CanHappen events → let s = view (world_after (new_world setup) events) f in (k : ℕ) → k < length s.given → item_of (row_at s.taken (given_at s.given k).place) ≡ sent_item_of (given_at s.given k) }
    ensures unread { (setup : Setup) (events : List WorldEvent) (f : Flow) → IsWithinLimits setup.params → All CanHappen events → let s = view (world_after (new_world setup) events) f in (read_in s.receiver_life s.reads ≤ length (given_in s.receiver_life s.given)) × (s.unread ≡ drop (read_in s.receiver_life s.reads) (given_in s.receiver_life s.given)) }
{}

/// What the sender is told of an octet is true, and stays: an acknowledged octet was given, and one that
/// was passed over is uncertain or of an earlier life of its station. A fate that isn't open never
/// changes, whatever happens after it.
pub fn each_octet_has_its_fate()
    ensures acknowledged { (setup : Setup) (events : List WorldEvent) (f : Flow) → IsWithinLimits setup.params → All CanHappen events → let s = view (world_after (new_world setup) events) f in (place : ℕ) → (row_at s.taken place).fate ≡ Acked → is_given s.given place ≡ true }
    ensures passed_over { (setup : Setup) (events : List WorldEvent) (f : Flow) → IsWithinLimits setup.params → All CanHappen events → let s = view (world_after (new_world setup) events) f in (place : ℕ) → place < top s.given → is_given s.given place ≡ false → s.sender_life ≤ (row_at s.taken place).life → (row_at s.taken place).fate ≡ Uncertain }
    ensures stays { (setup : Setup) (events more : List WorldEvent) (f : Flow) → IsWithinLimits setup.params → All CanHappen (events ++ more) → KeepsFates (view (world_after (new_world setup) events) f).taken (view (world_after (new_world setup) (events ++ more)) f).taken }
{}

/// The facts hold after every run: so each law of a world that has the facts, as of one event of a
/// station, is about the worlds that a setup leads to.
#[tactic(auto, using(crate::proofs::Running::run_facts))]
pub fn every_run_has_facts()
    ensures { (setup : Setup) (events : List WorldEvent) → IsWithinLimits setup.params → All CanHappen events → WorldFacts (world_after (new_world setup) events) }
{}

/// The lift of a run: whatever happens in a world, for each flow it is a list of the small steps of one
/// flow, from the flow that has just begun. Each packet that comes in one of them fits the flow then.
#[tactic(auto, using(crate::proofs::Running::run_lifts))]
pub fn every_run_is_small_steps_of_each_flow()
    ensures { (setup : Setup) (events : List WorldEvent) (f : Flow) → IsWithinLimits setup.params → All CanHappen events → IsLifted setup.params (view (new_world setup) f) (view (world_after (new_world setup) events) f) }
{}

/// An event is refused by the first of its tests that holds. A refused event gives no line, and the
/// world goes on as if it hadn't been.
#[tactic(auto, using(crate::proofs::Running::refused_is_nothing))]
pub fn refused_event_changes_nothing()
    ensures refused { (w : World) (e : WorldEvent) (fault : StepFault) → first_refusal (refusals w e) ≡ Some fault → world_step w e ≡ Refused fault }
    ensures else_does { (w : World) (e : WorldEvent) → first_refusal (refusals w e) ≡ None → world_step w e ≡ Stepped (after_event w e).0 (after_event w e).1 }
    ensures nothing { (w : World) (e : WorldEvent) (events : List WorldEvent) (fault : StepFault) → world_step w e ≡ Refused fault → run (e ∷ events) w ≡ run events w }
{}

/// A run of two lists of events is the run of the first, and that of the second from the world where it
/// ended.
#[tactic(auto, using(crate::proofs::Running::run_joined))]
pub fn runs_are_joined()
    ensures { (w : World) (events more : List WorldEvent) → run (events ++ more) w ≡ ((run events w).0 ++ (run more (world_after w events)).0, (run more (world_after w events)).1) }
{}
