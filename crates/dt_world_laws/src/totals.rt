//! Sums over a run: the totals of a flow, and the lives of a station.
ghost use Rattle.std.specs.Prelude.{ℕ, ◌+◌, ◌≡◌, ◌≤◌, ◌==◌, List, Some, length};
ghost use Rattle.std.specs.List.{All};
ghost use Rattle.dt_units.specs.declared.endpoints.Flow.{Flow};
ghost use Rattle.dt_units.specs.Limits.{IsWithinLimits};
ghost use Rattle.dt_world_model.specs.Ledgers.{FlowLedger, ledger_of, totals_of};
ghost use Rattle.dt_flow_model.specs.Frames.{Mark};
ghost use Rattle.dt_flow_model.specs.Safe.{SafeLedger};
ghost use Rattle.dt_world_model.specs.Script.{Along};
ghost use Rattle.dt_world_model.specs.Setup.{Setup, new_world};
ghost use Rattle.dt_world_model.specs.Station.{Event, station_event};
ghost use Rattle.dt_world_model.specs.Tables.{look, total};
ghost use Rattle.dt_world_model.specs.World.{Placed, World, placed, world_handler};
ghost use Rattle.dt_world_model.specs.WorldFacts.{CanHappen, IsPossible, WorldFacts};
ghost use Rattle.dt_world_model.specs.WorldStep.{WorldEvent, noted_at, occasion, world_after};
ghost use Rattle.dt_world_laws.specs.Handed.{handed_in_all};
ghost use Rattle.dt_world_laws.specs.Lives.{restarts_in};

/// Each octet that was taken is acknowledged, uncertain or unsettled. After every run no more were given
/// than were taken.
pub fn totals_add_up()
    ensures fates { (l : FlowLedger) → (totals_of l).acked + (totals_of l).uncertain + (totals_of l).unsettled ≡ (totals_of l).taken }
    ensures rows { (l : FlowLedger) → ((totals_of l).taken ≡ length l.taken) × ((totals_of l).given ≡ length l.given) }
    ensures given { (setup : Setup) (events : List WorldEvent) (f : Flow) → IsWithinLimits setup.params → All CanHappen events → let l = ledger_of (world_after (new_world setup) events).ledgers f in (totals_of l).given ≤ (totals_of l).taken }
{}

/// No more of a flow is read than was given, over all lives, and no more given than was taken: of each safe
/// ledger, and so at every point of a station's event, after each of its reports. So a count of what was
/// given or read passes no bound that the count of what was taken keeps.
pub fn no_more_is_read_than_was_taken()
    ensures read { (life : ℕ) (l : FlowLedger) → SafeLedger life l.taken l.given l.reads → total (λ r. r.count) l.reads ≤ length l.given }
    ensures given { (life : ℕ) (l : FlowLedger) → SafeLedger life l.taken l.given l.reads → length l.given ≤ length l.taken }
    ensures along { (w : World) (n : ℕ) (at : Placed) (e : Event Mark) (f : Flow) → IsWithinLimits w.params → WorldFacts w → look ◌==◌ n w.stations ≡ Some at → IsPossible w n e → Along (world_handler (occasion w n e)) (λ d. total (λ r. r.count) (ledger_of d.ledgers f).reads ≤ length (ledger_of d.ledgers f).taken) (station_event w.params (w.now + (placed w n).zero) e (placed w n).station) (noted_at w) }
{}

/// A flow takes no more octets than were handed in, whatever was refused.
#[tactic(auto, using(crate::proofs::Taking::takes_counted))]
pub fn no_more_is_taken_than_was_handed_in()
    ensures { (setup : Setup) (events : List WorldEvent) (f : Flow) → length (ledger_of (world_after (new_world setup) events).ledgers f).taken ≤ handed_in_all f events }
{}

/// A station's life number is at most the count of the events that start it again.
#[tactic(auto, using(crate::proofs::Counted::lives_counted))]
pub fn lives_are_counted_by_restarts()
    ensures { (setup : Setup) (events : List WorldEvent) (n : ℕ) → (placed (world_after (new_world setup) events) n).life ≤ restarts_in n events }
{}
