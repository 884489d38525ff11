//! The laws of the world. Each law is the contract of a public function with an empty body. The
//! definitions that they speak of stand in dt_world_model.
#![tactic(auto)]

mod meeting;
mod reports;
mod runs;
mod schedule;
mod settling;
mod totals;
mod visits;

ghost use Rattle.std.specs.Prelude.{ℕ, ◌+◌, ◌≡◌, ◌<◌, ◌==◌, List, None, Some};
ghost use Rattle.dt_reports.specs.Entries.{Entry};
ghost use Rattle.dt_units.specs.declared.parameters.Params.{Params};
ghost use Rattle.dt_units.specs.declared.endpoints.Flow.{Flow};
ghost use Rattle.dt_flow_model.specs.Facts.{KeepsFates};
ghost use Rattle.dt_flow_model.specs.Safe.{Safe};
ghost use Rattle.dt_units.specs.Limits.{IsWithinLimits};
ghost use Rattle.dt_world_laws.specs.Lift.{IsLifted};
ghost use Rattle.dt_world_model.specs.Tags.{Alike, bare_event, bare_station};
ghost use Rattle.dt_flow_model.specs.Frames.{Mark};
ghost use Rattle.dt_world_model.specs.Host.{IsCurrentHost};
ghost use Rattle.dt_world_model.specs.Script.{Along, play};
ghost use Rattle.dt_world_model.specs.Station.{Arrive, Event, Station, station_event};
ghost use Rattle.dt_world_model.specs.Tables.{look};
ghost use Rattle.dt_world_model.specs.World.{Placed, World, world_handler, placed, view};
ghost use Rattle.dt_world_model.specs.Setup.{Setup, new_world};
ghost use Rattle.dt_world_model.specs.WorldStep.{Arrives, Stepped, WorldEvent, copy_at, first_refusal, link_for, noted_at, occasion, refusals, world_step};
ghost use Rattle.dt_world_model.specs.WorldFacts.{CanHappen, IsPossible, SafeLedgers, WorldFacts};

pub use meeting::{numbers_are_in_the_order_of_places, packets_bring_octets_that_were_taken};
pub use reports::{
    ledgers_follow_the_small_steps, report_changes_one_flow, tag_is_place_and_birth,
};
pub use runs::{
    each_octet_has_its_fate, each_octet_is_given_once_in_order_with_its_marks,
    every_flow_is_safe_after_every_run, every_run_has_facts, every_run_is_small_steps_of_each_flow,
    refused_event_changes_nothing, runs_are_joined,
};
pub use schedule::promise_of_a_whole_schedule;
pub use settling::{
    acts_come_to_an_end, event_leaves_links_and_routes, settled_station_has_no_act_due,
    settling_takes_no_octets, station_sleeps_until_its_wake,
};
pub use totals::{
    lives_are_counted_by_restarts, no_more_is_read_than_was_taken,
    no_more_is_taken_than_was_handed_in, totals_add_up,
};
pub use visits::visitor_ends_where_the_play_ends;

/// Each step of the world that isn't refused keeps its facts; and for each flow it is a list of small
/// steps of that flow, or nothing. So it leaves each fate that isn't open as it was.
pub fn step_keeps_facts()
    ensures facts { (w : World) (e : WorldEvent) (lines : List Entry) (after : World) → IsWithinLimits w.params → CanHappen e → WorldFacts w → world_step w e ≡ Stepped lines after → WorldFacts after }
    ensures lift { (w : World) (e : WorldEvent) (lines : List Entry) (after : World) (f : Flow) → IsWithinLimits w.params → CanHappen e → WorldFacts w → world_step w e ≡ Stepped lines after → IsLifted w.params (view w f) (view after f) }
    ensures fates { (w : World) (e : WorldEvent) (lines : List Entry) (after : World) (f : Flow) → IsWithinLimits w.params → CanHappen e → WorldFacts w → world_step w e ≡ Stepped lines after → KeepsFates (view w f).taken (view after f).taken }
{}

/// The facts give a safe world.
pub fn facts_give_safety()
    ensures { (w : World) (f : Flow) → WorldFacts w → Safe (view w f) }
{}

/// The world that a setup makes has the facts.
#[tactic(auto, using(crate::proofs::Starts::new_world_facts))]
pub fn new_world_has_facts()
    ensures { (setup : Setup) → WorldFacts (new_world setup) }
{}

/// What is written on packets changes nothing that a station reports, and no octet that it hands out:
/// so a station in the world and a station over a wire do the same.
pub fn tags_change_nothing()
    ensures { (p : Params) (now : ℕ) (e : Event Mark) (station : Station Mark) → Alike (λ a b. b ≡ bare_station a) (station_event p now e station) (station_event p now (bare_event e) (bare_station station)) }
{}

/// What an event of a station needs it has where the world doesn't refuse it: a copy that comes carries a
/// packet of the world, and was on its link no longer than its station charges.
#[tactic(auto, using(crate::proofs::Worlds::copy_can_come))]
pub fn copy_that_comes_was_in_time()
    ensures { (w : World) (copy : ℕ) (at : Placed) → WorldFacts w → first_refusal (refusals w (Arrives copy)) ≡ None → look ◌==◌ (link_for w copy).to w.stations ≡ Some at → IsPossible w (link_for w copy).to (Arrive (copy_at w copy).link (copy_at w copy).parcel) }
{}

/// At every point of a station's event the ledger of each flow is safe. So it is where an event
/// stops for want of memory.
pub fn ledger_is_safe_all_along()
    ensures { (w : World) (n : ℕ) (at : Placed) (e : Event Mark) → IsWithinLimits w.params → WorldFacts w → look ◌==◌ n w.stations ≡ Some at → IsPossible w n e → Along (world_handler (occasion w n e)) (λ d. SafeLedgers w d.ledgers) (station_event w.params (w.now + (placed w n).zero) e (placed w n).station) (noted_at w) }
{}

/// When a station's event has ended, no act of its host is due at its reading.
#[tactic(auto, using(crate::proofs::Alongside::current_after))]
pub fn no_act_is_due_after_an_event()
    ensures { (w : World) (n : ℕ) (at : Placed) (e : Event Mark) → IsWithinLimits w.params → WorldFacts w → look ◌==◌ n w.stations ≡ Some at → IsPossible w n e → IsCurrentHost w.params (w.now + (placed w n).zero) (play (world_handler (occasion w n e)) (station_event w.params (w.now + (placed w n).zero) e (placed w n).station) (noted_at w)).1.host }
{}
