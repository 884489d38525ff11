//! The laws of calls. Each law is the contract of a public function with an empty body. The definitions
//! that they speak of stand in dt_calls_model.
#![tactic(auto)]

mod gone;
mod parts;
mod promise;

ghost use Rattle.std.specs.Prelude.{ℕ, ◌+◌, ◌≡◌, ◌==◌, ◌<◌, ◌^◌, Bool, true, false, drop, map, List, [], ◌∷◌, Some, None};
ghost use Rattle.dt_units.specs.declared.parameters.Params.{Params};
ghost use Rattle.dt_units.specs.declared.endpoints.Flow.{Flow};
ghost use Rattle.dt_reports.specs.declared.reports.Report.TheVariants as report;
ghost use Rattle.dt_items.specs.Unread.{first_piece};
ghost use Rattle.dt_units.specs.Limits.{IsWithinLimits};
ghost use Rattle.dt_world_model.specs.Host.{IsHost, receiver_at};
ghost use Rattle.dt_flow_model.specs.Frames.{Mark};
ghost use Rattle.dt_world_model.specs.Ledgers.{Occasion, ledger_of};
ghost use Rattle.dt_world_model.specs.Script.{Answers, Script, play};
ghost use Rattle.dt_world_model.specs.Station.{Event, Read, Send, Station, station_event};
ghost use Rattle.dt_world_model.specs.Tables.{look};
ghost use Rattle.dt_world_model.specs.World.{Noted, Placed, World, world_handler};
ghost use Rattle.dt_world_model.specs.WorldFacts.{CanHappen, IsPossible, WorldFacts};
ghost use Rattle.dt_world_model.specs.WorldStep.{Reads, Sends, WorldEvent, after_event, first_refusal, noted_at, occasion, refusals};
ghost use Rattle.dt_calls_model.specs.Heard.{piece_in, tells_refusal};
ghost use Rattle.dt_calls_model.specs.Calls.{new_calls};
ghost use Rattle.dt_world_model.specs.Setup.{Setup, new_world};
ghost use Rattle.dt_calls_model.specs.CallFacts.{CallFacts, LieSideBySide, Span, taken_rows};
ghost use Rattle.dt_calls_model.specs.Messages.{carried_in, message_of, number_in};
ghost use Rattle.dt_calls_model.specs.Rests.{LinksRest, Rests, RestsIn};
ghost use Rattle.dt_calls_laws.specs.NoPass.{IsNoPass};
ghost use Rattle.dt_calls_laws.specs.ReadTold.{piece_of};
ghost use Rattle.dt_calls_laws.specs.Silence.{SameOctets, TellsNoMessage};
ghost use Rattle.dt_calls_laws.specs.HasRead.{HasRead, KeepsOctets, unread_at};
ghost use Rattle.dt_calls_laws.specs.Grown.{GrowsAtEnd, IsNoSendOrRead};
ghost use Rattle.dt_calls_laws.specs.SideBySide.{messages_of};
ghost use Rattle.dt_flow_model.specs.Ledger.{item_of};
ghost use Rattle.dt_calls_laws.specs.Sent.{SendLeaves};
ghost use Rattle.dt_calls_laws.specs.Wholes.{AreSome, IsOneMessage, begins_with, ends_at, items_of_all};
ghost use Rattle.dt_units.specs.Flows.{IsFlow};

pub use gone::{
    other_events_leave_what_is_gone, piece_goes_on_a_message_or_makes_it_whole,
    read_lets_its_piece_go, restart_of_the_reader_lets_all_go, sends_leave_what_is_gone,
    unread_is_the_end_of_what_was_given, what_is_given_is_unread,
};
pub use parts::{
    all_sides_are_read, event_keeps_the_facts, judging_keeps_the_facts, made_call_keeps_the_facts,
    piece_keeps_the_facts, read_of_nothing_leads_on, side_is_read_until_nothing_is_there,
    whole_message_leads_on,
};
pub use promise::{
    each_call_is_served_at_most_once, payload_of_a_call_is_what_was_handed_in,
    step_keeps_the_facts_of_calls, what_became_of_a_call_stays,
};

/// A read where nothing is unread, at a station that rests, tells so and changes nothing: who skips it
/// leaves the same world.
#[tactic(auto, using(crate::proofs::Unread::read_changes_nothing))]
pub fn read_of_nothing_changes_nothing()
    ensures { (w : World) (f : Flow) (most : ℕ) (at : Placed) → look ◌==◌ f.to.0 w.stations ≡ Some at → Rests w.params (w.now + at.zero) at.station → (receiver_at at.station.host f).unread ≡ [] → after_event w (Reads f most) ≡ ((record { moment = w.now; node = Some f.to.0; told = report.Nothing f }) ∷ [], w) }
{}

/// After an event of a station no packet may leave it at that moment, whatever tags were answered.
#[tactic(auto, using(crate::proofs::Flushed::links_rest_after))]
pub fn no_packet_may_leave_after_an_event<T>()
    ensures { (p : Params) (now : ℕ) (event : Event T) (station : Station T) → Answers (λ (after : Station T). LinksRest now after.relay.outs) (station_event p now event station) }
{}

/// What a read of the world reports is the first piece of what was unread there: the most of it, up to a
/// count, in which an end mark stands only on the last octet and a begin mark or a run mark only on the
/// first.
#[tactic(auto, using(crate::proofs::Reading::read_tells_the_next))]
pub fn read_tells_the_next_piece()
    ensures { (w : World) (f : Flow) (most : ℕ) (at : Placed) → IsWithinLimits w.params → look ◌==◌ f.to.0 w.stations ≡ Some at → IsHost w.params at.station.host → piece_in (after_event w (Reads f most)).0 ≡ piece_of (first_piece most (receiver_at at.station.host f).unread) }
{}

/// After its event a station rests until time passes.
#[tactic(auto, using(crate::proofs::Ended::rests_after))]
pub fn station_rests_after_its_event()
    ensures { (w : World) (n : ℕ) (at : Placed) (e : Event Mark) → IsWithinLimits w.params → WorldFacts w → look ◌==◌ n w.stations ≡ Some at → IsPossible w n e → Rests w.params (w.now + at.zero) (play (world_handler (occasion w n e)) (station_event w.params (w.now + at.zero) e at.station) (noted_at w)).1 }
{}

/// A read of a station takes the first piece of what is unread there, and leaves what is unread of its
/// other flows.
pub fn read_takes_the_next_piece()
    ensures { (w : World) (f : Flow) (most : ℕ) (at : Placed) → IsWithinLimits w.params → IsFlow f → f.to.0 ≡ at.station.host.me → (now : ℕ) → IsHost w.params at.station.host → HasRead f most at.station.host (play (world_handler (occasion w f.to.0 (Read f most))) (station_event w.params now (Read f most) at.station) (noted_at w)).1.host }
{}

/// What a station reports that tells no message leaves of each flow what was given and read, and the
/// octets that were taken.
pub fn silence_leaves_all_octets<A>()
    ensures { (o : Occasion) (script : Script Mark A) (d : Noted) (g : Flow) → TellsNoMessage script → SameOctets (ledger_of d.ledgers g) (ledger_of (play (world_handler o) script d).0.ledgers g) }
{}

/// A read of the world leaves the octets that each flow took and gave: it only counts what was read.
pub fn read_keeps_all_octets()
    ensures { (w : World) (f g : Flow) (most : ℕ) (at : Placed) → look ◌==◌ f.to.0 w.stations ≡ Some at → KeepsOctets (ledger_of w.ledgers g) (ledger_of (after_event w (Reads f most)).1.ledgers g) }
{}

/// A send of the world whose lines tell no refusal takes its octets, with its marks, after all that its
/// flow took before; one that is refused takes none. Nothing else is taken, and nothing given.
pub fn send_takes_its_octets_or_is_refused()
    ensures { (w : World) (f : Flow) (octets : List ℕ) (begin end : Bool) (at : Placed) → look ◌==◌ f.from.0 w.stations ≡ Some at → let r = after_event w (Sends f octets begin end) in SendLeaves (tells_refusal r.0) f octets begin end w.ledgers r.1.ledgers }
{}

/// An event of the world that is no send and no read gives octets at the end of a flow, where it does
/// anything to it: what was taken and read stays.
pub fn other_events_only_give()
    ensures { (w : World) (e : WorldEvent) (g : Flow) → IsNoSendOrRead e → GrowsAtEnd (ledger_of w.ledgers g) (ledger_of (after_event w e).1.ledgers g) }
{}

/// Where messages lie side by side, what stands from a begin mark to the next end mark is one of them,
/// whole.
pub fn items_between_marks_are_one_message()
    ensures { (messages : List (List ℕ)) (place k : ℕ) → AreSome messages → begins_with (drop place (items_of_all messages)) ≡ true → ends_at k (drop place (items_of_all messages)) ≡ true → ((j : ℕ) → j < k → ends_at j (drop place (items_of_all messages)) ≡ false) → IsOneMessage messages place k }
{}

/// A message is read back: its number, and what it carries.
pub fn messages_are_read_back()
    ensures number { (call : ℕ) (carried : List ℕ) → call < 2 ^ 64 → number_in (message_of call carried) ≡ call }
    ensures carried { (call : ℕ) (carried : List ℕ) → carried_in (message_of call carried) ≡ carried }
{}

/// The messages of a flow that lie side by side are all that it took.
pub fn messages_are_all_that_was_taken()
    ensures { (w : World) (f : Flow) (carried : Span → List ℕ) (spans : List Span) → LieSideBySide w f carried 0 spans → map item_of (taken_rows w f) ≡ items_of_all (messages_of carried spans) }
{}

/// Where no time passes, a station that rests goes on to rest, whatever happens at it or at others.
pub fn stations_stay_at_rest()
    ensures { (w : World) (e : WorldEvent) (m : ℕ) → IsWithinLimits w.params → WorldFacts w → IsNoPass e → CanHappen e → first_refusal (refusals w e) ≡ None → RestsIn w m → RestsIn (after_event w e).1 m }
{}

/// The facts of calls hold where there are none yet, over a new world.
pub fn new_calls_have_their_facts()
    ensures { (answer : List ℕ → List ℕ) (setup : Setup) → IsWithinLimits setup.params → CallFacts answer (new_calls (new_world setup)) }
{}

/// A send leaves what is unread at its station, of every flow.
pub fn sends_leave_what_is_unread()
    ensures { (w : World) (f : Flow) (octets : List ℕ) (begin end : Bool) (at : Placed) → IsWithinLimits w.params → IsFlow f → f.from.0 ≡ at.station.host.me → (now : ℕ) → IsHost w.params at.station.host → (g : Flow) → unread_at (play (world_handler (occasion w f.from.0 (Send f octets begin end))) (station_event w.params now (Send f octets begin end) at.station) (noted_at w)).1.host g ≡ unread_at at.station.host g }
{}
