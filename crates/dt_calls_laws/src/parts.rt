//! The parts of a step keep the facts of calls. So they hold also where a step stops on its way.
ghost use Rattle.std.specs.Prelude.{ℕ, ◌≡◌, ◌<◌, ◌^◌, true, List, [], Some, None, Option, length};
ghost use Rattle.dt_units.specs.declared.endpoints.Flow.{Flow};
ghost use Rattle.dt_units.specs.Flows.{IsFlow};
ghost use Rattle.dt_world_model.specs.Tables.{has_key, look, same_flow, write};
ghost use Rattle.dt_world_model.specs.World.{view};
ghost use Rattle.dt_world_model.specs.WorldStep.{Reads, WorldEvent, after_event, first_refusal, refusals};
ghost use Rattle.dt_calls_model.specs.CallFacts.{CourseFacts};
ghost use Rattle.dt_calls_model.specs.Calls.{Begun, Calls, Side, begun_at, flow_read, with_begun};
ghost use Rattle.dt_calls_model.specs.CallStep.{call_refusals, judge_all, flows_after, make};
ghost use Rattle.dt_calls_model.specs.Heard.{piece_in};
ghost use Rattle.dt_calls_model.specs.Messages.{Piece, begun_with};
ghost use Rattle.dt_calls_model.specs.Reads.{Course, happens, in_world, most_read, read_all, read_side, take_whole};
ghost use Rattle.dt_calls_laws.specs.Comes.{MessageComes};
ghost use Rattle.dt_calls_laws.specs.Grown.{IsNoSendOrRead};
ghost use Rattle.dt_calls_laws.specs.Leads.{AllRead, IsDone, Leads, PieceKeeps, SameUnread};
ghost use Rattle.dt_calls_laws.specs.Told.{IsOn};

/// A side reads a piece. Where it makes a message whole, that is the request of a call that wasn't
/// served, or the reply of one that was served once.
pub fn piece_keeps_the_facts()
    ensures { (answer : List ℕ → List ℕ) (side : Side) (c : Calls) (f : Flow) (b : Begun) (p : Piece) → CourseFacts answer c → look same_flow f c.flows ≡ Some b → piece_in (happens (Reads (flow_read side f) most_read) c.world).0 ≡ Some p → PieceKeeps answer side f b p (record { world = (happens (Reads (flow_read side f) most_read) c.world).1; calls = c.calls; flows = write same_flow f (with_begun side (begun_with (begun_at side b) p) b) c.flows }) }
{}

/// A side reads where nothing is there.
pub fn read_of_nothing_leads_on()
    ensures { (answer : List ℕ → List ℕ) (side : Side) (c : Course) (f : Flow) (b : Begun) → IsOn answer c → look same_flow f c.calls.flows ≡ Some b → (view c.calls.world (flow_read side f)).unread ≡ [] → Leads answer c (record { told = c.told; calls = in_world (happens (Reads (flow_read side f) most_read) c.calls.world).1 c.calls }) }
{}

/// A whole message is taken: a request is served, and a reply answers its call. What is unread stays.
pub fn whole_message_leads_on()
    ensures { (answer : List ℕ → List ℕ) (side : Side) (c : Course) (f : Flow) (b : Begun) (whole : Option (List ℕ)) → IsOn answer c → look same_flow f c.calls.flows ≡ Some b → ((message : List ℕ) → whole ≡ Some message → MessageComes answer side c.calls f message) → Leads answer c (take_whole answer side f whole c) × SameUnread c.calls.world (take_whole answer side f whole c).calls.world }
{}

/// A side is read until nothing is there. Then nothing is unread at it, and its station rests.
pub fn side_is_read_until_nothing_is_there()
    ensures { (answer : List ℕ → List ℕ) (side : Side) (c : Course) (f : Flow) → IsOn answer c → has_key same_flow f c.calls.flows ≡ true → Leads answer c (read_side answer side c f) × IsDone side (read_side answer side c f).calls.world f }
{}

/// All sides are read. Then nothing is unread at any of them, and their stations rest.
#[tactic(auto, using(crate::proofs::SideReads::all_read))]
pub fn all_sides_are_read()
    ensures { (answer : List ℕ → List ℕ) (c : Course) → IsOn answer c → AllRead answer c (read_all answer c) }
{}

/// A call is made that isn't refused. The numbers of calls go into eight octets.
pub fn made_call_keeps_the_facts()
    ensures { (answer : List ℕ → List ℕ) (c : Calls) (f : Flow) (payload : List ℕ) → CourseFacts answer c → length c.calls < 2 ^ 64 → IsFlow f → first_refusal (call_refusals c f) ≡ None → IsOn answer (make f payload c) }
{}

/// An event of the world that isn't refused comes, and is no send and no read. A restart of a reader
/// drops what it has begun.
pub fn event_keeps_the_facts()
    ensures { (answer : List ℕ → List ℕ) (c : Calls) (e : WorldEvent) → CourseFacts answer c → IsNoSendOrRead e → first_refusal (refusals c.world e) ≡ None → CourseFacts answer (record { world = (after_event c.world e).1; calls = c.calls; flows = flows_after e c.flows }) }
{}

/// The calls that wait are judged, and those that became unsure reported.
pub fn judging_keeps_the_facts()
    ensures { (answer : List ℕ → List ℕ) (c : Course) → IsOn answer c → IsOn answer (judge_all c) }
{}
