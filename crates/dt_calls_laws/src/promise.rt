//! What is promised of calls: each is served at most once, and its answer is the handler's.
ghost use Rattle.std.specs.Prelude.{ℕ, ◌+◌, ◌≡◌, ◌<◌, ◌≤◌, ◌≢◌, ◌^◌, List, [], ◌++◌, length};
ghost use Rattle.std.specs.List.{All};
ghost use Rattle.dt_units.specs.declared.endpoints.Flow.{Flow};
ghost use Rattle.dt_units.specs.Flows.{IsFlow};
ghost use Rattle.dt_units.specs.Limits.{IsWithinLimits};
ghost use Rattle.dt_world_model.specs.Setup.{Setup, new_world};
ghost use Rattle.dt_calls_model.specs.declared.calls.Posted.TheVariants.{Refused};
ghost use Rattle.dt_calls_model.specs.CallFacts.{CallFacts};
ghost use Rattle.dt_calls_model.specs.CallRuns.{call_run, payloads_run};
ghost use Rattle.dt_calls_model.specs.Calls.{Calls, call_at, new_calls};
ghost use Rattle.dt_calls_model.specs.CallStep.{CallEvent, Makes, Stepped, call_step};
ghost use Rattle.dt_calls_model.specs.CallTold.{CallEntry};
ghost use Rattle.dt_calls_model.specs.Promises.{AreItsAnswers, AreMadeWith, AreServedOnce, payload_of, payloads_in};
ghost use Rattle.dt_calls_laws.specs.MayCome.{MayCome};
ghost use Rattle.dt_calls_laws.specs.Onward.{CallGoesOn};

/// Each step that isn't refused keeps the facts of calls, with each call served at most once among
/// them. Whatever the calls were made with, and this one, if it is made: so they still are, and each
/// answer that the step tells is the handler's to what its call was made with. There are fewer calls
/// before it than numbers of eight octets.
pub fn step_keeps_the_facts_of_calls()
    ensures facts { (answer : List ℕ → List ℕ) (c : Calls) (e : CallEvent) (lines : List CallEntry) (after : Calls) → CallFacts answer c → length c.calls < 2 ^ 64 → MayCome e → call_step answer c e ≡ Stepped lines after → CallFacts answer after }
    ensures made { (answer : List ℕ → List ℕ) (c : Calls) (e : CallEvent) (lines : List CallEntry) (after : Calls) → CallFacts answer c → length c.calls < 2 ^ 64 → MayCome e → call_step answer c e ≡ Stepped lines after → (payloads : List (List ℕ)) → AreMadeWith payloads c → AreMadeWith (payloads ++ payloads_in e) after }
    ensures answers { (answer : List ℕ → List ℕ) (c : Calls) (e : CallEvent) (lines : List CallEntry) (after : Calls) → CallFacts answer c → length c.calls < 2 ^ 64 → MayCome e → call_step answer c e ≡ Stepped lines after → (payloads : List (List ℕ)) → AreMadeWith payloads c → AreItsAnswers answer (payloads ++ payloads_in e) lines }
{}

/// Over every list of calls and of events of the world, with any losses, repeats and restarts, each call
/// is served at most once, one that is answered was served once, one that is declined is never served,
/// and each answer that is reported is that of a call that was made, and the handler's to the payload that
/// was handed in with it. So it is for every handler, and for as many events as there are numbers of
/// eight octets.
pub fn each_call_is_served_at_most_once()
    ensures once { (answer : List ℕ → List ℕ) (setup : Setup) (events : List CallEvent) → IsWithinLimits setup.params → All MayCome events → length events ≤ 2 ^ 64 → AreServedOnce (call_run answer events (new_calls (new_world setup))).1 }
    ensures answers { (answer : List ℕ → List ℕ) (setup : Setup) (events : List CallEvent) → IsWithinLimits setup.params → All MayCome events → length events ≤ 2 ^ 64 → let c = new_calls (new_world setup) in AreItsAnswers answer (payloads_run answer events ([], c)) (call_run answer events c).0 }
{}

/// What became of a call stays: over a step, and over all further events, a call keeps its flow and its
/// request, isn't served less often, and keeps its state where it doesn't wait. So an answer that was
/// reported is the last word, and so is that a call is unsure.
pub fn what_became_of_a_call_stays()
    ensures step { (answer : List ℕ → List ℕ) (c : Calls) (e : CallEvent) (lines : List CallEntry) (after : Calls) → CallFacts answer c → length c.calls < 2 ^ 64 → MayCome e → call_step answer c e ≡ Stepped lines after → (n : ℕ) → n < length c.calls → CallGoesOn (call_at c n) (call_at after n) }
    ensures run { (answer : List ℕ → List ℕ) (setup : Setup) (events more : List CallEvent) → IsWithinLimits setup.params → All MayCome events → All MayCome more → length events + length more ≤ 2 ^ 64 → let c = new_calls (new_world setup) in (n : ℕ) → n < length (call_run answer events c).1.calls → CallGoesOn (call_at (call_run answer events c).1 n) (call_at (call_run answer (events ++ more) c).1 n) }
{}

/// The payload of a call, as its octets stand in the ledger, is what was handed in with it, unless the
/// host refused it. Each further step leaves it.
pub fn payload_of_a_call_is_what_was_handed_in()
    ensures made { (answer : List ℕ → List ℕ) (c : Calls) (f : Flow) (payload : List ℕ) (lines : List CallEntry) (after : Calls) → CallFacts answer c → length c.calls < 2 ^ 64 → IsFlow f → call_step answer c (Makes f payload) ≡ Stepped lines after → (call_at after (length c.calls)).request ≢ Refused → payload_of after.world (call_at after (length c.calls)) ≡ payload }
    ensures stays { (answer : List ℕ → List ℕ) (c : Calls) (e : CallEvent) (lines : List CallEntry) (after : Calls) → CallFacts answer c → length c.calls < 2 ^ 64 → MayCome e → call_step answer c e ≡ Stepped lines after → (n : ℕ) → n < length c.calls → payload_of after.world (call_at after n) ≡ payload_of c.world (call_at c n) }
{}
