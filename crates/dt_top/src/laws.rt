//! What is true of every input, whatever the program does with it. Each law is the contract of a public
//! function with an empty body.
ghost use Rattle.std.specs.Prelude.{ℕ, ◌≤◌, List, length, IfOk, IfSome};
ghost use Rattle.dt_audit.specs.Audits.{AreSafe, ledger_of};
ghost use Rattle.dt_calls_input.specs.CallAnswers.{AreCallsOf, TellsOwnAnswers};
ghost use Rattle.dt_calls_input.specs.CallInputs.{calls_after_lines};
ghost use Rattle.dt_calls_model.specs.Promises.{AreServedOnce};
ghost use Rattle.dt_replay.specs.Schedules.{world_after_lines, world_of};
ghost use Rattle.dt_world_model.specs.WorldFacts.{SafeWorld};
ghost use Rattle.dt_top.specs.Inputs.{limit};

/// Each flow of the world of any schedule is safe after each of its lines, those of a schedule that is
/// refused among them, and at its end.
pub fn each_schedule_is_safe()
    ensures safe { (octets : List ℕ) → (count : ℕ) → IfSome (world_after_lines count octets) (λ w. SafeWorld w) }
    ensures whole { (octets : List ℕ) → IfSome (world_of octets) (λ w. SafeWorld w) }
{}

/// After each line of any input that isn't too long each call was served at most once, and the calls are
/// those of its first `call` lines, with their octets. In its text `answered N` has the octets of the
/// `call` line N, counted from 0, in reversed order, and there is such a line.
pub fn each_call_is_served_once()
    ensures called_once { (octets : List ℕ) → length octets ≤ limit → (count : ℕ) → IfSome (calls_after_lines count octets) (λ c. AreServedOnce c) }
    ensures called_lines { (octets : List ℕ) → length octets ≤ limit → (count : ℕ) → IfSome (calls_after_lines count octets) (λ c. AreCallsOf octets c) }
    ensures called_answers { (octets : List ℕ) → length octets ≤ limit → TellsOwnAnswers octets }
{}

/// Of any log without a flaw each flow of the ledger is safe.
pub fn each_log_without_a_flaw_is_safe()
    ensures audited { (octets : List ℕ) → IfOk (ledger_of octets) AreSafe }
{}
