//! Worked calls: what the definitions compute on a few inputs.
#![tactic(auto, unfolding(dt_layout::specs::Spelling::gram_spelling, dt_layout::specs::Spelling::packet_spelling, dt_layout::specs::Reading::gram_in, dt_layout::specs::Reading::packet_in, dt_layout::specs::Reading::packet_fault, dt_layout::specs::Reading::gram_fault, dt_layout::specs::Carried::life_of, dt_layout::specs::Carried::to_of, dt_layout::specs::Carried::lowered))]

ghost use Rattle.std.specs.Prelude.{◌≡◌, [], ◌∷◌, replicate};
ghost use Rattle.dt_reports.specs.declared.faults.StepFault.TheVariants as step;
ghost use Rattle.dt_world_model.specs.Worked.{main_flow};
ghost use Rattle.dt_world_model.specs.WorldStep.{Arrives, Loses, Passes, Restarts, Ticks};
ghost use Rattle.dt_calls_model.specs.Messages.{reversed};
ghost use Rattle.dt_calls_model.specs.CallTold.{Answered, Made, Served, Unsure};
ghost use Rattle.dt_calls_model.specs.CallStep.{Faulty, Happens, Makes};
ghost use Rattle.dt_calls_model.specs.Worked.{at, counted, long_call, outcome_after, short_call, told_of};

/// A call is served when its request comes, and answered when its reply comes.
pub fn call_is_answered()
    ensures told { told_of (short_call ∷ Happens (Arrives 0) ∷ Happens (Arrives 2) ∷ []) ≡ at 0 (Made 0 main_flow 3) ∷ at 0 (Served 0) ∷ at 0 (Answered 0 (3 ∷ 2 ∷ 1 ∷ [])) ∷ [] }
    ensures totals { counted (short_call ∷ Happens (Arrives 0) ∷ Happens (Arrives 2) ∷ []) ≡ record { calls = 1; served = 1; answered = 1; unsure = 0; declined = 0; waiting = 0 } }
{}

/// A request that is lost and given up makes its call unsure, at the moment of the first event at which it is.
pub fn call_is_unsure()
    ensures told { told_of (short_call ∷ Happens (Loses 0) ∷ Happens (Passes 5200) ∷ Happens (Ticks 1) ∷ []) ≡ at 0 (Made 0 main_flow 3) ∷ at 5200 (Unsure 0) ∷ [] }
{}

/// No call goes on the way of another's replies.
pub fn call_on_the_way_of_replies_is_refused()
    ensures { outcome_after (short_call ∷ []) (Makes (reversed main_flow) (1 ∷ [])) ≡ Faulty step.BadFlow }
{}

/// A request that comes again is served once.
pub fn repeated_request_is_served_once()
    ensures { told_of (short_call ∷ Happens (Arrives 0) ∷ Happens (Arrives 0) ∷ Happens (Arrives 0) ∷ []) ≡ at 0 (Made 0 main_flow 3) ∷ at 0 (Served 0) ∷ [] }
{}

/// A reply that is lost and given up makes its call unsure, though it was served.
pub fn lost_reply_is_unsure()
    ensures { told_of (short_call ∷ Happens (Arrives 0) ∷ Happens (Loses 2) ∷ Happens (Passes 5200) ∷ []) ≡ at 0 (Made 0 main_flow 3) ∷ at 0 (Served 0) ∷ at 5200 (Unsure 0) ∷ [] }
{}

/// Where a client starts again its calls are unsure, also those whose requests came; where a server
/// does, those that it has served.
pub fn restart_makes_calls_unsure()
    ensures client { told_of (short_call ∷ Happens (Restarts 1) ∷ []) ≡ at 0 (Made 0 main_flow 3) ∷ at 0 (Unsure 0) ∷ [] }
    ensures server { told_of (short_call ∷ Happens (Arrives 0) ∷ Happens (Restarts 2) ∷ []) ≡ at 0 (Made 0 main_flow 3) ∷ at 0 (Served 0) ∷ at 0 (Unsure 0) ∷ [] }
    ensures unserved { told_of (short_call ∷ Happens (Restarts 2) ∷ []) ≡ at 0 (Made 0 main_flow 3) ∷ [] }
{}

/// Of a request in two segments the first is read when it comes, and waits for the second. Where the
/// server starts again in between, it is dropped, and the request is never served.
pub fn request_in_two_segments()
    ensures served { told_of (long_call ∷ Happens (Arrives 0) ∷ Happens (Arrives 1) ∷ []) ≡ at 0 (Made 0 main_flow 100) ∷ at 0 (Served 0) ∷ [] }
    ensures dropped { told_of (long_call ∷ Happens (Arrives 0) ∷ Happens (Restarts 2) ∷ Happens (Arrives 1) ∷ Happens (Passes 6200) ∷ []) ≡ at 0 (Made 0 main_flow 100) ∷ at 6200 (Unsure 0) ∷ [] }
{}
