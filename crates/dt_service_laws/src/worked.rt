//! Worked networks of services: what the definitions compute, so that the laws speak of something.
#![tactic(auto, unfolding(dt_layout::specs::Spelling::gram_spelling, dt_layout::specs::Spelling::packet_spelling, dt_layout::specs::Reading::gram_in, dt_layout::specs::Reading::packet_in, dt_layout::specs::Reading::packet_fault, dt_layout::specs::Reading::gram_fault, dt_layout::specs::Carried::life_of, dt_layout::specs::Carried::to_of, dt_layout::specs::Carried::lowered))]

ghost use Rattle.std.specs.Prelude.{◌≡◌, [], ◌∷◌};
ghost use Rattle.dt_world_model.specs.Worked.{main_flow};
ghost use Rattle.dt_service_model.specs.declared.calls.Cause.TheVariants.{Closed};
ghost use Rattle.dt_service_model.specs.declared.happenings.Happening.TheVariants.{Unsure};
ghost use Rattle.dt_service_model.specs.Names.{number_with};
ghost use Rattle.dt_service_laws.specs.Fates.{calls_at, told_at};
ghost use Rattle.dt_service_laws.specs.Histories.{answers_at, calls_on, lives_at, replies_on, requests_on};
ghost use Rattle.dt_service_laws.specs.Premises.{Differ, IsServed, KeepsKinds, KeepsTurns};
ghost use Rattle.dt_service_laws.specs.Worked.{answered, answered_unlisted, client_without_memory, first_life, handed_out, kind_at, lists_none, out_of_memory, restarted, saying, two_nodes, two_services, without_routes};

/// A call is made, handed out, replied to and answered.
pub fn call_is_answered()
    ensures called { calls_on main_flow two_nodes answered two_services ≡ saying 5 0 (97 ∷ []) ∷ [] }
    ensures handed_out { requests_on main_flow two_nodes answered two_services ≡ saying 5 0 (97 ∷ []) ∷ [] }
    ensures replied { replies_on main_flow two_nodes answered two_services ≡ saying 5 0 (65 ∷ []) ∷ [] }
    ensures answers { answers_at 1 two_nodes answered two_services ≡ saying 5 0 (65 ∷ []) ∷ [] }
{}

/// The premises of the laws can be met: they hold where a call is made and handed out.
pub fn call_that_is_handed_out_keeps_the_duties()
    ensures duties { KeepsTurns two_nodes handed_out two_services }
    ensures kinds { KeepsKinds kind_at restarted }
    ensures served { IsServed kind_at main_flow }
    ensures lives { Differ (first_life 1 ∷ lives_at 1 two_nodes restarted two_services) }
{}

/// A client starts again with another life and calls anew. Both calls are handed out, in their order, and
/// both are replied to; the late reply to the first answers nothing.
pub fn client_starts_again()
    ensures called { calls_on main_flow two_nodes restarted two_services ≡ saying 5 0 (97 ∷ []) ∷ saying 6 0 (98 ∷ []) ∷ [] }
    ensures handed_out { requests_on main_flow two_nodes restarted two_services ≡ saying 5 0 (97 ∷ []) ∷ saying 6 0 (98 ∷ []) ∷ [] }
    ensures replied { replies_on main_flow two_nodes restarted two_services ≡ saying 5 0 (65 ∷ []) ∷ saying 6 0 (66 ∷ []) ∷ [] }
    ensures answers { answers_at 1 two_nodes restarted two_services ≡ saying 6 0 (66 ∷ []) ∷ [] }
    ensures lives { lives_at 1 two_nodes restarted two_services ≡ 6 ∷ [] }
{}

/// A service finds no memory in the turn in which a call comes, after the place where it hands it out. The
/// call is handed out once, and the node does nothing more. The duties can be met by such a list.
pub fn service_finds_no_memory()
    ensures called { calls_on main_flow two_nodes out_of_memory two_services ≡ saying 5 0 (97 ∷ []) ∷ [] }
    ensures handed_out { requests_on main_flow two_nodes out_of_memory two_services ≡ saying 5 0 (97 ∷ []) ∷ [] }
    ensures duties { KeepsTurns two_nodes out_of_memory two_services }
{}

/// The premises hold to the end where a client starts again and both replies come to its second life.
pub fn client_that_starts_again_keeps_the_duties()
    ensures { KeepsTurns two_nodes restarted two_services }
{}

/// A client finds no memory in its second call, after the place where it is made. Both of its calls end in
/// that turn, as its node closes. The duties can be met by such a list.
pub fn client_finds_no_memory()
    ensures called { calls_at 1 two_nodes client_without_memory two_services ≡ saying 5 0 (97 ∷ []) ∷ saying 5 1 (98 ∷ []) ∷ [] }
    ensures told { told_at 1 two_nodes client_without_memory two_services ≡ Unsure (number_with 5 0) Closed ∷ Unsure (number_with 5 1) Closed ∷ [] }
    ensures duties { KeepsTurns two_nodes client_without_memory two_services }
{}

/// A client that nobody listed calls a service that has no route at first, and is answered: the service gets
/// a route once the call has come. The duties can be met by such a list.
pub fn unlisted_client_is_answered()
    ensures answers { answers_at 1 lists_none answered_unlisted without_routes ≡ saying 5 0 (65 ∷ []) ∷ [] }
    ensures duties { KeepsTurns lists_none answered_unlisted without_routes }
{}
