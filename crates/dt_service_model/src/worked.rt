//! Worked runs: what the definitions compute. Numbers in the runs are moments in milliseconds.
#![tactic(auto, unfolding(dt_layout::specs::Spelling::gram_spelling, dt_layout::specs::Spelling::packet_spelling, dt_layout::specs::Reading::gram_in, dt_layout::specs::Reading::packet_in, dt_layout::specs::Reading::packet_fault, dt_layout::specs::Reading::gram_fault, dt_layout::specs::Carried::life_of, dt_layout::specs::Carried::to_of, dt_layout::specs::Carried::lowered))]

ghost use Rattle.std.specs.Prelude.{◌≡◌, [], ◌∷◌};
ghost use Rattle.dt_service_model.specs.declared.answers.Declined.TheVariants as declined;
ghost use Rattle.dt_service_model.specs.declared.answers.Made.TheVariants as made;
ghost use Rattle.dt_service_model.specs.declared.answers.Replied.TheVariants as replied;
ghost use Rattle.dt_service_model.specs.declared.calls.Cause.TheVariants as cause;
ghost use Rattle.dt_service_model.specs.declared.happenings.Happening.TheVariants.{Answered, ReplyUncertain, Request, Unsure};
ghost use Rattle.dt_world_model.specs.Worked.{main_flow};
ghost use Rattle.dt_service_model.specs.CallBook.{no_counts};
ghost use Rattle.dt_service_model.specs.Names.{number_with};
ghost use Rattle.dt_service_model.specs.Runs.{answered_in_any_order, asked_again, client_restarts_at_a_slow_service, given_up_and_served, life_used_twice, narrow, no_room_for_a_reply, reply_given_up, reply_late, request_lost, server_restarts_before_its_reply, short_of_room, tail_and_head_lost};
ghost use Rattle.dt_service_model.specs.Worked.{Happens, IsMade, IsReplied, five, on_main, rest_after, told_by, usual};

/// Two calls are answered, the later one first, and a token has one reply.
pub fn answered_in_any_order()
    ensures told { told_by answered_in_any_order usual ≡ IsMade 0 (made.Call (five 0)) ∷ IsMade 0 (made.Call (five 1)) ∷ Happens 40 (Request (on_main (five 0)) (97 ∷ [])) ∷ Happens 40 (Request (on_main (five 1)) (98 ∷ [])) ∷ IsReplied 70 replied.Done ∷ IsReplied 70 replied.Done ∷ IsReplied 70 replied.Gone ∷ Happens 110 (Answered (five 1) (66 ∷ [])) ∷ Happens 110 (Answered (five 0) (65 ∷ [])) ∷ [] }
    ensures rest { rest_after answered_in_any_order usual ≡ record { waiting = []; open_names = []; at_client = no_counts; at_server = no_counts } }
{}

/// A request that is lost is given up, and its call is unsure then and no moment sooner.
pub fn request_lost()
    ensures told { told_by request_lost usual ≡ IsMade 0 (made.Call (five 0)) ∷ Happens 5200 (Unsure (five 0) cause.GivenUp) ∷ [] }
    ensures rest { rest_after request_lost usual ≡ record { waiting = []; open_names = []; at_client = no_counts; at_server = no_counts } }
{}

/// Patience ends a call, and the reply that comes later is counted.
pub fn reply_late()
    ensures told { told_by reply_late usual ≡ IsMade 0 (made.Call (five 0)) ∷ Happens 40 (Request (on_main (five 0)) (97 ∷ [])) ∷ IsReplied 40 replied.Done ∷ Happens 3000 (Unsure (five 0) cause.Patience) ∷ [] }
    ensures rest { rest_after reply_late usual ≡ record { waiting = []; open_names = []; at_client = record no_counts { late = 1 }; at_server = no_counts } }
{}

/// Two replies are lost and given up, which is told once, with the flow of their requests. Patience ends the
/// calls.
pub fn reply_given_up()
    ensures told { told_by reply_given_up usual ≡ IsMade 0 (made.Call (five 0)) ∷ IsMade 0 (made.Call (five 1)) ∷ Happens 40 (Request (on_main (five 0)) (97 ∷ [])) ∷ Happens 40 (Request (on_main (five 1)) (98 ∷ [])) ∷ IsReplied 40 replied.Done ∷ IsReplied 40 replied.Done ∷ Happens 5240 (ReplyUncertain main_flow) ∷ Happens 8000 (Unsure (five 0) cause.Patience) ∷ Happens 8000 (Unsure (five 1) cause.Patience) ∷ [] }
    ensures rest { rest_after reply_given_up usual ≡ record { waiting = []; open_names = []; at_client = no_counts; at_server = no_counts } }
{}

/// A reply to a call of a former life of the client answers no call of the present one.
pub fn client_restarts_at_a_slow_service()
    ensures told { told_by client_restarts_at_a_slow_service usual ≡ IsMade 0 (made.Call (five 0)) ∷ Happens 40 (Request (on_main (five 0)) (112 ∷ 97 ∷ 121 ∷ 32 ∷ 65 ∷ [])) ∷ IsMade 6299 (made.Declined (declined.Quiet 6300)) ∷ IsMade 6300 (made.Call (number_with 6 0)) ∷ Happens 6320 (Request (on_main (number_with 6 0)) (112 ∷ 97 ∷ 121 ∷ 32 ∷ 66 ∷ [])) ∷ IsReplied 6320 replied.Done ∷ IsReplied 6340 replied.Done ∷ Happens 6360 (Answered (number_with 6 0) (112 ∷ 97 ∷ 105 ∷ 100 ∷ 32 ∷ 66 ∷ [])) ∷ [] }
    ensures rest { rest_after client_restarts_at_a_slow_service usual ≡ record { waiting = []; open_names = []; at_client = record no_counts { old = 1 }; at_server = no_counts } }
{}

/// A server that starts again has no token of its former life, and patience alone ends the call.
pub fn server_restarts_before_its_reply()
    ensures told { told_by server_restarts_before_its_reply usual ≡ IsMade 0 (made.Call (five 0)) ∷ Happens 40 (Request (on_main (five 0)) (97 ∷ [])) ∷ IsReplied 100 replied.Gone ∷ IsReplied 6400 replied.Gone ∷ IsMade 6400 (made.Call (five 1)) ∷ Happens 6410 (Request (on_main (five 1)) (98 ∷ [])) ∷ IsReplied 6410 replied.Done ∷ Happens 6420 (Answered (five 1) (66 ∷ [])) ∷ Happens 8000 (Unsure (five 0) cause.Patience) ∷ [] }
    ensures rest { rest_after server_restarts_before_its_reply usual ≡ record { waiting = []; open_names = []; at_client = no_counts; at_server = no_counts } }
{}

/// Where a request is given up and its reply comes in that very turn the call is answered; where it comes
/// in a later one the call is unsure.
pub fn given_up_and_served()
    ensures told { told_by given_up_and_served usual ≡ IsMade 0 (made.Call (five 0)) ∷ IsMade 1 (made.Call (five 1)) ∷ Happens 40 (Request (on_main (five 0)) (97 ∷ [])) ∷ Happens 40 (Request (on_main (five 1)) (98 ∷ [])) ∷ IsReplied 5151 replied.Done ∷ IsReplied 5151 replied.Done ∷ Happens 5200 (Answered (five 0) (65 ∷ [])) ∷ Happens 5201 (Unsure (five 1) cause.GivenUp) ∷ [] }
    ensures rest { rest_after given_up_and_served usual ≡ record { waiting = []; open_names = []; at_client = record no_counts { late = 1 }; at_server = no_counts } }
{}

/// Where the tail of a request and the head of the next are lost, what is left of them makes no request.
pub fn tail_and_head_lost()
    ensures told { told_by tail_and_head_lost narrow ≡ IsMade 0 (made.Call (five 0)) ∷ IsMade 0 (made.Call (five 1)) ∷ Happens 5200 (Unsure (five 0) cause.GivenUp) ∷ Happens 5200 (Unsure (five 1) cause.GivenUp) ∷ IsMade 5260 (made.Call (five 2)) ∷ Happens 5270 (Request (on_main (five 2)) (67 ∷ 67 ∷ [])) ∷ [] }
    ensures rest { rest_after tail_and_head_lost narrow ≡ record { waiting = (five 2) ∷ []; open_names = (five 2) ∷ []; at_client = no_counts; at_server = record no_counts { cut = 1 } } }
{}

/// A call for which there is no room is declined, and a reply for which there is none leaves its token open.
pub fn no_room_for_a_reply()
    ensures told { told_by no_room_for_a_reply short_of_room ≡ IsMade 0 (made.Call (five 0)) ∷ IsMade 0 (made.Declined (declined.Full 12)) ∷ IsMade 0 (made.Call (five 1)) ∷ Happens 40 (Request (on_main (five 0)) (48 ∷ 49 ∷ 50 ∷ 51 ∷ 52 ∷ 53 ∷ 54 ∷ 55 ∷ 56 ∷ 57 ∷ 48 ∷ 49 ∷ 50 ∷ 51 ∷ 52 ∷ 53 ∷ 54 ∷ 55 ∷ 56 ∷ 57 ∷ [])) ∷ Happens 40 (Request (on_main (five 1)) (98 ∷ [])) ∷ IsReplied 40 replied.Done ∷ IsReplied 40 (replied.Full 12) ∷ Happens 80 (Answered (five 0) (48 ∷ 49 ∷ 50 ∷ 51 ∷ 52 ∷ 53 ∷ 54 ∷ 55 ∷ 56 ∷ 57 ∷ 48 ∷ 49 ∷ 50 ∷ 51 ∷ 52 ∷ 53 ∷ 54 ∷ 55 ∷ 56 ∷ 57 ∷ [])) ∷ IsReplied 90 replied.Done ∷ Happens 100 (Answered (five 1) (97 ∷ 32 ∷ 114 ∷ 101 ∷ 112 ∷ 108 ∷ 121 ∷ 32 ∷ 111 ∷ 102 ∷ 32 ∷ 50 ∷ 50 ∷ 32 ∷ 108 ∷ 101 ∷ 116 ∷ 116 ∷ 101 ∷ 114 ∷ 115 ∷ 33 ∷ [])) ∷ [] }
    ensures rest { rest_after no_room_for_a_reply short_of_room ≡ record { waiting = []; open_names = []; at_client = no_counts; at_server = no_counts } }
{}

/// After an unsure call an answered one on the same flow is the last word: what came before it was handed
/// out before it.
pub fn asked_again()
    ensures told { told_by asked_again usual ≡ IsMade 0 (made.Call (five 0)) ∷ Happens 300 (Unsure (five 0) cause.Patience) ∷ IsMade 300 (made.Call (five 1)) ∷ Happens 510 (Request (on_main (five 0)) (111 ∷ 114 ∷ 100 ∷ 101 ∷ 114 ∷ 32 ∷ 49 ∷ 55 ∷ [])) ∷ IsReplied 510 replied.Done ∷ Happens 1110 (Request (on_main (five 1)) (119 ∷ 97 ∷ 115 ∷ 32 ∷ 49 ∷ 55 ∷ 32 ∷ 98 ∷ 111 ∷ 111 ∷ 107 ∷ 101 ∷ 100 ∷ 63 ∷ [])) ∷ IsReplied 1110 replied.Done ∷ Happens 1120 (Answered (five 1) (121 ∷ 101 ∷ 115 ∷ [])) ∷ [] }
    ensures rest { rest_after asked_again usual ≡ record { waiting = []; open_names = []; at_client = record no_counts { late = 1 }; at_server = no_counts } }
{}

/// A life that is given twice breaks the rule: an old reply answers another call. Here a count tells it.
pub fn life_used_twice()
    ensures told { told_by life_used_twice usual ≡ IsMade 0 (made.Call (five 0)) ∷ IsMade 0 (made.Call (five 1)) ∷ Happens 40 (Request (on_main (five 0)) (112 ∷ 97 ∷ 121 ∷ 32 ∷ 65 ∷ [])) ∷ Happens 40 (Request (on_main (five 1)) (112 ∷ 97 ∷ 121 ∷ 32 ∷ 67 ∷ [])) ∷ IsMade 6300 (made.Call (five 0)) ∷ IsReplied 6300 replied.Done ∷ IsReplied 6300 replied.Done ∷ Happens 6310 (Answered (five 0) (112 ∷ 97 ∷ 105 ∷ 100 ∷ 32 ∷ 65 ∷ [])) ∷ Happens 6310 (Request (on_main (five 0)) (112 ∷ 97 ∷ 121 ∷ 32 ∷ 66 ∷ [])) ∷ [] }
    ensures rest { rest_after life_used_twice usual ≡ record { waiting = []; open_names = (five 0) ∷ []; at_client = record no_counts { strange = 1 }; at_server = no_counts } }
{}
