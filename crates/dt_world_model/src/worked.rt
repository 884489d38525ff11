//! Worked steps: what the definitions compute on a few inputs.
#![tactic(auto, unfolding(dt_layout::specs::Spelling::gram_spelling, dt_layout::specs::Spelling::packet_spelling, dt_layout::specs::Reading::gram_in, dt_layout::specs::Reading::packet_in, dt_layout::specs::Reading::packet_fault, dt_layout::specs::Reading::gram_fault, dt_layout::specs::Carried::life_of, dt_layout::specs::Carried::to_of, dt_layout::specs::Carried::lowered))]

ghost use Rattle.std.specs.Prelude.{◌≡◌, true, false, [], ◌∷◌, Some, None, Ok, Err};
ghost use Rattle.dt_layout.specs.Spelling.{Close};
ghost use Rattle.dt_reports.specs.declared.faults.Refusal.TheVariants as refusal;
ghost use Rattle.dt_reports.specs.declared.faults.SetupFault.TheVariants as setup;
ghost use Rattle.dt_reports.specs.declared.faults.StepFault.TheVariants as step;
ghost use Rattle.dt_reports.specs.declared.reports.Report.TheVariants as report;
ghost use Rattle.dt_reports.specs.Told.{read_told};
ghost use Rattle.dt_flow_model.specs.Frames.{flow_between};
ghost use Rattle.dt_world_model.specs.declared.links.Entered.TheVariants.{Full, NoRoute, Queued};
ghost use Rattle.dt_world_model.specs.Host.{host_wake};
ghost use Rattle.dt_world_model.specs.Relay.{enter, leave, new_relay, out_wake, push};
ghost use Rattle.dt_world_model.specs.Setup.{AddStation};
ghost use Rattle.dt_world_model.specs.Station.{Arrive, Send};
ghost use Rattle.dt_world_model.specs.World.{last_lines};
ghost use Rattle.dt_world_model.specs.WorldStep.{Arrives, Loses, Passes, Reads, Refused, Restarts, Sends, Ticks, run, world_step};
ghost use Rattle.dt_world_model.specs.Worked.{bare_line, charged_and_passed, filled, hello, host_seven, host_two, life_left, line, link_call, main_flow, other_flow, parcel_of, port_flow, route_call, setup_with, short_lived, standard, station_greeted, station_of, told_at, turns, two_stations, whole_run, world_two};

/// Two octets that went out at 0 and at 1 on two flows are given up at 5200 and at 5201. Then nothing
/// is due before 6200, when the first record is released. Of octets that both went out at 0 the one of
/// the record that was made first is given up first.
pub fn host_gives_up_in_turn()
    ensures not_yet { (turns 9 5199 (host_two 1)).0 ≡ [] }
    ensures first { (turns 9 5200 (host_two 1)).0 ≡ report.Uncertain main_flow 1 ∷ [] }
    ensures second { (turns 9 5201 (turns 9 5200 (host_two 1)).1).0 ≡ report.Uncertain other_flow 1 ∷ [] }
    ensures wake { host_wake standard (turns 9 5201 (turns 9 5200 (host_two 1)).1).1 ≡ Some 6200 }
    ensures released { (turns 9 6200 (turns 9 5201 (turns 9 5200 (host_two 1)).1).1).0 ≡ report.Released main_flow true ∷ [] }
    ensures by_making { (turns 9 5200 (host_two 0)).0 ≡ report.Uncertain main_flow 1 ∷ report.Uncertain other_flow 1 ∷ [] }
{}

/// At one moment an act of each class is due. They are done in the order of the classes, whatever the
/// order of making and the due moments.
pub fn acts_go_by_class()
    ensures { (turns 20 10000 host_seven).0 ≡ report.Uncertain (port_flow 11) 1 ∷ report.Released (port_flow 12) true ∷ report.Released (port_flow 13) false ∷ report.Acked (port_flow 14) 5 4096 ∷ report.Resent (port_flow 15) 0 1 true true true ∷ report.Sent (port_flow 16) 0 1 true true true ∷ report.Met (port_flow 17) 0 ∷ [] }
{}

/// A packet of life 999 that came over a link of charge 998 has one millisecond left, which its way
/// through the relay costs. With a charge of 997 it leaves with the last one, and with a charge of 999
/// it isn't admitted.
pub fn last_millisecond_in_a_relay()
    ensures leaves { charged_and_passed 997 ≡ Some 1 }
    ensures expires { charged_and_passed 998 ≡ Some 0 }
    ensures stays_out { charged_and_passed 999 ≡ None }
{}

/// After a packet has left a link of pace 10, the next leaves 10 ms later and not before. One that
/// expires is none that left: the next leaves at once.
pub fn link_keeps_its_pace()
    ensures not_yet { life_left (leave 9 (filled 1 10)).0 ≡ None }
    ensures leaves { life_left (leave 10 (filled 1 10)).0 ≡ Some 989 }
    ensures wake { out_wake (filled 1 10) (filled 1 10).waits ≡ Some 10 }
    ensures expires { life_left (leave 10 short_lived).0 ≡ Some 0 }
    ensures at_once { life_left (leave 10 (leave 10 short_lived).1).0 ≡ Some 989 }
{}

/// On a link that has let one packet out, 64 wait, and one more is dropped.
pub fn link_is_full()
    ensures last_one { (push (parcel_of 1000 hello) 0 (filled 63 1000)).0 ≡ Queued 1 }
    ensures full { (push (parcel_of 1000 hello) 0 (filled 64 1000)).0 ≡ Full 1 }
{}

/// A packet to a node that no route names is dropped.
pub fn no_route_to_a_node()
    ensures { (enter (parcel_of 1000 hello) 0 (new_relay [] [] ((record { to = 3; link = 1 }) ∷ []))).0 ≡ NoRoute 2 }
{}

/// A station settles, takes the octets of a send, and settles again: two segments that are due are
/// given up before the send is reported, and the new segment goes out after it.
pub fn station_settles_before_and_after()
    ensures { told_at 5201 (Send main_flow (98 ∷ []) true true) (station_of (host_two 1)) ≡ report.Uncertain main_flow 1 ∷ report.Uncertain other_flow 1 ∷ report.Took main_flow 1 ∷ report.Sent main_flow 1 1 true true true ∷ report.Put 1 999 ∷ [] }
{}

/// A closing packet with the number that is expected is reported, any other is dropped, and without a
/// record it is dropped too.
pub fn closing_packet_comes()
    ensures told { told_at 20 (Arrive 1 (parcel_of 999 (Close 10 20 5))) station_greeted ≡ report.Closing main_flow 5 ∷ [] }
    ensures dropped { told_at 20 (Arrive 1 (parcel_of 999 (Close 10 20 4))) station_greeted ≡ report.Dropped main_flow 4 ∷ [] }
    ensures unknown { told_at 20 (Arrive 1 (parcel_of 999 (Close 11 20 5))) station_greeted ≡ report.Dropped other_flow 5 ∷ [] }
{}

/// A station whose clock is 5 ms ahead of the world takes nothing to send until its own clock reads
/// 6205. A station hears nothing until its quiet time ends.
pub fn quiet_time_is_by_the_own_clock()
    ensures sends { (run (Restarts 1 ∷ Passes 6199 ∷ Sends main_flow (98 ∷ []) true true ∷ Passes 1 ∷ Sends main_flow (98 ∷ []) true true ∷ []) (world_two 5 0)).0 ≡ line 0 1 (report.Restarted 1) ∷ line 6199 1 (report.Refused main_flow (refusal.Quiet 6205)) ∷ line 6200 1 (report.Took main_flow 1) ∷ line 6200 1 (report.Sent main_flow 0 1 true true true) ∷ line 6200 1 (report.PutAs 1 999 0) ∷ [] }
    ensures hears { (run (Arrives 0 ∷ Passes 1 ∷ Arrives 0 ∷ []) (run (Restarts 2 ∷ Passes 6199 ∷ Sends main_flow (98 ∷ []) true true ∷ []) (world_two 0 0)).1).0 ≡ line 6199 2 (report.Quiet 6200) ∷ line 6200 2 (report.Accepted main_flow 0 1 true) ∷ line 6200 2 (report.Acked main_flow 1 4095) ∷ line 6200 2 (report.PutAs 2 999 1) ∷ [] }
{}

/// A copy arrives when it has been on its link for the link's charge, and one millisecond later it is
/// refused.
pub fn copy_arrives_at_its_charge()
    ensures arrives { (run (Arrives 0 ∷ []) (run (Sends main_flow (97 ∷ []) true true ∷ Passes 50 ∷ []) (world_two 0 0)).1).0 ≡ line 50 2 (report.Accepted main_flow 0 1 true) ∷ line 50 2 (report.Acked main_flow 1 4095) ∷ line 50 2 (report.PutAs 2 999 1) ∷ [] }
    ensures late { world_step (run (Sends main_flow (97 ∷ []) true true ∷ Passes 51 ∷ []) (world_two 0 0)).1 (Arrives 0) ≡ Refused (step.TooLate 51 50) }
    ensures unknown { world_step (world_two 0 0) (Arrives 7) ≡ Refused (step.NoCopy 7) }
    ensures lost { world_step (run (Sends main_flow (97 ∷ []) true true ∷ Loses 0 ∷ Passes 51 ∷ []) (world_two 0 0)).1 (Arrives 0) ≡ Refused (step.Lost 0) }
{}

/// A packet that waits for its link's pace leaves at the next tick; a restart drops it.
pub fn restart_drops_what_waits()
    ensures leaves { (run (Passes 10 ∷ Ticks 1 ∷ []) (run (Sends main_flow (97 ∷ []) true true ∷ Sends main_flow (98 ∷ []) true true ∷ []) (world_two 0 10)).1).0 ≡ line 10 1 (report.PutAs 1 989 1) ∷ [] }
    ensures dropped { (run (Restarts 1 ∷ Passes 10 ∷ Ticks 1 ∷ []) (run (Sends main_flow (97 ∷ []) true true ∷ Sends main_flow (98 ∷ []) true true ∷ []) (world_two 0 10)).1).0 ≡ line 0 1 (report.Restarted 1) ∷ [] }
{}

/// A call of a setup is refused by the first of its tests that fails.
pub fn setup_is_refused()
    ensures station_twice { setup_with (AddStation 1 0 ∷ AddStation 1 5 ∷ []) ≡ Err (setup.Twice 1) }
    ensures link_twice { setup_with (AddStation 1 0 ∷ AddStation 2 0 ∷ link_call 1 1 2 50 0 ∷ link_call 1 8 9 50 0 ∷ []) ≡ Err (setup.Twice 1) }
    ensures no_from { setup_with (AddStation 1 0 ∷ link_call 1 8 9 50 0 ∷ []) ≡ Err (setup.Unknown 8) }
    ensures no_to { setup_with (AddStation 1 0 ∷ link_call 1 1 9 50 0 ∷ []) ≡ Err (setup.Unknown 9) }
    ensures own_link { setup_with (AddStation 1 0 ∷ link_call 1 1 1 50 0 ∷ []) ≡ Err (setup.Stray 1) }
    ensures no_station { setup_with (route_call 7 7 7 ∷ []) ≡ Err (setup.Unknown 7) }
    ensures no_link { setup_with (AddStation 1 0 ∷ route_call 1 1 7 ∷ []) ≡ Err (setup.Unknown 7) }
    ensures stray_route { setup_with (AddStation 1 0 ∷ AddStation 2 0 ∷ link_call 3 1 2 50 0 ∷ route_call 2 9 3 ∷ []) ≡ Err (setup.Stray 3) }
    ensures own_route { setup_with (AddStation 1 0 ∷ AddStation 2 0 ∷ link_call 3 1 2 50 0 ∷ route_call 1 1 3 ∷ []) ≡ Err (setup.Stray 3) }
    ensures route_twice { setup_with (AddStation 1 0 ∷ AddStation 2 0 ∷ link_call 3 1 2 50 0 ∷ route_call 1 9 3 ∷ route_call 1 9 3 ∷ []) ≡ Err (setup.Twice 9) }
{}

/// A short exchange, from its setup to its last line.
pub fn short_exchange()
    ensures { whole_run (Sends main_flow (104 ∷ 101 ∷ 108 ∷ 108 ∷ 111 ∷ []) true true ∷ Passes 40 ∷ Arrives 0 ∷ Passes 30 ∷ Arrives 1 ∷ Reads main_flow 100 ∷ []) (world_two 0 0) ≡ line 0 1 (report.Took main_flow 5) ∷ line 0 1 (report.Sent main_flow 0 5 true true true) ∷ line 0 1 (report.PutAs 1 999 0) ∷ line 40 2 (report.Accepted main_flow 0 5 true) ∷ line 40 2 (report.Acked main_flow 5 4091) ∷ line 40 2 (report.PutAs 2 999 1) ∷ line 70 1 (report.Settled main_flow 5 4091) ∷ line 70 2 (read_told main_flow true true true (104 ∷ 101 ∷ 108 ∷ 108 ∷ 111 ∷ [])) ∷ bare_line 70 (report.FlowTotals main_flow 5 5 0 0 5 5) ∷ bare_line 70 report.End ∷ [] }
{}

/// Of two octets one was given up and one is open: the totals at the end of a run.
pub fn totals_of_a_flow()
    ensures { last_lines (run (Sends main_flow (97 ∷ []) true true ∷ Loses 0 ∷ Passes 5200 ∷ Ticks 1 ∷ Sends main_flow (98 ∷ []) true true ∷ []) (world_two 0 0)).1 ≡ bare_line 5200 (report.FlowTotals main_flow 2 0 1 1 0 0) ∷ bare_line 5200 report.End ∷ [] }
{}

/// A flow from a station to itself is refused, also where the station isn't there. Then the station is
/// tested.
pub fn events_are_refused()
    ensures own { world_step (world_two 0 0) (Sends (flow_between 9 10 9 20) (97 ∷ []) true true) ≡ Refused step.BadFlow }
    ensures own_read { world_step (world_two 0 0) (Reads (flow_between 1 10 1 20) 5) ≡ Refused step.BadFlow }
    ensures sender { world_step (world_two 0 0) (Sends (flow_between 9 10 2 20) (97 ∷ []) true true) ≡ Refused (step.NoStation 9) }
    ensures receiver { world_step (world_two 0 0) (Reads (flow_between 2 10 9 20) 5) ≡ Refused (step.NoStation 9) }
    ensures tick { world_step (world_two 0 0) (Ticks 9) ≡ Refused (step.NoStation 9) }
    ensures restart { world_step (world_two 0 0) (Restarts 9) ≡ Refused (step.NoStation 9) }
    ensures lose { world_step (world_two 0 0) (Loses 7) ≡ Refused (step.NoCopy 7) }
{}
