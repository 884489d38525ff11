//! Worked steps: what the definitions compute on a few inputs.
ghost use Rattle.std.specs.Prelude.{◌≡◌, true, false, [], ◌∷◌, take, length, map, Some, None};
ghost use Rattle.dt_items.specs.declared.item.Item.{Item};
ghost use Rattle.dt_flow_model.specs.Acting.{receiver_again, sender_again};
ghost use Rattle.dt_flow_model.specs.declared.acts.RecvAct.TheVariants.{Acked};
ghost use Rattle.dt_flow_model.specs.declared.acts.RecvKind.TheVariants.{Ack, Release};
ghost use Rattle.dt_flow_model.specs.declared.acts.SendKind.TheVariants.{Send};
ghost use Rattle.dt_flow_model.specs.declared.acts.SendAct.TheVariants.{GaveUp, Met, Renewed, Resent, Sent};
ghost use Rattle.dt_flow_model.specs.declared.arrivals.Arrived.TheVariants.{Accepted, Closing, Dropped, Replied};
ghost use Rattle.dt_flow_model.specs.Flow.{new_flow};
ghost use Rattle.dt_flow_model.specs.ReceiveRecord.{after_data, answer_to_close, answer_to_data, answer_to_meet, recv_due_of, recv_wake_of};
ghost use Rattle.dt_flow_laws.specs.Worked.{acked, acked_count, acted, acts, eight_in, eight_sent, first_of, four_acked, four_got, four_in, four_read, four_sent, four_taken, got_first, got_second, got_third, got_third_early, hello, hello_in, long, long_sent, message, moment_of, narrow, near_the_end, ninth_in, ninth_near_the_end, ninth_waits, nobody, one_octet, one_resent, one_sent, part, run_sent_out, segment_at, short_near_the_end, short_runs, short_runs_near_the_end, six, six_given_up, six_met, six_sent, taking, ten_again, ten_cut, ten_early, ten_first, ten_in, ten_part, ten_second, ten_sent, ten_third, told_by, took, twelve_acked, twelve_sent, usual, wake_at, without_record};

/// 250 octets go out as segments of 100, 100 and 50: the first begins the message, and the last ends
/// it.
pub fn long_message_is_cut_in_three()
    ensures { acts 9 usual 0 (taking usual long) ≡ Sent (record { number = 0; length = 100; drf = true; begin = true; end = false }) ∷ Sent (record { number = 100; length = 100; drf = false; begin = false; end = false }) ∷ Sent (record { number = 200; length = 50; drf = false; begin = false; end = true }) ∷ [] }
{}

/// The third segment comes first and is dropped, the first makes the record, the third is too early
/// and is replied to, and the second is accepted.
pub fn segments_come_in_another_order()
    ensures dropped { answer_to_data usual nobody false 200 (part 200 50) ≡ Dropped }
    ensures first { answer_to_data usual nobody true 0 (part 0 100) ≡ Accepted true 100 }
    ensures early { answer_to_data usual got_first false 200 (part 200 50) ≡ Replied 100 3996 }
    ensures second { answer_to_data usual got_third_early false 100 (part 100 100) ≡ Accepted false 100 }
{}

/// The acknowledgement that is owed goes out 200 ms after the acceptance, and acknowledges two
/// segments.
pub fn two_segments_are_acknowledged()
    ensures not_yet { recv_due_of usual 199 got_second.standing ≡ None }
    ensures due { recv_due_of usual 200 got_second.standing ≡ Some (Ack, 200) }
    ensures told { told_by usual got_second ≡ Some (Acked 200 3896) }
    ensures count { acked_count usual 200 3896 long_sent ≡ Some 200 }
{}

/// The third segment, which is the leftmost then, goes out again with the data-run flag, 500 ms after
/// its first transmission, is accepted, and its end mark makes the acknowledgement due at once.
pub fn third_segment_goes_again()
    ensures not_yet { acts 9 usual 499 (acked usual 200 3896 long_sent) ≡ [] }
    ensures again { acts 9 usual 500 (acked usual 200 3896 long_sent) ≡ Resent (record { number = 200; length = 50; drf = true; begin = false; end = true }) ∷ [] }
    ensures due { recv_due_of usual 500 got_third.standing ≡ Some (Ack, 500) }
    ensures told { told_by usual got_third ≡ Some (Acked 250 3846) }
    ensures first { map (λ (i : Item). i.run) (take 2 got_third.unread) ≡ true ∷ false ∷ [] }
{}

/// An octet whose segment first went out at 0 goes again at 2999, no more from 3000 on, and is given
/// up at 5200.
pub fn octet_is_given_up()
    ensures again { acts 9 usual 2999 one_sent ≡ Resent (record { number = 0; length = 1; drf = true; begin = true; end = true }) ∷ [] }
    ensures no_more { acts 9 usual 3000 one_sent ≡ [] }
    ensures not_yet { acts 9 usual 5199 one_resent ≡ [] }
    ensures given_up { acts 9 usual 5200 one_resent ≡ GaveUp 1 ∷ [] }
{}

/// After it the next octet goes out with number 1 and the data-run flag, and a receiver without a
/// record accepts it as a new run.
pub fn next_octet_leads()
    ensures sent { acts 9 usual 5200 (took one_octet (acted 9 usual 5200 one_resent)) ≡ Sent (record { number = 1; length = 1; drf = true; begin = true; end = true }) ∷ [] }
    ensures accepted { answer_to_data usual nobody true 1 one_octet ≡ Accepted true 1 }
{}

/// A record is woken when its segment is to go again, and then when it is to be given up.
pub fn record_is_woken()
    ensures first { wake_at usual one_sent ≡ Some 500 }
    ensures given_up { wake_at usual one_resent ≡ Some 5200 }
    ensures receiver { recv_wake_of usual got_second.standing ≡ Some 200 }
{}

/// With runs of eight octets the record is renewed 6200 ms after its last transmission, and goes on
/// with number 0 and the data-run flag.
pub fn record_is_renewed()
    ensures first { acts 9 short_runs 0 (taking short_runs (first_of 20)) ≡ Sent (record { number = 0; length = 8; drf = true; begin = true; end = false }) ∷ [] }
    ensures not_yet { acts 9 short_runs 6199 run_sent_out ≡ [] }
    ensures renewed { acts 9 short_runs 6200 run_sent_out ≡ Renewed ∷ Sent (record { number = 0; length = 8; drf = true; begin = false; end = false }) ∷ [] }
{}

/// A window of four octets is used up: 800 ms later a rendezvous packet asks for the window, and the
/// reply acknowledges nothing.
pub fn window_is_asked_for()
    ensures sent { acts 9 narrow 0 (taking narrow six) ≡ Sent (record { number = 0; length = 4; drf = true; begin = true; end = false }) ∷ [] }
    ensures owed { recv_due_of narrow 200 four_taken.standing ≡ Some (Ack, 200) }
    ensures told { told_by narrow four_taken ≡ Some (Acked 4 0) }
    ensures paid { recv_due_of narrow 200 four_got.standing ≡ None }
    ensures not_yet { acts 9 narrow 799 six_sent ≡ [] }
    ensures met { acts 9 narrow 800 six_sent ≡ Met 4 ∷ [] }
    ensures reply { answer_to_meet narrow four_got 4 ≡ Replied 4 0 }
    ensures nothing { acked_count narrow 4 0 (acted 9 narrow 800 six_sent) ≡ Some 0 }
{}

/// A read of the four octets opens the window, which is advertised at once; and once the sender has heard
/// of it the rest goes out.
pub fn read_opens_window()
    ensures due { recv_due_of narrow 800 four_read.standing ≡ Some (Ack, 800) }
    ensures told { told_by narrow four_read ≡ Some (Acked 4 4) }
    ensures met { acts 9 narrow 1600 six_met ≡ Met 4 ∷ [] }
    ensures rest { acts 9 narrow 1600 (acked narrow 4 4 (acted 9 narrow 1600 six_met)) ≡ Sent (record { number = 4; length = 2; drf = true; begin = false; end = true }) ∷ [] }
{}

/// A receive record goes 4200 ms after its last acceptance.
pub fn receive_record_goes()
    ensures not_yet { recv_due_of narrow 4199 four_got.standing ≡ None }
    ensures due { recv_due_of narrow 4200 four_got.standing ≡ Some (Release, 4200) }
{}

/// A station that starts again at 0 is silent until 6200 of its clock, and until 6205 where the
/// clock reads 5 then.
pub fn station_is_silent()
    ensures sender { (sender_again usual (new_flow 0 0)).sender_until ≡ 6200 }
    ensures own_clock { (sender_again usual (new_flow 5 0)).sender_until ≡ 6205 }
    ensures receiver { (receiver_again usual (new_flow 0 0)).receiver_until ≡ 6200 }
{}

/// A packet that comes again is replied to and not accepted, also 3949 ms after the first, while the
/// record stands; the record goes 4200 ms after the acceptance.
pub fn repeats_are_replied_to()
    ensures first { answer_to_data usual nobody true 0 hello ≡ Accepted true 5 }
    ensures told { told_by usual (after_data usual 0 nobody true 0 hello) ≡ Some (Acked 5 4091) }
    ensures again { answer_to_data usual hello_in true 0 hello ≡ Replied 5 4091 }
    ensures much_later { recv_due_of usual 3949 hello_in.standing ≡ None }
    ensures goes { recv_due_of usual 4200 hello_in.standing ≡ Some (Release, 4200) }
    ensures closing { answer_to_close hello_in 5 ≡ Closing 5 }
{}

/// Four octets fill the window and are given up: at once a rendezvous packet asks for the window.
pub fn window_is_asked_for_after_giving_up()
    ensures sent { acts 9 narrow 0 (taking narrow six) ≡ Sent (record { number = 0; length = 4; drf = true; begin = true; end = false }) ∷ [] }
    ensures met { acts 9 narrow 5200 six_given_up ≡ GaveUp 4 ∷ Met 4 ∷ [] }
{}

/// With a quantum of eight octets the ninth waits until 9200 ms after the first went out, and goes out
/// with number 8 then.
pub fn quantum_spaces_transmissions()
    ensures first { acts 9 short_runs 0 (taking short_runs (first_of 4)) ≡ Sent (record { number = 0; length = 4; drf = true; begin = true; end = true }) ∷ [] }
    ensures accepted { answer_to_data short_runs nobody true 0 (first_of 4) ≡ Accepted true 4 }
    ensures told_first { told_by short_runs (after_data short_runs 0 nobody true 0 (first_of 4)) ≡ Some (Acked 4 4092) }
    ensures acked { acked_count short_runs 4 4092 four_sent ≡ Some 4 }
    ensures second { acts 9 short_runs 3500 (took (first_of 4) four_acked) ≡ Sent (record { number = 4; length = 4; drf = true; begin = true; end = true }) ∷ [] }
    ensures goes_on { answer_to_data short_runs four_in true 4 (first_of 4) ≡ Accepted false 4 }
    ensures told { told_by short_runs (after_data short_runs 3500 four_in true 4 (first_of 4)) ≡ Some (Acked 8 4088) }
    ensures acked_again { acked_count short_runs 8 4088 eight_sent ≡ Some 4 }
    ensures waits { acts 9 short_runs 3500 ninth_waits ≡ [] }
    ensures not_yet { acts 9 short_runs 9199 ninth_waits ≡ [] }
    ensures moment { moment_of short_runs 3500 Send ninth_waits ≡ Some 9200 }
    ensures third { acts 9 short_runs 9200 ninth_waits ≡ Sent (record { number = 8; length = 1; drf = true; begin = true; end = true }) ∷ [] }
    ensures record_goes { recv_due_of short_runs 9200 eight_in.standing ≡ Some (Release, 7700) }
    ensures begins_anew { answer_to_data short_runs without_record true 8 (message (98 ∷ [])) ≡ Accepted true 1 }
    ensures told_last { told_by short_runs ninth_in ≡ Some (Acked 9 4087) }
{}

/// The records of these steps: a crossing is noted at 0 and at 9200, and at no other transmission.
pub fn quantum_is_noted_in_the_record()
    ensures first { four_sent ≡ Some (record { left = 0; edge = 512; touched = 0; crossed = Some 0; outstanding = segment_at 0 (first_of 4) 0 ∷ []; waiting = [] }) }
    ensures acked { four_acked ≡ Some (record { left = 4; edge = 4096; touched = 0; crossed = Some 0; outstanding = []; waiting = [] }) }
    ensures second { eight_sent ≡ Some (record { left = 4; edge = 4096; touched = 3500; crossed = Some 0; outstanding = segment_at 4 (first_of 4) 3500 ∷ []; waiting = [] }) }
    ensures waits { ninth_waits ≡ Some (record { left = 8; edge = 4096; touched = 3500; crossed = Some 0; outstanding = []; waiting = message (98 ∷ []) }) }
    ensures third { acted 9 short_runs 9200 ninth_waits ≡ Some (record { left = 8; edge = 4096; touched = 9200; crossed = Some 9200; outstanding = segment_at 8 (message (98 ∷ [])) 9200 ∷ []; waiting = [] }) }
    ensures four_in { four_in.standing ≡ Some (record { expected = 4; touched = 0; due = None; told = 4092 }) }
    ensures eight_in { eight_in.standing ≡ Some (record { expected = 8; touched = 3500; due = None; told = 4088 }) }
    ensures ninth_in { ninth_in.standing ≡ Some (record { expected = 9; touched = 9200; due = Some 9200; told = 4096 }) }
{}

/// Ten octets whose numbers go round at 2^32 go out, are accepted and are acknowledged.
pub fn numbers_go_round()
    ensures sent { acts 9 near_the_end 0 (taking near_the_end (first_of 10)) ≡ Sent (record { number = 4294967292; length = 10; drf = true; begin = true; end = true }) ∷ [] }
    ensures record_sent { ten_sent ≡ Some (record { left = 0; edge = 512; touched = 0; crossed = Some 0; outstanding = segment_at 0 (first_of 10) 0 ∷ []; waiting = [] }) }
    ensures accepted { answer_to_data near_the_end nobody true 4294967292 (first_of 10) ≡ Accepted true 10 }
    ensures record_in { ten_in.standing ≡ Some (record { expected = 6; touched = 0; due = Some 0; told = 4096 }) }
    ensures told { told_by near_the_end ten_in ≡ Some (Acked 6 4086) }
    ensures acked { acked_count near_the_end 6 4086 ten_sent ≡ Some 10 }
    ensures record_acked { acked near_the_end 6 4086 ten_sent ≡ Some (record { left = 10; edge = 4096; touched = 0; crossed = Some 0; outstanding = []; waiting = [] }) }
    ensures closing { answer_to_close ten_in 6 ≡ Closing 6 }
    ensures not_closing { answer_to_close ten_in 4294967292 ≡ Dropped }
    ensures no_record { answer_to_close nobody 6 ≡ Dropped }
{}

/// The same octets in three segments: the first comes twice, the third too early, then the second and
/// the third.
pub fn numbers_go_round_between_segments()
    ensures sent { acts 9 short_near_the_end 0 (taking short_near_the_end (first_of 10)) ≡ Sent (record { number = 4294967292; length = 4; drf = true; begin = true; end = false }) ∷ Sent (record { number = 0; length = 4; drf = false; begin = false; end = false }) ∷ Sent (record { number = 4; length = 2; drf = false; begin = false; end = true }) ∷ [] }
    ensures record_sent { ten_cut ≡ Some (record { left = 0; edge = 512; touched = 0; crossed = Some 0; outstanding = segment_at 0 (ten_part 0 4) 0 ∷ segment_at 4 (ten_part 4 4) 0 ∷ segment_at 8 (ten_part 8 2) 0 ∷ []; waiting = [] }) }
    ensures first { answer_to_data short_near_the_end nobody true 4294967292 (ten_part 0 4) ≡ Accepted true 4 }
    ensures record_first { ten_first.standing ≡ Some (record { expected = 0; touched = 0; due = Some 200; told = 4096 }) }
    ensures again { answer_to_data short_near_the_end ten_first true 4294967292 (ten_part 0 4) ≡ Replied 0 4092 }
    ensures early { answer_to_data short_near_the_end ten_again false 4 (ten_part 8 2) ≡ Replied 0 4092 }
    ensures record_early { ten_early.standing ≡ Some (record { expected = 0; touched = 0; due = None; told = 4092 }) }
    ensures second { answer_to_data short_near_the_end ten_early false 0 (ten_part 4 4) ≡ Accepted false 4 }
    ensures record_second { ten_second.standing ≡ Some (record { expected = 4; touched = 0; due = Some 200; told = 4092 }) }
    ensures third { answer_to_data short_near_the_end ten_second false 4 (ten_part 8 2) ≡ Accepted false 2 }
    ensures record_third { ten_third.standing ≡ Some (record { expected = 6; touched = 0; due = Some 0; told = 4092 }) }
    ensures told { told_by short_near_the_end ten_third ≡ Some (Acked 6 4086) }
{}

/// What acknowledges these segments: the number of the first, or of an end, and no other.
pub fn numbers_are_acknowledged_round_the_end()
    ensures none_of_them { acked_count short_near_the_end 4294967292 512 ten_cut ≡ Some 0 }
    ensures first { acked_count short_near_the_end 0 512 ten_cut ≡ Some 4 }
    ensures second { acked_count short_near_the_end 4 512 ten_cut ≡ Some 8 }
    ensures all { acked_count short_near_the_end 6 512 ten_cut ≡ Some 10 }
    ensures not_in_between { acked_count short_near_the_end 4294967294 512 ten_cut ≡ None }
    ensures not_past_the_end { acked_count short_near_the_end 7 512 ten_cut ≡ None }
{}

/// A quantum of eight octets that begins four numbers before 2^32: the cut ends with it, at number 4,
/// and the octets after it may go out with that number 9200 ms later. Nothing goes out until 6200, and
/// then the record is renewed: its numbers begin anew at the first one. A record that transmitted at
/// 3500 goes on with number 4 at 9200.
pub fn crossing_after_numbers_went_round()
    ensures sent { acts 9 short_runs_near_the_end 0 (taking short_runs_near_the_end (first_of 12)) ≡ Sent (record { number = 4294967292; length = 8; drf = true; begin = true; end = false }) ∷ [] }
    ensures acked { acked_count short_runs_near_the_end 4 4088 twelve_sent ≡ Some 8 }
    ensures moment { moment_of short_runs_near_the_end 200 Send twelve_acked ≡ Some 9200 }
    ensures not_yet { acts 9 short_runs_near_the_end 6199 twelve_acked ≡ [] }
    ensures renewed { acts 9 short_runs_near_the_end 6200 twelve_acked ≡ Renewed ∷ Sent (record { number = 4294967292; length = 4; drf = true; begin = false; end = true }) ∷ [] }
    ensures later { acts 9 short_runs_near_the_end 9199 ninth_near_the_end ≡ [] }
    ensures ninth { acts 9 short_runs_near_the_end 9200 ninth_near_the_end ≡ Sent (record { number = 4; length = 1; drf = true; begin = true; end = true }) ∷ [] }
{}
