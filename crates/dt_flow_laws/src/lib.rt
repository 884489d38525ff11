//! The laws of one flow. Each law is the contract of a public function with an empty body. The
//! definitions that they speak of stand in dt_flow_model; in proofs/Laws the laws can be cited.
#![tactic(auto)]

mod acts;
mod functions;
mod ranges;
mod safety;
mod transit;
mod worked;

pub use acts::{
    acknowledgement_splits_at_an_end, chosen_act_is_at_its_moment, chosen_act_is_due,
    chosen_receiver_act_is_due, cut_is_the_longest, due_kind_is_not_passed_over,
    moments_are_of_their_kinds, moments_stand_until_they_come, next_crossing_is_the_least_multiple,
    resent_segment_goes_first, wake_is_first_due, wake_of_receiver_is_first_due,
};
pub use functions::{
    acknowledgement_tag_is_told_after, chosen_act_is_step, chosen_receiver_act_is_step,
    closing_packet_changes_nothing, closing_packet_is_told_or_dropped, first_transmission_is_told,
    idle_record_has_transmitted, other_transmission_goes_on, reading_is_step,
    tag_is_told_after_the_act, taking_is_steps, time_and_restarts_are_steps,
};
pub use ranges::{
    moments_of_a_receiver_are_by_now, moments_of_the_past_are_by_now,
    offsets_end_within_what_was_taken, packets_have_their_versions, packets_keep_the_rules,
    receiver_stays_within, segments_keep_the_first_moments_of_the_ledger, send_record_stays_within,
    sums_of_records_fit,
};
pub use safety::{
    acceptance_is_in_time, facts_give_safety, fates_are_final, fates_stay_final,
    near_in_time_is_near_in_place, new_flow_has_facts, packets_are_made_now,
    reached_flow_has_facts, receiver_without_live_record, safe_after_every_list_of_steps,
    safety_has_one_proof, step_keeps_facts, steps_are_joined, steps_keep_facts,
    taken_is_near_the_last_crossing,
};
pub use transit::{
    acknowledgement_is_step_or_nothing, admitted_packet_waits, arriving_packet_is_alive,
    copies_age_with_time, data_is_step_or_nothing, equal_numbers_are_equal_places,
    leaving_packet_flies, made_packet_waits, relation_is_order_of_places,
    rendezvous_is_step_or_nothing, waiting_ages_with_time,
};
pub use worked::{
    crossing_after_numbers_went_round, long_message_is_cut_in_three, next_octet_leads,
    numbers_are_acknowledged_round_the_end, numbers_go_round, numbers_go_round_between_segments,
    octet_is_given_up, quantum_is_noted_in_the_record, quantum_spaces_transmissions,
    read_opens_window, receive_record_goes, record_is_renewed, record_is_woken,
    repeats_are_replied_to, segments_come_in_another_order, station_is_silent,
    third_segment_goes_again, two_segments_are_acknowledged, window_is_asked_for,
    window_is_asked_for_after_giving_up,
};
