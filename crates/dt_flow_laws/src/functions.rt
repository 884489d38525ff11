//! The functions that say what the records do are small steps of the flow, and what is reported of them
//! is so.
ghost use Rattle.std.specs.Prelude.{ℕ, Bool, true, ◌/◌, ◌≡◌, ◌≢◌, ◌<◌, ◌≤◌, List, [], ◌∷◌, length, Some, None};
ghost use Rattle.dt_items.specs.declared.item.Item.{Item};
ghost use Rattle.dt_units.specs.declared.parameters.Params.{Params};
ghost use Rattle.dt_units.specs.Limits.{IsWithinLimits};
ghost use Rattle.dt_flow_model.specs.declared.acts.RecvKind.{RecvKind};
ghost use Rattle.dt_flow_model.specs.declared.arrivals.Arrived.TheVariants.{Closing, Dropped, Replied};
ghost use Rattle.dt_flow_model.specs.declared.rows.Given.{Given};
ghost use Rattle.dt_flow_model.specs.Acting.{after_act, after_close_packet, after_reading, after_receiver_act, after_taking, later_flow, made_by_act, made_by_receiver, receiver_again, record_for, sender_again};
ghost use Rattle.dt_flow_model.specs.Facts.{Facts};
ghost use Rattle.dt_flow_model.specs.Flow.{FlowState, Packet, ack_place, crossings_after, crossings_told, place_of, receiver_reading, run_after, run_goes_on, run_told, sender_reading, tag_of};
ghost use Rattle.dt_flow_model.specs.Ledger.{first_unsent};
ghost use Rattle.dt_flow_model.specs.ReceiveRecord.{ReceiveRecord, Receiver, after_close, after_data, after_meet, answer_to_close, answer_to_data, recv_due_of};
ghost use Rattle.dt_flow_model.specs.SendActs.{Act, act_of, record_after, send};
ghost use Rattle.dt_flow_model.specs.Frames.{data_packet};
ghost use Rattle.dt_flow_model.specs.SendRecord.{SendRecord, fits, next_of};
ghost use Rattle.dt_flow_model.specs.Steps.{HasTransmitted, Step, Steps};

/// The act that a send record chooses is a small step of its flow.
#[tactic(auto, using(crate::proofs::Laws::act_is_step))]
pub fn chosen_act_is_step()
    ensures { (p : Params) (s : FlowState) (x : SendRecord) (act : Act) → IsWithinLimits p → s.sender ≡ Some x → act_of p (sender_reading s) x ≡ Some act → Step p s [] (made_by_act p s x act) (after_act p s x act) }
{}

/// An act of a receive record that is due is a small step of its flow.
#[tactic(auto, using(crate::proofs::ArrivalSteps::recv_act_step))]
pub fn chosen_receiver_act_is_step()
    ensures { (p : Params) (s : FlowState) (y : ReceiveRecord) (kind : RecvKind) (moment : ℕ) → s.receiver ≡ Some y → recv_due_of p (receiver_reading s) s.receiver ≡ Some (kind, moment) → Step p s [] (made_by_receiver p s y kind) (after_receiver_act p s kind) }
{}

/// A read of unread octets is a small step.
#[tactic(auto, using(crate::proofs::ArrivalSteps::read_step))]
pub fn reading_is_step()
    ensures { (p : Params) (s : FlowState) (count : ℕ) → count ≤ length s.unread → Step p s [] [] (after_reading p s count) }
{}

/// Octets that fit and that a station takes which isn't silent are small steps: a record is made where there is
/// none, and takes them.
#[tactic(auto, using(crate::proofs::Laws::taking_is_steps))]
pub fn taking_is_steps()
    ensures { (p : Params) (s : FlowState) (items : List Item) → IsWithinLimits p → s.sender_until ≤ sender_reading s → fits p (record_for p (sender_reading s) s.sender) (length items) ≡ true → Steps p s [] [] (after_taking p s items) }
{}

/// Time that passes, and a station that starts again after its send record transmitted what it could,
/// are small steps.
#[tactic(auto, using(crate::proofs::Laws::later_is_step, crate::proofs::Laws::sender_again_is_step, crate::proofs::Laws::receiver_again_is_step))]
pub fn time_and_restarts_are_steps()
    ensures time { (p : Params) (s : FlowState) (by : ℕ) → Step p s [] [] (later_flow s by) }
    ensures sender { (p : Params) (s : FlowState) → HasTransmitted s.sender → Step p s [] [] (sender_again p s) }
    ensures receiver { (p : Params) (s : FlowState) → Step p s [] [] (receiver_again p s) }
{}

/// What is reported of a first transmission from the ledger, the run and the crossings alone is what the
/// send record says: its place, the run after it and the crossings. It goes by no number.
#[tactic(auto, using(crate::proofs::Told::told_place))]
pub fn first_transmission_is_told()
    ensures place { (p : Params) (s : FlowState) (x : SendRecord) → s.sender ≡ Some x → Facts p s → (cut rest : List Item) → act_of p (sender_reading s) x ≡ Some (send cut rest) → first_unsent s.sender_life s.taken ≡ place_of s x (next_of x) }
    ensures run { (p : Params) (s : FlowState) (x : SendRecord) → s.sender ≡ Some x → Facts p s → (cut rest : List Item) → act_of p (sender_reading s) x ≡ Some (send cut rest) → run_told p (first_unsent s.sender_life s.taken) s.now s.run ≡ run_after s.run (place_of s x 0) s.now (next_of x) }
    ensures crossings { (p : Params) (s : FlowState) (x : SendRecord) → s.sender ≡ Some x → Facts p s → (cut rest : List Item) → act_of p (sender_reading s) x ≡ Some (send cut rest) → crossings_told p (first_unsent s.sender_life s.taken) s.now s.run s.crossings ≡ crossings_after p (next_of x) (place_of s x (next_of x)) s.now s.crossings }
{}

/// Any other transmission goes on with the run.
#[tactic(auto, using(crate::proofs::Told::told_again))]
pub fn other_transmission_goes_on()
    ensures { (p : Params) (s : FlowState) (x : SendRecord) → s.sender ≡ Some x → Facts p s → 0 < next_of x → run_goes_on s.now s.run ≡ run_after s.run (place_of s x 0) s.now (next_of x) }
{}

/// The place of a packet that an act made is its tag, known by its number from the flow and the send
/// record as they are after the act.
#[tactic(auto, using(crate::proofs::Places::tag_after))]
pub fn tag_is_told_after_the_act()
    ensures { (p : Params) (s : FlowState) (x after : SendRecord) (act : Act) (q : Packet) → IsWithinLimits p → s.sender ≡ Some x → Facts p s → act_of p (sender_reading s) x ≡ Some act → record_after p (sender_reading s) x act ≡ Some after → made_by_act p s x act ≡ q ∷ [] → q.place ≡ tag_of p (after_act p s x act) after q.number }
{}

/// The place of an acknowledgement is the same, known from the receiver before it or after it.
pub fn acknowledgement_tag_is_told_after()
    ensures data_packet { (p : Params) (now : ℕ) (r : Receiver) (drf : Bool) (number : ℕ) (items : List Item) (n w : ℕ) (given : List Given) (answered : ℕ) → answer_to_data p r drf number items ≡ Replied n w → ack_place (after_data p now r drf number items).standing given n answered ≡ ack_place r.standing given n answered }
    ensures own_act { (p : Params) (r : Receiver) (n : ℕ) (given : List Given) (answered : ℕ) → ack_place (after_meet p r).standing given n answered ≡ ack_place r.standing given n answered }
{}

/// A send record of which no act is due has transmitted, where octets wait in it.
pub fn idle_record_has_transmitted()
    ensures { (p : Params) (s : FlowState) (x : SendRecord) (now : ℕ) → IsWithinLimits p → Facts p s → s.sender ≡ Some x → act_of p now x ≡ None → HasTransmitted (Some x) }
{}

/// A closing packet that comes changes nothing: neither the receiver nor the flow.
#[tactic(auto, using(crate::proofs::Closing::close_changes_nothing, crate::proofs::Closing::close_flow))]
pub fn closing_packet_changes_nothing()
    ensures receiver { (p : Params) (now : ℕ) (r : Receiver) (number : ℕ) → after_close p now r number ≡ r }
    ensures flow { (p : Params) (s : FlowState) (number : ℕ) → after_close_packet p s number ≡ s }
{}

/// A closing packet is reported where a record stands that expects its number, and dropped else.
#[tactic(auto, using(crate::proofs::Closing::close_told, crate::proofs::Closing::close_dropped, crate::proofs::Closing::close_nowhere))]
pub fn closing_packet_is_told_or_dropped()
    ensures told { (r : Receiver) (y : ReceiveRecord) (number : ℕ) → r.standing ≡ Some y → number ≡ y.expected → answer_to_close r number ≡ Closing number }
    ensures another_number { (r : Receiver) (y : ReceiveRecord) (number : ℕ) → r.standing ≡ Some y → number ≢ y.expected → answer_to_close r number ≡ Dropped }
    ensures no_record { (r : Receiver) (number : ℕ) → r.standing ≡ None → answer_to_close r number ≡ Dropped }
{}
