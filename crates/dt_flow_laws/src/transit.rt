//! Packets on their way, and what they do when they come.
ghost use Rattle.std.specs.Prelude.{ℕ, Bool, ◌≡◌, ◌+◌, ◌-◌, ◌<◌, ◌≤◌, List, [], ◌++◌, length, Some};
ghost use Rattle.dt_items.specs.declared.item.Item.{Item};
ghost use Rattle.dt_units.specs.declared.parameters.Params.{Params};
ghost use Rattle.dt_flow_model.specs.Acting.{after_ack, after_data_packet, after_meet_packet, made_by_data, made_by_meet};
ghost use Rattle.dt_units.specs.Limits.{IsWithinLimits};
ghost use Rattle.dt_flow_model.specs.Facts.{Facts, Fits};
ghost use Rattle.dt_flow_model.specs.Ledger.{top};
ghost use Rattle.dt_flow_model.specs.Numbering.{number_of, order_of};
ghost use Rattle.dt_units.specs.Numbers.{relation_of};
ghost use Rattle.dt_flow_model.specs.SendActs.{IsIdle};
ghost use Rattle.dt_flow_model.specs.SendRecord.{Segment, SendRecord, next_from};
ghost use Rattle.dt_flow_model.specs.Carried.{Carried, Flies, Waits, charged, leave_charge, made_carried};
ghost use Rattle.dt_flow_model.specs.Flow.{Ack, Data, FlowState, Meet, Packet, receiver_reading, sender_reading};
ghost use Rattle.dt_flow_model.specs.ReceiveRecord.{IsCurrent, IsLive, ReceiveRecord};
ghost use Rattle.dt_flow_model.specs.Steps.{IsAlive, IsStepOrNothing, IsTheirEnd};

/// A packet that is made enters its relay within its life.
#[tactic(auto, using(crate::proofs::Ages::made_waits))]
pub fn made_packet_waits()
    ensures { (mpl now : ℕ) → 1 ≤ mpl → Waits mpl now (made_carried mpl now) }
{}

/// A packet that waits stays within its life while time passes.
#[tactic(auto, using(crate::proofs::Ages::waits_later))]
pub fn waiting_ages_with_time()
    ensures { (mpl now by : ℕ) (c : Carried) → Waits mpl now c → Waits mpl (now + by) c }
{}

/// A copy on a link stays within its life while time passes.
#[tactic(auto, using(crate::proofs::Ages::flies_later))]
pub fn copies_age_with_time()
    ensures { (mpl now by : ℕ) (c : Carried) → Flies mpl now c → Flies mpl (now + by) c }
{}

/// A packet that leaves a relay, charged for its wait and one millisecond more, is a copy within its
/// life.
#[tactic(auto, using(crate::proofs::Ages::leaves))]
pub fn leaving_packet_flies()
    ensures { (mpl now : ℕ) (c : Carried) → Waits mpl now c → leave_charge now c < c.life → Flies mpl now (charged now (leave_charge now c) c) }
{}

/// A copy that was on its link for less than the life that it had left is less than `mpl` old.
#[tactic(auto, using(crate::proofs::Ages::arrives_alive))]
pub fn arriving_packet_is_alive()
    ensures { (mpl now : ℕ) (c : Carried) → Flies mpl now c → now - c.since < c.life → now < c.birth + mpl }
{}

/// A copy that a station admits, charged for at least the time on the link, is within its life.
#[tactic(auto, using(crate::proofs::Ages::admitted_waits))]
pub fn admitted_packet_waits()
    ensures { (mpl now charge : ℕ) (c : Carried) → Flies mpl now c → now - c.since ≤ charge → charge < c.life → Waits mpl now (charged now charge c) }
{}

/// The relation of a data packet's number to the expected one is the order of their places.
pub fn relation_is_order_of_places()
    ensures { (p : Params) (s : FlowState) (q : Packet) (drf : Bool) (items : List Item) (y : ReceiveRecord) → q.kind ≡ Data drf items → IsAlive p s q → Facts p s → Fits p s q → s.receiver ≡ Some y → IsLive p (receiver_reading s) y → relation_of q.number y.expected ≡ order_of q.place (top s.given) }
{}

/// An acknowledgement whose number is that of the end of the first outstanding segments has the place
/// of that end.
#[tactic(auto, using(crate::proofs::Ordering::ack_end))]
pub fn equal_numbers_are_equal_places()
    ensures { (p : Params) → IsWithinLimits p → (s : FlowState) (x : SendRecord) (q : Packet) (window : ℕ) (gone rest : List Segment) → s.sender ≡ Some x → IsIdle p (sender_reading s) (Some x) → q.kind ≡ Ack window → IsAlive p s q → Facts p s → Fits p s q → x.outstanding ≡ gone ++ rest → q.number ≡ number_of p (next_from x.left gone) → IsTheirEnd s x q gone }
{}

/// A data packet that comes is a small step or nothing, in each of the nine cases of the table.
#[tactic(auto, using(crate::proofs::ArrivalSteps::data_arrives))]
pub fn data_is_step_or_nothing()
    ensures { (p : Params) (s : FlowState) (q : Packet) (drf : Bool) (items : List Item) → q.kind ≡ Data drf items → 0 < length items → IsAlive p s q → IsCurrent p (receiver_reading s) s.receiver → Facts p s → Fits p s q → IsStepOrNothing p s q (made_by_data p s q drf items) (after_data_packet p s q drf items) }
{}

/// A rendezvous packet that comes is a small step or nothing.
#[tactic(auto, using(crate::proofs::ArrivalSteps::meet_arrives))]
pub fn rendezvous_is_step_or_nothing()
    ensures { (p : Params) (s : FlowState) (q : Packet) → q.kind ≡ Meet → IsAlive p s q → IsCurrent p (receiver_reading s) s.receiver → IsStepOrNothing p s q (made_by_meet p s q) (after_meet_packet p s q) }
{}

/// An acknowledgement that comes to a record of which no act is due is a small step or nothing: where
/// its number is that of the end of an outstanding segment, its place is that end's.
#[tactic(auto, using(crate::proofs::ArrivalSteps::ack_arrives))]
pub fn acknowledgement_is_step_or_nothing()
    ensures { (p : Params) (s : FlowState) (q : Packet) (window : ℕ) → IsWithinLimits p → q.kind ≡ Ack window → IsAlive p s q → IsIdle p (sender_reading s) s.sender → Facts p s → Fits p s q → IsStepOrNothing p s q [] (after_ack p s q window) }
{}
