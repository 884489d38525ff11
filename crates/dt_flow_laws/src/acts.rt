//! What the records do by themselves: which act is chosen, when each kind is due, and when a record is
//! to be woken.
ghost use Rattle.std.specs.Prelude.{ℕ, ◌+◌, ◌*◌, ◌/◌, ◌≡◌, ◌≢◌, ◌<◌, ◌≤◌, ◌⊎◌, List, ◌++◌, Option, Some, None};
ghost use Rattle.dt_units.specs.declared.parameters.Params.{Params};
ghost use Rattle.dt_units.specs.Limits.{IsWithinLimits};
ghost use Rattle.dt_flow_model.specs.declared.acts.RecvKind.{RecvKind};
ghost use Rattle.dt_flow_model.specs.Numbering.{number_of, up_to_crossing};
ghost use Rattle.dt_units.specs.Numbers.{quantum};
ghost use Rattle.dt_flow_model.specs.ReceiveRecord.{IsRecvDue, ReceiveRecord, recv_due_of, recv_moment, recv_moments, recv_wake_of};
ghost use Rattle.dt_flow_model.specs.SendActs.{Act, GoesFirst, IsDue, HoldsMissed, IsAhead, IsFirst, IsKindDue, IsMomentOf, act_of, due_moment, kind_of, rank_of, resend, resending, send, send_moment, send_moments, wake_of};
ghost use Rattle.dt_flow_model.specs.declared.acts.SendKind.{SendKind};
ghost use Rattle.dt_flow_model.specs.declared.acts.RecvKind.TheVariants.{Release as Gone};
ghost use Rattle.dt_flow_model.specs.SendRecord.{IsCut, Segment, SendRecord, acknowledged, cut_size, may_go, next_from};

/// The cut that goes out is the longest that the rule allows.
#[tactic(auto, using(crate::proofs::Cuts::cut_is))]
pub fn cut_is_the_longest()
    ensures { (p : Params) (x : SendRecord) → IsCut (may_go p x) x.waiting (cut_size p x) }
{}

/// The act that is chosen is due, as the table of acts has it.
#[tactic(auto, using(dt_flow_model::proofs::Chosen::act_is_due))]
pub fn chosen_act_is_due()
    ensures { (p : Params) (now : ℕ) (x : SendRecord) (act : Act) → act_of p now x ≡ Some act → IsDue p now x act }
{}

/// Where an act is due, one is chosen, and its kind doesn't come later in the order of kinds.
#[tactic(auto, using(crate::proofs::Waking::due_is_chosen))]
pub fn due_kind_is_not_passed_over()
    ensures { (p : Params) (now : ℕ) (x : SendRecord) (act : Act) → IsDue p now x act → (chosen : Act) × (act_of p now x ≡ Some chosen) × (rank_of (kind_of chosen) ≤ rank_of (kind_of act)) }
{}

/// Of the segments that may go out again, the one goes whose last transmission was first, and the
/// leftmost of these.
#[tactic(auto, using(crate::proofs::Resends::resend_is_first))]
pub fn resent_segment_goes_first()
    ensures { (p : Params) (now : ℕ) (gs before after : List Segment) (g : Segment) → resending p now gs ≡ Some (resend before g after) → GoesFirst p now before g after }
{}

/// An acknowledgement whose number is that of left or of the end of an outstanding segment splits
/// the segments there, and any other splits nothing.
#[tactic(auto, using(crate::proofs::Laws::split_nowhere))]
pub fn acknowledgement_splits_at_an_end()
    ensures there { (p : Params) (k : ℕ) (x : SendRecord) (gone rest : List Segment) → acknowledged p k x.left x.outstanding ≡ Some (gone, rest) → (x.outstanding ≡ gone ++ rest) × (k ≡ number_of p (next_from x.left gone)) }
    ensures nowhere { (p : Params) (k : ℕ) (x : SendRecord) (gone rest : List Segment) → acknowledged p k x.left x.outstanding ≡ None → x.outstanding ≡ gone ++ rest → k ≢ number_of p (next_from x.left gone) }
{}

/// From any offset the next crossing is the least multiple of the quantum above it.
#[tactic(auto, using(crate::proofs::Crossings::next_crossing))]
pub fn next_crossing_is_the_least_multiple()
    ensures { (p : Params) (n : ℕ) → IsWithinLimits p → (0 < up_to_crossing p n) × (n + up_to_crossing p n ≡ (n / quantum p + 1) * quantum p) × (n / quantum p * quantum p ≤ n) }
{}

/// The act that a receive record chooses is due. Where its release is due, that is chosen; and where
/// anything is due, something is.
#[tactic(auto, using(crate::proofs::Waking::recv_chosen_due, crate::proofs::Waking::recv_release_due, crate::proofs::Waking::recv_some_due))]
pub fn chosen_receiver_act_is_due()
    ensures due { (p : Params) (now : ℕ) (standing : Option ReceiveRecord) (kind : RecvKind) (m : ℕ) → recv_due_of p now standing ≡ Some (kind, m) → IsRecvDue p standing kind now }
    ensures release { (p : Params) (now : ℕ) (standing : Option ReceiveRecord) → IsRecvDue p standing Gone now → (m : ℕ) × (recv_due_of p now standing ≡ Some (Gone, m)) }
    ensures some { (p : Params) (now : ℕ) (standing : Option ReceiveRecord) (kind : RecvKind) → IsRecvDue p standing kind now → (a : RecvKind × ℕ) × (recv_due_of p now standing ≡ Some a) }
{}

/// The moment at which a send record is to be woken is the first at which an act of any kind is due.
#[tactic(auto, using(crate::proofs::Waking::wake_first))]
pub fn wake_is_first_due()
    ensures { (p : Params) (x : SendRecord) → IsFirst Act (λ now. act_of p now x) (wake_of p x) }
{}

/// The moment at which a receiver is to be woken is the first at which one of its acts is due.
#[tactic(auto, using(crate::proofs::Waking::recv_wake_first))]
pub fn wake_of_receiver_is_first_due()
    ensures { (p : Params) (standing : Option ReceiveRecord) → IsFirst (RecvKind × ℕ) (λ now. recv_due_of p now standing) (recv_wake_of p standing) }
{}

/// The moment of each kind of act is that from which on it is due: where there is none the kind is
/// never due from now on, else it isn't due from now on before the moment, and it is due at the later
/// of now and the moment.
#[tactic(auto, using(crate::proofs::Moments::moment_is, crate::proofs::Moments::recv_moment_is))]
pub fn moments_are_of_their_kinds()
    ensures sender { (p : Params) (now : ℕ) (x : SendRecord) (kind : SendKind) → IsMomentOf (IsKindDue p x kind) now (send_moment (send_moments p now x) kind) }
    ensures receiver { (p : Params) (now : ℕ) (standing : Option ReceiveRecord) (kind : RecvKind) → IsMomentOf (IsRecvDue p standing kind) now (recv_moment (recv_moments p standing) kind) }
{}

/// The act that is chosen is due at its kind's moment.
#[tactic(auto, using(crate::proofs::Moments::chosen_moment, crate::proofs::Moments::recv_chosen_moment))]
pub fn chosen_act_is_at_its_moment()
    ensures sender { (p : Params) (now : ℕ) (x : SendRecord) (act : Act) → act_of p now x ≡ Some act → send_moment (send_moments p now x) (kind_of act) ≡ Some (due_moment p x act) }
    ensures receiver { (p : Params) (now : ℕ) (standing : Option ReceiveRecord) (kind : RecvKind) (m : ℕ) → recv_due_of p now standing ≡ Some (kind, m) → recv_moment (recv_moments p standing) kind ≡ Some m }
{}

/// Where a record stays as it is, a moment stands until it comes. One that has come is the moment
/// still, or it is that of a segment whose resend was missed; so a table of moments that was set when
/// the record changed last is wrong in no other case.
#[tactic(auto, using(crate::proofs::Moments::moment_stands))]
pub fn moments_stand_until_they_come()
    ensures ahead { (p : Params) (now later : ℕ) (x : SendRecord) (kind : SendKind) → now ≤ later → IsAhead later (send_moment (send_moments p now x) kind) → send_moment (send_moments p later x) kind ≡ send_moment (send_moments p now x) kind }
    ensures passed { (p : Params) (now later : ℕ) (x : SendRecord) (kind : SendKind) (m : ℕ) → now ≤ later → send_moment (send_moments p now x) kind ≡ Some m → (send_moment (send_moments p later x) kind ≡ Some m) ⊎ HoldsMissed p later m x.outstanding }
{}
