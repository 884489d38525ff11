//! What the records keep: ranges, moments of the past, sums that fit, and packets that can be spelled.
ghost use Rattle.std.specs.Prelude.{ℕ, Bool, ◌+◌, ◌/◌, ◌^◌, ◌≡◌, ◌<◌, ◌≤◌, All, List, [], ◌∷◌, ◌++◌, length, Option, Some, None};
ghost use Rattle.dt_items.specs.declared.item.Item.{Item};
ghost use Rattle.dt_units.specs.declared.parameters.Params.{Params};
ghost use Rattle.dt_units.specs.Limits.{IsWithinLimits};
ghost use Rattle.dt_flow_model.specs.declared.acts.RecvKind.{RecvKind};
ghost use Rattle.dt_flow_model.specs.Facts.{Facts};
ghost use Rattle.dt_flow_model.specs.Flow.{FlowState, place_of};
ghost use Rattle.dt_flow_model.specs.Ledger.{HasFirst, row_at};
ghost use Rattle.dt_flow_model.specs.Numbering.{number_of};
ghost use Rattle.dt_flow_model.specs.ReceiveRecord.{ReceiveRecord, Receiver, after_data, after_meet, after_read, after_recv_act, free_of};
ghost use Rattle.dt_flow_model.specs.SendActs.{Act, IsDue, record_after, send};
ghost use Rattle.dt_flow_model.specs.Frames.{ack_packet, data_packet, meet_packet};
ghost use Rattle.dt_flow_model.specs.Keeping.{HasNoRun, IsReceiverKept, IsSegment, IsSendRecord, IsStandingUpTo, IsUpTo, taken_by, IsRecvUpTo, ReceiveRecordFits, RecordFits, most_moment, octets_below};
ghost use Rattle.dt_layout.specs.Spelling.{KeepsRules, version_of};
ghost use Rattle.dt_units.specs.declared.endpoints.Flow.{Flow};
ghost use Rattle.dt_flow_model.specs.SendRecord.{Segment, SendRecord, held_of, new_record, put, record_acked};

/// What a send record keeps stays: it holds at most its capacity, in segments that follow each other,
/// at most 64, each one piece of at most `seg` octets; the window ends at most 65,536 octets from left.
#[tactic(auto, using(dt_flow_model::proofs::Records::act_kept, dt_flow_model::proofs::Records::new_kept, dt_flow_model::proofs::Records::put_kept))]
pub fn send_record_stays_within()
    ensures begins { (p : Params) (now : ℕ) → IsWithinLimits p → IsSendRecord p (new_record p now []) }
    ensures takes { (p : Params) (x : SendRecord) (items : List Item) → IsSendRecord p x → All HasNoRun items → held_of x + length items ≤ p.cap → IsSendRecord p (put items x) }
    ensures acked { (p : Params) (x : SendRecord) (gone rest : List Segment) (w : ℕ) → IsSendRecord p x → x.outstanding ≡ gone ++ rest → w ≤ 65536 → IsSendRecord p (record_acked x gone rest w) }
    ensures acts { (p : Params) → IsWithinLimits p → (x : SendRecord) → IsSendRecord p x → (now : ℕ) (act : Act) (after : SendRecord) → IsDue p now x act → record_after p now x act ≡ Some after → IsSendRecord p after }
{}

/// A receiver's unread octets fit, the number that it expects has 32 bits, and the window that it advertised
/// is at most the whole queue.
#[tactic(auto, using(crate::proofs::Records::none_kept, crate::proofs::Records::data_kept, crate::proofs::Records::meet_kept, crate::proofs::Records::read_kept, crate::proofs::Records::recv_act_kept))]
pub fn receiver_stays_within()
    ensures begins { (p : Params) → IsReceiverKept p (record { unread = []; standing = None }) }
    ensures data_packet { (p : Params) (now : ℕ) (r : Receiver) (drf : Bool) (number : ℕ) (items : List Item) → IsReceiverKept p r → IsReceiverKept p (after_data p now r drf number items) }
    ensures rendezvous { (p : Params) (r : Receiver) → IsReceiverKept p r → IsReceiverKept p (after_meet p r) }
    ensures read { (p : Params) (now count : ℕ) (r : Receiver) → IsReceiverKept p r → IsReceiverKept p (after_read p now count r) }
    ensures acts { (p : Params) (r : Receiver) (kind : RecvKind) → IsReceiverKept p r → IsReceiverKept p (after_recv_act p r kind) }
{}

/// What a send record notes of the past is by now.
#[tactic(auto, using(crate::proofs::Records::new_up_to, crate::proofs::Records::put_up_to, crate::proofs::Records::act_up_to, crate::proofs::Records::up_to_later))]
pub fn moments_of_the_past_are_by_now()
    ensures begins { (p : Params) (now : ℕ) → IsUpTo now (new_record p now []) }
    ensures takes { (now : ℕ) (x : SendRecord) (items : List Item) → IsUpTo now x → IsUpTo now (put items x) }
    ensures acked { (now : ℕ) (x : SendRecord) (gone rest : List Segment) (w : ℕ) → IsUpTo now x → x.outstanding ≡ gone ++ rest → IsUpTo now (record_acked x gone rest w) }
    ensures acts { (p : Params) (now : ℕ) (x : SendRecord) (act : Act) (after : SendRecord) → IsUpTo now x → IsDue p now x act → record_after p now x act ≡ Some after → IsUpTo now after }
    ensures time { (now later : ℕ) (x : SendRecord) → now ≤ later → IsUpTo now x → IsUpTo later x }
{}

/// A receive record was touched by now, and what it owes is due at most `a` from now.
#[tactic(auto, using(crate::proofs::Records::recv_later, crate::proofs::Records::data_up_to, crate::proofs::Records::meet_up_to, crate::proofs::Records::read_up_to, crate::proofs::Records::recv_act_up_to))]
pub fn moments_of_a_receiver_are_by_now()
    ensures time { (p : Params) (now later : ℕ) (standing : Option ReceiveRecord) → now ≤ later → IsStandingUpTo p now standing → IsStandingUpTo p later standing }
    ensures data_packet { (p : Params) (now : ℕ) (r : Receiver) (drf : Bool) (number : ℕ) (items : List Item) → IsStandingUpTo p now r.standing → IsStandingUpTo p now (after_data p now r drf number items).standing }
    ensures rendezvous { (p : Params) (now : ℕ) (r : Receiver) → IsStandingUpTo p now r.standing → IsStandingUpTo p now (after_meet p r).standing }
    ensures read { (p : Params) (now count : ℕ) (r : Receiver) → IsStandingUpTo p now r.standing → IsStandingUpTo p now (after_read p now count r).standing }
    ensures acts { (p : Params) (now : ℕ) (r : Receiver) (kind : RecvKind) → IsStandingUpTo p now r.standing → IsStandingUpTo p now (after_recv_act p r kind).standing }
{}

/// The first moments in a send record's segments are the ledger's: that of each octet of a segment and
/// the zero of the station's clock are the reading at which the segment first went out.
pub fn segments_keep_the_first_moments_of_the_ledger()
    ensures { (p : Params) (s : FlowState) (x : SendRecord) (before after : List Segment) (g : Segment) (k : ℕ) → s.sender ≡ Some x → Facts p s → x.outstanding ≡ before ++ g ∷ after → k < length g.items → HasFirst s.sender_zero g.first (row_at s.taken (place_of s x g.offset + k)) }
{}

/// The octets that a send record has taken since it began end at an offset that no act moves on, that
/// an acknowledgement leaves and that taking moves on by what is taken. It is at most the count of
/// octets that the flow took, so whoever bounds that count bounds each offset.
#[tactic(auto, using(dt_flow_model::proofs::Records::act_counts, dt_flow_model::proofs::Records::put_counts))]
pub fn offsets_end_within_what_was_taken()
    ensures acts { (p : Params) (now : ℕ) (x : SendRecord) (act : Act) (after : SendRecord) → IsDue p now x act → record_after p now x act ≡ Some after → taken_by after ≤ taken_by x }
    ensures acked { (x : SendRecord) (gone rest : List Segment) (w : ℕ) → x.outstanding ≡ gone ++ rest → taken_by (record_acked x gone rest w) ≡ taken_by x }
    ensures takes { (x : SendRecord) (items : List Item) → taken_by (put items x) ≡ taken_by x + length items }
    ensures flow { (p : Params) (s : FlowState) (x : SendRecord) → s.sender ≡ Some x → Facts p s → taken_by x ≤ length s.taken }
{}

/// No sum of a record wraps in 64 bits, where the flow takes fewer than 2^62 octets and no reading is
/// above 2^62.
#[tactic(auto, using(crate::proofs::Sums::receive_record_fits))]
pub fn sums_of_records_fit()
    ensures sender { (p : Params) → IsWithinLimits p → (now : ℕ) → now ≤ most_moment → (x : SendRecord) → IsSendRecord p x → IsUpTo now x → taken_by x < octets_below → RecordFits p x }
    ensures receiver { (p : Params) → IsWithinLimits p → (now : ℕ) → now ≤ most_moment → (y : ReceiveRecord) → IsRecvUpTo p now y → ReceiveRecordFits p y }
    ensures conditions { (octets_below ≡ 4611686018427387904) × (most_moment ≡ 4611686018427387904) }
{}

/// The packets of a flow keep the rules of the layout.
#[tactic(auto, using(dt_flow_model::proofs::Records::data_rules, dt_flow_model::proofs::Records::meet_rules, crate::proofs::Records::ack_rules))]
pub fn packets_keep_the_rules()
    ensures segment { (p : Params) (f : Flow) (g : Segment) (drf : Bool) → IsWithinLimits p → IsSegment p g → KeepsRules (data_packet f (number_of p g.offset) drf g.items) }
    ensures rendezvous { (p : Params) (f : Flow) (offset : ℕ) → KeepsRules (meet_packet f (number_of p offset)) }
    ensures acknowledgement { (p : Params) (f : Flow) (unread : List Item) (number : ℕ) → IsWithinLimits p → number < 2 ^ 32 → KeepsRules (ack_packet f number (free_of p unread)) }
{}

/// Segments of up to 1,024 octets go out in version 1 of the layout, and longer ones in version 2.
/// Acknowledgements and rendezvous packets go out in version 1.
#[tactic(auto, using(crate::proofs::Records::short_version, crate::proofs::Records::long_version))]
pub fn packets_have_their_versions()
    ensures short { (f : Flow) (number : ℕ) (drf : Bool) (items : List Item) → length items ≤ 1024 → version_of (data_packet f number drf items) ≡ 1 }
    ensures long { (f : Flow) (number : ℕ) (drf : Bool) (items : List Item) → 1024 < length items → version_of (data_packet f number drf items) ≡ 2 }
    ensures acknowledgement { (f : Flow) (number window : ℕ) → version_of (ack_packet f number window) ≡ 1 }
    ensures rendezvous { (f : Flow) (number : ℕ) → version_of (meet_packet f number) ≡ 1 }
{}
