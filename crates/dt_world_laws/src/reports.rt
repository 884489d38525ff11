//! What the world writes for a report is what the small step does to the ledger, and the tag that it
//! tells for a frame is the place and the birth of its packet.
ghost use Rattle.std.specs.Prelude.{ℕ, ◌≡◌, ◌<◌, ◌^◌, Bool, false, List, [], ◌∷◌, length, Some};
ghost use Rattle.dt_items.specs.declared.item.Item.{Item};
ghost use Rattle.dt_items.specs.Unread.{octets_of};
ghost use Rattle.dt_units.specs.declared.parameters.Params.{Params};
ghost use Rattle.dt_units.specs.declared.endpoints.Flow.{Flow};
ghost use Rattle.dt_units.specs.Limits.{IsWithinLimits};
ghost use Rattle.dt_reports.specs.Told.{Told, read_told};
ghost use Rattle.dt_reports.specs.declared.reports.Report.TheVariants.{Settled, Took};
ghost use Rattle.dt_layout.specs.Spelling.{Data as DataPacket, Meet as MeetPacket};
ghost use Rattle.dt_flow_model.specs.declared.acts.RecvKind.{RecvKind};
ghost use Rattle.dt_flow_model.specs.Acting.{acked_flow, after_act, after_reading, after_receiver_act, after_taking, data_flow, made_by_act, with_receiver};
ghost use Rattle.dt_flow_model.specs.Facts.{Facts};
ghost use Rattle.dt_flow_model.specs.Flow.{Data, FlowState, Packet, ack_place, receiver_of, sender_reading};
ghost use Rattle.dt_flow_model.specs.Frames.{ack_packet, back, frame_of_act};
ghost use Rattle.dt_units.specs.Flows.{IsFlow};
ghost use Rattle.dt_flow_model.specs.ReceiveRecord.{ReceiveRecord, after_meet, answer_to_data, answer_to_meet, free_of, recv_told_of};
ghost use Rattle.dt_flow_model.specs.SendActs.{Act, act_of, record_after, told_of};
ghost use Rattle.dt_flow_model.specs.SendRecord.{SendRecord};
ghost use Rattle.dt_world_model.specs.Tables.{same_flow};
ghost use Rattle.dt_world_model.specs.Host.{Host, IsSender, receiver_at, sender_at, told_arrival, told_recv, told_send};
ghost use Rattle.dt_world_model.specs.Ledgers.{Change, Changes, Ledgers, Occasion, effect_of, ledger_after, ledger_of, ledgers_after, mark_of, run_of, run_with};
ghost use Rattle.dt_world_laws.specs.Follow.{IsFollowed, at_receiver, at_sender};

/// A report changes the entry of the flow that it is about, and no other.
pub fn report_changes_one_flow()
    ensures here { (o : Occasion) (told : Told) (all : Ledgers) (f : Flow) (change : Change) → effect_of told ≡ Changes f change → (ledger_of (ledgers_after o told all) f ≡ ledger_after o change (ledger_of all f)) × (run_of (ledgers_after o told all) f ≡ run_with o change (ledger_of all f) (run_of all f)) }
    ensures others { (o : Occasion) (told : Told) (all : Ledgers) (f : Flow) (change : Change) (other : Flow) → effect_of told ≡ Changes f change → same_flow f other ≡ false → (ledger_of (ledgers_after o told all) other ≡ ledger_of all other) × (run_of (ledgers_after o told all) other ≡ run_of all other) }
{}

/// What the world writes for a report of a flow is what the flow's change does to its ledger: an act of
/// the sender, octets that are taken, an acknowledgement, data and a rendezvous that come, a read and an
/// act of the receiver. It goes by no number: of the event it takes the moment, the station's life, the
/// octets that it brings and the packet's place.
pub fn ledgers_follow_the_small_steps()
    ensures act { (p : Params) (s : FlowState) (f : Flow) (node place : ℕ) (items : List Item) (x : SendRecord) (act : Act) → s.sender ≡ Some x → Facts p s → act_of p (sender_reading s) x ≡ Some act → IsFollowed (at_sender p s node items place) (told_send f (told_of p x act)) s (after_act p s x act) }
    ensures taken { (p : Params) (s : FlowState) (f : Flow) (node place : ℕ) (items : List Item) (count : ℕ) → IsFollowed (at_sender p s node items place) (Took f count) s (after_taking p s items) }
    ensures acknowledged { (p : Params) (s : FlowState) (f : Flow) (node place : ℕ) (items : List Item) (x : SendRecord) (count window : ℕ) → IsFollowed (at_sender p s node items place) (Settled f count window) s (acked_flow s (Some (x, count))) }
    ensures data { (p : Params) (s : FlowState) (f : Flow) (node : ℕ) (q : Packet) (from_port to_port : ℕ) (drf begin end : Bool) (octets : List ℕ) (items : List Item) → q.kind ≡ Data drf items → IsFollowed (at_receiver p s node items q.place) (told_arrival f (DataPacket from_port to_port q.number drf begin end octets) (answer_to_data p (receiver_of s) drf q.number items)) s (data_flow p s q drf items) }
    ensures rendezvous { (p : Params) (s : FlowState) (f : Flow) (node place : ℕ) (items : List Item) (from_port to_port number : ℕ) → IsFollowed (at_receiver p s node items place) (told_arrival f (MeetPacket from_port to_port number) (answer_to_meet p (receiver_of s) number)) s (with_receiver s (after_meet p (receiver_of s))) }
    ensures read { (p : Params) (s : FlowState) (f : Flow) (node place : ℕ) (items : List Item) (run begin end : Bool) (piece : List Item) → IsFollowed (at_receiver p s node items place) (read_told f run begin end (octets_of piece)) s (after_reading p s (length piece)) }
    ensures receiver { (p : Params) (s : FlowState) (f : Flow) (node place : ℕ) (items : List Item) (y : ReceiveRecord) (kind : RecvKind) → IsFollowed (at_receiver p s node items place) (told_recv f (recv_told_of p s.unread y kind)) s (after_receiver_act p s kind) }
{}

/// The tag that is answered for the frame of a send record's act is the place and the birth of the packet that
/// the act made: from the octets of the frame, the host after the act and the ledger after its report. An
/// acknowledgement's is the place after the last given octet where its number is the expected one, else
/// that of the packet that it answers.
pub fn tag_is_place_and_birth()
    ensures sent { (p : Params) (s : FlowState) (f : Flow) (me : ℕ) (x after : SendRecord) (node place : ℕ) (items : List Item) (all : Ledgers) (host : Host) (act : Act) (q : Packet) (octets : List ℕ) → IsWithinLimits p → IsSender p me f x → s.sender ≡ Some x → Facts p s → act_of p (sender_reading s) x ≡ Some act → record_after p (sender_reading s) x act ≡ Some after → made_by_act p s x act ≡ q ∷ [] → frame_of_act p f x act ≡ Some octets → sender_at host f ≡ Some after → (ledger_of all f).taken ≡ (after_act p s x act).taken → mark_of (at_sender p s node items place) all host octets ≡ record { birth = q.birth; place = q.place } }
    ensures acknowledgement { (p : Params) (f : Flow) (o : Occasion) (all : Ledgers) (host : Host) (unread : List Item) (number : ℕ) → IsWithinLimits p → IsFlow f → number < 2 ^ 32 → mark_of o all host (back p f (ack_packet f number (free_of p unread))) ≡ record { birth = o.now; place = ack_place (receiver_at host f).standing (ledger_of all f).given number o.place } }
{}
