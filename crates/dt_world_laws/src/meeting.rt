//! Numbers and places: those of every packet that a host meets in a step of the world.
ghost use Rattle.std.specs.Prelude.{ℕ, ◌+◌, ◌<◌, ◌≤◌, ◌≡◌, ◌↔◌, Bool, List, ◌∷◌, ◌++◌, Some, length};
ghost use Rattle.dt_units.specs.Limits.{IsWithinLimits};
ghost use Rattle.dt_units.specs.Numbers.{relation_of};
ghost use Rattle.dt_layout.specs.Spelling.{Ack, Data};
ghost use Rattle.dt_flow_model.specs.Flow.{place_of};
ghost use Rattle.dt_flow_model.specs.Frames.{Mark, flow_in, value_in};
ghost use Rattle.dt_flow_model.specs.Ledger.{top};
ghost use Rattle.dt_flow_model.specs.Numbering.{number_of, order_of};
ghost use Rattle.dt_flow_model.specs.ReceiveRecord.{ReceiveRecord};
ghost use Rattle.dt_flow_model.specs.SendRecord.{Segment, SendRecord, next_from};
ghost use Rattle.dt_world_model.specs.Ledgers.{ledger_of};
ghost use Rattle.dt_world_model.specs.Relay.{Parcel};
ghost use Rattle.dt_world_model.specs.Station.{Arrive};
ghost use Rattle.dt_world_model.specs.World.{World, view};
ghost use Rattle.dt_world_model.specs.WorldFacts.{CanCome, WorldFacts};
ghost use Rattle.dt_world_model.specs.WorldStep.{copy_at, occasion};
ghost use Rattle.dt_world_laws.specs.Meeting.{IsMet, world_when_met};

/// The order of sequence numbers is the order of places, for every packet that a host meets in a step of
/// a world that has its facts, whatever the host then does with it.
///
/// `data`: the number of a data packet is below, equal to or above the one that the receive record
/// expects where its place is below, equal to or above the place after the last given one. `acknowledged`:
/// the number of an acknowledgement is that of the end of the first outstanding segments exactly where
/// its place is that end's place.
pub fn numbers_are_in_the_order_of_places()
    ensures data { (w : World) (k : ℕ) (parcel : Parcel Mark) (from_port to_port number : ℕ) (drf begin end : Bool) (octets : List ℕ) (y : ReceiveRecord) → IsWithinLimits w.params → WorldFacts w → IsMet w k parcel
        → value_in parcel.octets ≡ Data from_port to_port number drf begin end octets → let s = view (world_when_met w k) (flow_in parcel.octets) in
        s.receiver ≡ Some y → relation_of number y.expected ≡ order_of parcel.tag.place (top s.given) }
    ensures acknowledged { (w : World) (k : ℕ) (parcel : Parcel Mark) (from_port to_port number window : ℕ) (x : SendRecord) (g : Segment) (gone rest : List Segment) → IsWithinLimits w.params → WorldFacts w → IsMet w k parcel
        → value_in parcel.octets ≡ Ack from_port to_port number window → let s = view (world_when_met w k) (flow_in parcel.octets) in
        s.sender ≡ Some x → x.outstanding ≡ (g ∷ gone) ++ rest → (number ≡ number_of w.params (next_from x.left (g ∷ gone))) ↔ (parcel.tag.place ≡ place_of s x (next_from x.left (g ∷ gone))) }
{}

/// The octets that a packet brings are octets of its flow: the place after the last of them is at most the
/// count that the flow took. `copy`: of each copy on a link, whether it is refused or not. `comes`: of what
/// comes in an event of a station. So the places of what is given pass no bound that the count of what was
/// taken keeps.
pub fn packets_bring_octets_that_were_taken()
    ensures copy { (w : World) (k n : ℕ) → WorldFacts w → k < length w.copies → let c = copy_at w k in
        let o = occasion w n (Arrive c.link c.parcel) in
        o.place + length o.items ≤ length (ledger_of w.ledgers (flow_in c.parcel.octets)).taken }
    ensures comes { (w : World) (n link : ℕ) (parcel : Parcel Mark) → CanCome w n link parcel → let o = occasion w n (Arrive link parcel) in
        o.place + length o.items ≤ length (ledger_of w.ledgers (flow_in parcel.octets)).taken }
{}
