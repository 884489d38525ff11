//! What the definitions of a host's calls mean, beside the calls.
ghost use Rattle.std.specs.Prelude.{ℕ, ◌≡◌, List, Some, false};
ghost use Rattle.dt_items.specs.declared.item.Item.{Item};
ghost use Rattle.dt_units.specs.declared.endpoints.Flow.{Flow};
ghost use Rattle.dt_units.specs.declared.parameters.Params.{Params};
ghost use Rattle.dt_layout.specs.Spelling.{PacketValue};
ghost use Rattle.dt_flow_model.specs.Frames.{flow_of};
ghost use Rattle.dt_world_model.specs.Host.{Host, Turn, arrive, next_turn, read_octets, send_octets};
ghost use Rattle.dt_world_model.specs.Tables.{same_flow};
ghost use Rattle.dt_host.specs.Others.{IsActOf, SameAt};

/// Octets that are sent or read on a flow, a packet of the flow that comes, and an act of the flow's
/// records leave the records of each other flow as they were.
pub fn other_flows_stay()
    ensures sent { (p : Params) (now : ℕ) (f g : Flow) (items : List Item) (host : Host) → same_flow f g ≡ false → SameAt g host (send_octets p now f items host).1 }
    ensures read { (p : Params) (now most : ℕ) (f g : Flow) (host : Host) → same_flow f g ≡ false → SameAt g host (read_octets p now f most host).1 }
    ensures came { (p : Params) (now from : ℕ) (g : Flow) (v : PacketValue) (host : Host) → same_flow (flow_of from host.me v) g ≡ false → SameAt g host (arrive p now from v host).1 }
    ensures act { (p : Params) (now : ℕ) (host : Host) (turn : Turn) → next_turn p now host ≡ Some turn →
        (f : Flow) × IsActOf f turn.told × ((g : Flow) → same_flow f g ≡ false → SameAt g host turn.host) }
{}
