//! A station comes to an end with its acts, and then sleeps until its wake.
ghost use Rattle.std.specs.Prelude.{ℕ, ◌+◌, ◌≡◌, ◌<◌, ◌++◌, ◌∷◌, List, None, Some};
ghost use Rattle.dt_units.specs.declared.parameters.Params.{Params};
ghost use Rattle.dt_units.specs.declared.endpoints.Flow.{Flow};
ghost use Rattle.dt_units.specs.Limits.{IsWithinLimits};
ghost use Rattle.dt_flow_model.specs.Acting.{record_for};
ghost use Rattle.dt_flow_model.specs.Keeping.{taken_by};
ghost use Rattle.dt_flow_model.specs.SendActs.{IsBefore, IsFirst};
ghost use Rattle.dt_world_model.specs.Host.{Host, IsCurrentHost, IsHost, Turn, host_wake, next_turn, sender_at, work};
ghost use Rattle.dt_world_model.specs.Relay.{Left, Out, emptied, leave, out_wake, relay_wake};
ghost use Rattle.dt_world_model.specs.Script.{Answers, Done};
ghost use Rattle.dt_world_laws.specs.Waking.{Due, due_at, leaves_at};
ghost use Rattle.dt_world_model.specs.Station.{Event, Station, Tick, settle_station, station_event, station_wake};

/// Each act of a host lowers the work that is left at its moment and keeps what a host keeps, so a host
/// comes to an end with its acts.
#[tactic(auto, using(dt_world_model::proofs::Work::work_falls, crate::proofs::Hosts::turn_keeps))]
pub fn acts_come_to_an_end()
    ensures falls { (p : Params) (now : ℕ) (host : Host) (turn : Turn) → IsWithinLimits p → IsHost p host → next_turn p now host ≡ Some turn → work p now turn.host < work p now host }
    ensures kept { (p : Params) (now : ℕ) (host : Host) (turn : Turn) → IsWithinLimits p → IsHost p host → next_turn p now host ≡ Some turn → IsHost p turn.host }
{}

/// The work that is left is enough for all acts that are due: after a station has settled none is,
/// whatever tags were answered.
pub fn settled_station_has_no_act_due<T>()
    ensures { (p : Params) (now : ℕ) (station : Station T) → IsWithinLimits p → IsHost p station.host → Answers (λ (after : Station T). IsHost p after.host × IsCurrentHost p now after.host) (settle_station p now station) }
{}

/// The wake is the first moment at which something is due: a tick before it reports nothing, hands out
/// nothing and leaves the station as it was.
///
/// Each wake is the first moment, both ways: nothing is due before it and something is due at it. Of a
/// host it is an act (`host`), of a link a packet that leaves (`link`), of a relay a packet that leaves
/// some link (`relay`; `relay_link` says which, and `relay_links` that none leaves any before), of a
/// station an act or a packet (`station`).
pub fn station_sleeps_until_its_wake<T>()
    ensures tick { (p : Params) (now : ℕ) (station : Station T) → IsBefore now (station_wake p station) → station_event p now Tick station ≡ Done station }
    ensures host { (p : Params) (host : Host) → IsFirst Turn (λ now. next_turn p now host) (host_wake p host) }
    ensures link { (out : Out T) → IsFirst (Left T) (λ now. (leave now out).0) (out_wake out out.waits) }
    ensures relay { (outs : List (Out T)) → IsFirst (Left T) (λ now. leaves_at now outs) (relay_wake outs) }
    ensures relay_links { (before after : List (Out T)) (out : Out T) (now : ℕ) → IsBefore now (relay_wake (before ++ out ∷ after)) → leave now out ≡ (None, out) }
    ensures station { (p : Params) (station : Station T) → IsFirst (Due T) (λ now. due_at p now station) (station_wake p station) }
    ensures relay_link { (outs : List (Out T)) (moment : ℕ) → relay_wake outs ≡ Some moment → (before after : List (Out T)) × (out : Out T) × (left : Left T) × (outs ≡ before ++ out ∷ after) × ((leave moment out).0 ≡ Some left) }
{}

/// Settling takes no octets: those that a flow's send record has taken end where they ended, or the
/// record is gone, whatever tags were answered. So who bounds their count, with more to
/// come, before a station settles bounds it after.
pub fn settling_takes_no_octets<T>()
    ensures { (p : Params) (now : ℕ) (station : Station T) (f : Flow) (more bound : ℕ) → IsWithinLimits p → IsHost p station.host → taken_by (record_for p now (sender_at station.host f)) + more < bound → Answers (λ (after : Station T). taken_by (record_for p now (sender_at after.host f)) + more < bound) (settle_station p now station) }
{}

/// An event leaves a relay's links with their paces and charges, and its routes: the station that starts
/// again has the relay of its first start, whatever tags were answered.
pub fn event_leaves_links_and_routes<T>()
    ensures { (p : Params) (now : ℕ) (event : Event T) (station : Station T) → Answers (λ (after : Station T). emptied after.relay ≡ emptied station.relay) (station_event p now event station) }
{}
