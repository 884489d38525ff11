//! The promise, applied to a whole schedule: so a world can meet what it asks.
#![tactic(auto)]

ghost use Rattle.std.specs.Prelude.{◌≡◌, List, [], ◌∷◌, map, Ok};
ghost use Rattle.dt_flow_model.specs.declared.rows.Given.{Given};
ghost use Rattle.dt_world_model.specs.Ledgers.{ledger_of};
ghost use Rattle.dt_world_model.specs.Setup.{new_setup, new_world, setup_by};
ghost use Rattle.dt_world_model.specs.Worked.{main_flow, two_stations};
ghost use Rattle.dt_world_model.specs.World.{placed};
ghost use Rattle.dt_world_model.specs.WorldFacts.{SafeWorld};
ghost use Rattle.dt_world_model.specs.WorldStep.{world_after};
ghost use Rattle.dt_world_laws.specs.Schedule.{near_the_end, schedule, two_ways};

/// A setup that the calls make, and a schedule of fifteen events from it: the promise holds, and eleven
/// octets were given, each at its place.
pub fn promise_of_a_whole_schedule()
    ensures setup { setup_by (two_stations 5 0) (new_setup near_the_end) ≡ Ok two_ways }
    ensures safe { SafeWorld (world_after (new_world two_ways) schedule) }
    ensures lives { ((placed (world_after (new_world two_ways) schedule) 1).life ≡ 1) × ((placed (world_after (new_world two_ways) schedule) 2).life ≡ 0) }
    ensures places { map (λ row. row.place) (ledger_of (world_after (new_world two_ways) schedule).ledgers main_flow).given ≡ 0 ∷ 1 ∷ 2 ∷ 3 ∷ 4 ∷ 5 ∷ 6 ∷ 7 ∷ 8 ∷ 9 ∷ 10 ∷ [] }
    ensures octets { map (λ row. row.octet) (ledger_of (world_after (new_world two_ways) schedule).ledgers main_flow).given ≡ 97 ∷ 98 ∷ 99 ∷ 100 ∷ 101 ∷ 102 ∷ 103 ∷ 104 ∷ 105 ∷ 106 ∷ 107 ∷ [] }
{}
