//! The laws' premises, met by a worked run.
ghost use Rattle.std.specs.Prelude.{◌≡◌, [], ◌∷◌};
ghost use Rattle.dt_orders_world_laws.specs.Both.{Runs};
ghost use Rattle.dt_orders_world_laws.specs.Worked.{fate_of_order, no_set_back, told};

/// A client meets its server and gives an order. The server executes it and loses power before it syncs; the
/// client calls again, and dies when the order was executed and synced; it calls once more, and its program is
/// told that the order is done, with the result of the one execution that was synced. That is a history without
/// a set back, so the premises of the laws can be met.
pub fn a_run_with_crashes_is_a_history()
    ensures runs { Runs no_set_back told }
    ensures told { told.told ≡ record { client = 1; ended = fate_of_order } ∷ [] }
{}
