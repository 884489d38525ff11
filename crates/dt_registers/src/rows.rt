//! Rows that a server writes and forgets.
ghost use Rattle.std.specs.Prelude.{◌≡◌, ◌≢◌, ◌+◌, ◌<◌, ◌≤◌, ◌^◌, ◌↔◌, IfSome, IsSome};
ghost use Rattle.dt_orders_model.specs.Writing.{floor_of, horizon_after, row_after, row_finished, row_touched};
ghost use Rattle.dt_orders_model.specs.declared.registers.RowState.TheVariants.{AtWork};

use dt_orders_model::{Asked, Meta, Row, RowState};

/// What is written in one transaction: the store's numbers and the row of the lane.
#[derive(Clone, Copy)]
pub struct Written {
    pub meta: Meta,
    pub row: Row,
}

/// The row of an order that is executed or cancelled, in the state that it has then. `before` is the row that
/// the lane had. The result of an order that is done is written beside it, in the same transaction as the
/// effect.
pub fn write_row(meta: &Meta, before: &Option<Row>, asked: &Asked, state: RowState) -> Written
    requires { meta.now.clock + 1 < 2 ^ 64 }
    ensures meta { result.meta ≡ record meta.now { clock = meta.now.clock + 1 } }
    ensures row { result.row ≡
        row_after (meta.now.clock + 1) meta.now.horizon before.now asked.now.number asked.now.tag state }
{
    let meta = ticked(meta);
    Written {
        meta,
        row: Row {
            number: asked.number,
            tag: asked.tag,
            state,
            stamp: meta.clock,
            born: floor_of(meta.horizon, before),
        },
    }
}

/// The row of a lane whose number was refused as stale, for `Verdict::Touch`.
pub fn touch_row(meta: &Meta, row: &Row) -> Written
    requires { meta.now.clock + 1 < 2 ^ 64 }
    ensures meta { result.meta ≡ record meta.now { clock = meta.now.clock + 1 } }
    ensures row { result.row ≡ row_touched (meta.now.clock + 1) row.now }
{
    let meta = ticked(meta);
    let mut touched = *row;
    touched.stamp = meta.clock;
    Written { meta, row: touched }
}

/// The row of an order that was at work and has its result now. `None` if it isn't at work: nothing may be
/// written then.
pub fn finish_row(meta: &Meta, row: &Row) -> Option<Written>
    requires { meta.now.clock + 1 < 2 ^ 64 }
    ensures some { IsSome result ↔ (row.now.state ≡ AtWork) }
    ensures meta { IfSome result (λ w. w.meta ≡ record meta.now { clock = meta.now.clock + 1 }) }
    ensures row { IfSome result (λ w. w.row ≡ row_finished (meta.now.clock + 1) row.now) }
{
    match row.state {
        RowState::AtWork => {
            let meta = ticked(meta);
            let mut row = *row;
            row.state = RowState::Done;
            row.stamp = meta.clock;
            Some(Written { meta, row })
        }
        RowState::Cancelled | RowState::Done => None,
    }
}

/// The store's numbers when a row is forgotten. `None` if its order is at work: it may not be forgotten then.
pub fn forget_row(meta: &Meta, row: &Row) -> Option<Meta>
    requires { meta.now.clock + 1 < 2 ^ 64 }
    ensures some { IsSome result ↔ (row.now.state ≢ AtWork) }
    ensures meta { IfSome result (λ m. m ≡ record meta.now {
      clock = meta.now.clock + 1;
      horizon = horizon_after meta.now.horizon row.now;
    }) }
{
    match row.state {
        RowState::AtWork => None,
        RowState::Cancelled | RowState::Done => {
            let mut meta = ticked(meta);
            meta.horizon = meta.horizon.max(row.stamp);
            Some(meta)
        }
    }
}

/// One commit more.
fn ticked(meta: &Meta) -> Meta
    requires { meta.now.clock + 1 < 2 ^ 64 }
    ensures { result ≡ record meta.now { clock = meta.now.clock + 1 } }
{
    let mut meta = *meta;
    meta.clock += 1;
    meta
}

/// The floor of a lane: the horizon when it got its row, or the present one if it has none.
fn floor_of(horizon: u64, row: &Option<Row>) -> u64
    ensures { result ≡ floor_of horizon row.now }
{
    match row {
        Some(row) => row.born,
        None => horizon,
    }
}
