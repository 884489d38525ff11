//! What a server does with a request.
ghost use Rattle.std.specs.Prelude.{◌≡◌, ◌≤◌, IfSome, Some, None};
ghost use Rattle.dt_orders_model.specs.Chains.{is_on_by, shared_by};
ghost use Rattle.dt_orders_model.specs.Judging.{is_ask, is_forked, is_met, judged_above, judged_by, said, stale_by, verdict_of, wanted};

use dt_orders_model::{Asked, Kind, Known, Meta, Place, Places, Row, RowState, Verdict};

/// A clock up to which the history of a commit is surely this store's too: 0 if the store hasn't its opening.
pub fn shared(heard: &Known, place: &Place) -> u64
    ensures value { result ≡ shared_by heard.now.clock place.now }
    ensures most { result ≤ place.now.left }
{
    if place.is_there {
        heard.clock.min(place.left)
    } else {
        0
    }
}

/// Whether the client knows of a commit that isn't in the history of this store: the store was set back.
pub fn is_forked(knows: &Option<Known>, place: &Place) -> bool
    ensures { result ≡ is_forked knows.now place.now }
{
    match knows {
        Some(knows) => !(place.is_there && knows.clock <= place.left),
        None => false,
    }
}

/// Whether the client knows of the present opening.
fn is_met(meta: &Meta, knows: &Option<Known>) -> bool
    ensures { result ≡ is_met meta.now.nonce knows.now }
{
    match knows {
        Some(knows) => knows.nonce == meta.nonce,
        None => false,
    }
}

/// What is done with a request. `row` is the row of its lane, and `places` is what the list of openings says
/// of its two commits. A `strict` server takes no order of a client that doesn't know of the present opening:
/// it must be strict if its store may be set back and the transport may deliver an old call late.
pub fn judge(
    meta: &Meta,
    row: &Option<Row>,
    asked: &Asked,
    places: &Places,
    strict: bool,
) -> Verdict
    ensures { result ≡ verdict_of meta.now row.now asked.now places.now strict }
{
    if is_forked(&asked.knows, &places.knows) {
        return Verdict::Forked;
    }
    if is_ask(asked.kind) {
        return Verdict::Read;
    }
    if strict && !is_met(meta, &asked.knows) {
        return Verdict::Hello;
    }
    judged_by(
        meta.horizon,
        row,
        asked,
        shared(&asked.since, &places.since),
    )
}

fn is_ask(kind: Kind) -> bool
    ensures { result ≡ is_ask kind }
{
    match kind {
        Kind::Order | Kind::Cancel => false,
        Kind::Ask => true,
    }
}

/// By the row of the lane, or by the horizon if the lane has none.
fn judged_by(horizon: u64, row: &Option<Row>, asked: &Asked, shared: u64) -> Verdict
    ensures { result ≡ judged_by horizon row.now asked.now shared }
{
    match row {
        None => judged_above(horizon, asked.kind, shared),
        Some(row) => {
            if row.number == asked.number && row.tag == asked.tag {
                said(row.state)
            } else if asked.number <= row.number {
                stale_by(row, shared)
            } else {
                judged_above(row.born, asked.kind, shared)
            }
        }
    }
}

/// What an answer says of an order that has the lane's row.
fn said(state: RowState) -> Verdict
    ensures { result ≡ said state }
{
    match state {
        RowState::AtWork => Verdict::AtWork,
        RowState::Cancelled => Verdict::Never,
        RowState::Done => Verdict::Done,
    }
}

/// A number that isn't above the row's is stale. If the row's stamp isn't above the clock up to which the
/// order is shared, the row is touched: after that the number is closed even if the row is forgotten.
fn stale_by(row: &Row, shared: u64) -> Verdict
    ensures { result ≡ stale_by row.now shared }
{
    if row.stamp <= shared {
        Verdict::Touch
    } else {
        Verdict::Stale
    }
}

/// An order whose number no row closes: it is old if a row was forgotten that may have been its own.
fn judged_above(floor: u64, kind: Kind, shared: u64) -> Verdict
    ensures { result ≡ judged_above floor kind shared }
{
    if shared < floor {
        return Verdict::Old;
    }
    match kind {
        Kind::Order => Verdict::Execute,
        Kind::Cancel => Verdict::Cancel,
        Kind::Ask => Verdict::Read,
    }
}
