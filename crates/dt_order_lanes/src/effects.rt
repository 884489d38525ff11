//! What an answer that is used does to the order that was called.
ghost use Rattle.std.specs.Prelude.{◌≡◌, ◌≢◌, ◌+◌, ◌<◌, ◌^◌, ◌&&◌, IsSome, IfSome, Some, None, true, false};
ghost use Rattle.dt_orders_model.specs.Lanes.{above_of, effect_of, fate_by, is_ask_call, is_of, lane_by, lane_ended, lane_renewed, lane_renumbered, lane_unsure, left_by, left_of};

use crate::orders::{ended, unsure};
use dt_orders_model::{Answer, Called, Client, Effect, Fate, Kind, Known, Lane, Left, Order, Word};

/// What an answer does to the order, if it is to the only call of it or not.
fn effect_of(word: Word, is_only: bool) -> Effect
    ensures { result ≡ effect_of word is_only }
{
    match word {
        Word::Done => Effect::Ends(Fate::Done),
        Word::Never => Effect::Ends(Fate::Never),
        Word::NotNow => Effect::Renews,
        Word::Old => {
            if is_only {
                Effect::Renews
            } else {
                Effect::Ends(Fate::Unknown)
            }
        }
        Word::Stale => {
            if is_only {
                Effect::Renumbers
            } else {
                Effect::Ends(Fate::Unknown)
            }
        }
        Word::AtWork | Word::Forked | Word::Hello | Word::Told => Effect::Waits,
    }
}

fn is_ask_call(kind: Kind) -> bool
    ensures { result ≡ is_ask_call kind }
{
    match kind {
        Kind::Ask => true,
        Kind::Order | Kind::Cancel => false,
    }
}

/// Whether the call is of the lane's order, as that is numbered now.
fn is_of(order: &Option<Order>, called: &Called) -> bool
    ensures { result ≡ is_of order.now called.now }
{
    match order {
        None => false,
        Some(order) => {
            !is_ask_call(called.kind) && (order.number == called.number && order.tag == called.tag)
        }
    }
}

fn above_of(word: Word, value: u64) -> u64
    ensures { result ≡ above_of word value }
{
    match word {
        Word::Stale => value,
        Word::Done
        | Word::Never
        | Word::AtWork
        | Word::NotNow
        | Word::Old
        | Word::Forked
        | Word::Hello
        | Word::Told => 0,
    }
}

/// The order goes on from a commit as of which it wasn't executed.
fn renewed(lane: &Lane, order: &Order, heard: Known, record_number: u64) -> Lane
    ensures { result ≡ lane_renewed lane.now order.now heard record_number }
{
    let mut lane = *lane;
    let mut order = *order;
    order.since = heard;
    lane.order = Some(order);
    lane.is_calling = false;
    lane.record_number = record_number;
    lane
}

/// The order gets the number after the row's.
fn renumbered(
    client: &Client,
    lane: &Lane,
    order: &Order,
    answer: &Answer,
    record_number: u64,
) -> Lane
    requires { answer.now.value + 1 < 2 ^ 64 }
    ensures { result ≡
        lane_renumbered lane.now order.now answer.now.value client.now.nonce answer.now.heard record_number }
{
    let mut lane = *lane;
    lane.order = Some(Order {
        uid: order.uid,
        number: answer.value + 1,
        tag: client.nonce,
        since: answer.heard,
    });
    lane.is_fresh = true;
    lane.is_calling = false;
    lane.record_number = record_number;
    lane
}

/// What an answer that is used leaves of the lane of its call, and the fate of the order if it has one now.
/// The record of this number stores what changed. An answer to a call of another order changes nothing.
pub fn take(
    client: &Client,
    lane: &Lane,
    called: &Called,
    answer: &Answer,
    record_number: u64,
) -> Left
    requires { answer.now.value + 1 < 2 ^ 64 }
    ensures { result ≡ left_of client.now lane.now called.now answer.now record_number }
{
    let effect = effect_of(answer.word, called.is_only && client.is_once);
    let is_of = is_of(&lane.order, called);
    match lane.order {
        Some(order) if is_of => match effect {
            Effect::Waits => Left {
                lane: unsure(lane),
                fate: None,
            },
            Effect::Renews => Left {
                lane: renewed(lane, &order, answer.heard, record_number),
                fate: None,
            },
            Effect::Renumbers => Left {
                lane: renumbered(client, lane, &order, answer, record_number),
                fate: None,
            },
            Effect::Ends(fate) => Left {
                lane: ended(lane, &order, above_of(answer.word, answer.value)),
                fate: Some(fate),
            },
        },
        _ => Left {
            lane: unsure(lane),
            fate: None,
        },
    }
}
