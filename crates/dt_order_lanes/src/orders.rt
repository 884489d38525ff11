//! Orders that are noted, called and cancelled.
ghost use Rattle.std.specs.Prelude.{◌≡◌, ◌+◌, ◌<◌, ◌≤◌, ◌^◌, IsSome, IfSome, Some, None, true, false};
ghost use Rattle.dt_orders_model.specs.Lanes.{adopted_by, call_by, call_of, called_of, cancelled_by, given_by, given_of, kind_of, lane_ended, lane_made, lane_noted, lane_opened, lane_unsure};

use dt_orders_model::{Attempt, Called, Client, Fate, Kind, Lane, Left, Order, Sending};

/// Notes an order on a lane, which its record of this number stores. `None` if the lane has an order without
/// a fate, if the client never heard of its server, or if it is stopped by a set back.
pub fn give(client: &Client, lane: &Lane, uid: u64, record_number: u64) -> Option<Lane>
    requires { lane.now.last + 1 < 2 ^ 64 }
    ensures { result ≡ given_of client.now lane.now uid record_number }
{
    match client.known {
        None => None,
        Some(known) => match client.stopped {
            Some(_) => None,
            None => match lane.order {
                Some(_) => None,
                None => {
                    let mut lane = *lane;
                    lane.order = Some(Order {
                        uid,
                        number: lane.last + 1,
                        tag: client.nonce,
                        since: known,
                    });
                    lane.is_fresh = true;
                    lane.is_cancelled = false;
                    lane.is_calling = false;
                    lane.record_number = record_number;
                    Some(lane)
                }
            },
        },
    }
}

/// The call of a lane's order, exactly as the order is noted. `stored` is the number of the last record that
/// is stored: the order is called only if its own is. `None` too if a call of it waits, if the lane has no
/// order, or if the client is stopped.
pub fn call(client: &Client, lane: &Lane, stored: u64, attempt: Attempt) -> Option<Called>
    ensures call { result ≡ call_of client.now lane.now stored attempt }
    ensures stored { IsSome result → lane.now.record_number ≤ stored }
{
    match client.stopped {
        Some(_) => None,
        None => match lane.order {
            None => None,
            Some(order) => {
                if !lane.is_calling && lane.record_number <= stored {
                    Some(called(client, lane, &order, attempt))
                } else {
                    None
                }
            }
        },
    }
}

/// The call of this order.
fn called(client: &Client, lane: &Lane, order: &Order, attempt: Attempt) -> Called
    ensures { result ≡ called_of client.now lane.now order.now attempt }
{
    Called {
        kind: kind_of(lane.is_cancelled),
        number: order.number,
        tag: order.tag,
        since: order.since,
        attempt,
        knows: client.known,
        is_only: lane.is_fresh,
    }
}

fn kind_of(is_cancelled: bool) -> Kind
    ensures { result ≡ kind_of is_cancelled }
{
    if is_cancelled {
        Kind::Cancel
    } else {
        Kind::Order
    }
}

/// The lane after the transport took the call or declined it.
pub fn made(lane: &Lane, sending: Sending) -> Lane
    ensures { result ≡ lane_made sending lane.now }
{
    let mut lane = *lane;
    match sending {
        Sending::Sent => {
            lane.is_fresh = false;
            lane.is_calling = true;
        }
        Sending::Declined => (),
    }
    lane
}

/// The lane whose call ended without an answer that can be used: the order is called again.
pub fn unsure(lane: &Lane) -> Lane
    ensures { result ≡ lane_unsure lane.now }
{
    let mut lane = *lane;
    lane.is_calling = false;
    lane
}

/// The lane as a new opening of the client's store reads it.
pub fn reopen(lane: &Lane) -> Lane
    ensures { result ≡ lane_opened lane.now }
{
    let mut lane = *lane;
    lane.is_fresh = false;
    lane.is_cancelled = false;
    lane.is_calling = false;
    lane.record_number = 0;
    lane
}

/// Cancels a lane's order. If no call of it was made, it has the fate `Never` at once. Else it is asked about,
/// and its fate is the answer's.
pub fn cancel(lane: &Lane) -> Left
    ensures { result ≡ cancelled_by lane.now.order lane.now }
{
    let mut left = *lane;
    match lane.order {
        None => Left {
            lane: left,
            fate: None,
        },
        Some(order) => {
            if lane.is_fresh {
                Left {
                    lane: ended(lane, &order, 0),
                    fate: Some(Fate::Never),
                }
            } else {
                left.is_cancelled = true;
                Left {
                    lane: left,
                    fate: None,
                }
            }
        }
    }
}

/// The lane whose order has its fate. `above` is a number of the lane that the server told, or 0.
pub(crate) fn ended(lane: &Lane, order: &Order, above: u64) -> Lane
    ensures { result ≡ lane_ended lane.now order.now above }
{
    let mut lane = *lane;
    lane.last = lane.last.max(order.number).max(above);
    lane.order = None;
    lane.is_fresh = false;
    lane.is_cancelled = false;
    lane.is_calling = false;
    lane
}

/// The client that goes on after a set back of its server's store. The program calls it when all fates before
/// the alarm are stored and reported.
pub fn adopt(client: &Client) -> Client
    ensures { result ≡ adopted_by client.now.stopped client.now }
{
    let mut client = *client;
    if let Some(stopped) = client.stopped {
        client.known = Some(stopped);
        client.stopped = None;
    }
    client
}
