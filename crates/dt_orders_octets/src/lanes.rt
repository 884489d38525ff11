//! What a client stores: what it knows of its server, and its lanes.
ghost use Rattle.std.specs.Prelude.{◌≡◌, ◌+◌, ◌*◌, ◌≤◌, length};
ghost use Rattle.dt_orders_octets.specs.Spelling.{client_octets, lane_octets, order_words};
ghost use Rattle.dt_orders_octets.specs.Reading.{bare_lane_in, client_in, is_client, is_lane, lane_in, order_at, read_if};
ghost use Rattle.dt_orders_octets.specs.Words.{spell};

use crate::kept::{
    is_32, is_flag, is_known_at, is_number, known_at, maybe_known_at, put_known, put_maybe_known,
};
use crate::requests::NumberedLane;
use crate::words::{Octets, small, word};
use dt_orders_model::{Client, Lane, Order};

/// How many octets a client's state has.
pub const CLIENT_OCTETS: usize = 80;
/// How many octets a lane has.
pub const LANE_OCTETS: usize = 104;

/// The octets of a client's state.
pub fn write_client(client: &Client) -> Octets
    ensures { result ≡ client_octets client.now }
{
    let mut octets = Octets::new();
    octets.put(client.nonce);
    octets.put(u64::from(client.is_once));
    put_maybe_known(&mut octets, &client.known);
    put_maybe_known(&mut octets, &client.stopped);
    octets
}

fn is_client(octets: &[u8]) -> bool
    ensures { result ≡ is_client octets.now }
{
    octets.len() == CLIENT_OCTETS
        && is_flag(word(octets, 1))
        && is_known_at(octets, 2)
        && is_known_at(octets, 6)
}

/// What octets say of a client. `None` if there aren't 80, or they spell no client.
pub fn read_client(octets: &[u8]) -> Option<Client>
    ensures { result ≡ read_if (is_client octets.now) (client_in octets.now) }
{
    if !is_client(octets) {
        return None;
    }
    Some(Client {
        nonce: word(octets, 0),
        known: maybe_known_at(octets, 2),
        stopped: maybe_known_at(octets, 6),
        is_once: word(octets, 1) != 0,
    })
}

/// Writes a lane's order, or none.
fn put_order(octets: &mut Octets, order: &Option<Order>)
    requires { length octets.old + 56 ≤ 112 }
    ensures { octets.new ≡ spell octets.old (order_words order.now) }
{
    match order {
        None => {
            octets.put(0);
            octets.put(0);
            octets.put(0);
            octets.put(0);
            octets.put(0);
            octets.put(0);
            octets.put(0);
        }
        Some(order) => {
            octets.put(1);
            octets.put(order.uid);
            octets.put(order.number);
            octets.put(order.tag);
            put_known(octets, &order.since);
        }
    }
}

fn order_at(octets: &[u8], place: usize) -> Option<Order>
    requires { 8 * place + 56 ≤ length octets.now }
    ensures { result ≡ order_at place octets.now }
{
    if word(octets, place) == 0 {
        return None;
    }
    Some(Order {
        uid: word(octets, place + 1),
        number: word(octets, place + 2),
        tag: word(octets, place + 3),
        since: known_at(octets, place + 4),
    })
}

/// The octets of a lane.
pub fn write_lane(numbered: &NumberedLane) -> Octets
    ensures { result ≡ lane_octets numbered.now }
{
    let lane = &numbered.lane;
    let mut octets = Octets::new();
    octets.put(u64::from(numbered.number));
    octets.put(lane.last);
    put_order(&mut octets, &lane.order);
    octets.put(u64::from(lane.is_fresh));
    octets.put(u64::from(lane.is_cancelled));
    octets.put(u64::from(lane.is_calling));
    octets.put(lane.record_number);
    octets
}

fn is_lane(octets: &[u8]) -> bool
    ensures { result ≡ is_lane octets.now }
{
    octets.len() == LANE_OCTETS
        && is_32(word(octets, 0))
        && is_number(word(octets, 1))
        && is_flag(word(octets, 2))
        && is_number(word(octets, 4))
        && is_32(word(octets, 6))
        && is_flag(word(octets, 9))
        && is_flag(word(octets, 10))
        && is_flag(word(octets, 11))
}

fn bare_lane_in(octets: &[u8]) -> Lane
    requires { length octets.now ≡ 104 }
    ensures { result ≡ bare_lane_in octets.now }
{
    Lane {
        last: word(octets, 1),
        order: order_at(octets, 2),
        is_fresh: word(octets, 9) != 0,
        is_cancelled: word(octets, 10) != 0,
        is_calling: word(octets, 11) != 0,
        record_number: word(octets, 12),
    }
}

/// What octets say of a lane. `None` if there aren't 104, or they spell no lane: its numbers are below 2^63.
pub fn read_lane(octets: &[u8]) -> Option<NumberedLane>
    ensures { result ≡ read_if (is_lane octets.now) (lane_in octets.now) }
{
    if !is_lane(octets) {
        return None;
    }
    Some(NumberedLane {
        number: small(word(octets, 0)),
        lane: bare_lane_in(octets),
    })
}
