//! Which datagrams came too early: data above the number that their flow's receiver expects.
ghost use Rattle.std.specs.Prelude.{◌≡◌, IfSome, ◌<◌};
ghost use Rattle.dt_layout.specs.Spelling.{packet_of};
ghost use Rattle.dt_early.specs.Early.{data_at, data_in, data_of, expected_at, is_ahead};

use crate::arrivals::Arrival;
use dt_endpoint::Endpoint;
use dt_host::flow_of_packet;
use dt_layout::{GramOctets, Packet, read_packet};
use dt_units::numbers::relation;
use dt_units::{Flow, NodeId, Relation};

/// The data in a datagram: their flow, the sequence number of their first octet, whether they begin a run,
/// and the life of the datagram in milliseconds.
#[derive(Clone, Copy)]
pub struct Data {
    pub flow: Flow,
    pub number: u32,
    pub begins: bool,
    pub life: u32,
}

/// The data in a Deltagram, if it is for this node and has data.
fn data_in(me: NodeId, gram: GramOctets<'_>) -> Option<Data>
    ensures { result ≡ data_in me.0 gram.entry.octets.now }
{
    let deltagram = gram.deltagram();
    if deltagram.to != me.0 {
        return None;
    }
    let Ok(packet) = read_packet(&deltagram) else {
        return None;
    };
    data_of(NodeId(deltagram.from), me, &packet, gram.life())
}

/// The data of a packet from a node to this one, in a datagram with this life.
fn data_of(from: NodeId, me: NodeId, packet: &Packet<'_>, life: u32) -> Option<Data>
    ensures { result ≡ data_of from.0 me.0 (packet_of packet.now) life }
{
    match packet {
        Packet::Data { number, drf, .. } => Some(Data {
            flow: flow_of_packet(from, me, packet),
            number: *number,
            begins: *drf,
            life,
        }),
        Packet::Ack { .. } | Packet::Meet { .. } | Packet::Close { .. } => None,
    }
}

/// The data that a datagram brings to an endpoint, or none where the endpoint would refuse it, or it has
/// none for its node. Their life is longer than the datagram waited.
pub fn data_at(endpoint: &Endpoint, arrival: Arrival<'_>) -> Option<Data>
    ensures brings { let a = arrival.entry in result ≡ data_at endpoint.now a.link a.datagram.now a.waited }
    ensures life { IfSome result (λ brought. arrival.entry.waited < brought.life) }
{
    match endpoint.check(arrival.link, arrival.datagram, arrival.waited) {
        Ok(gram) => data_in(endpoint.me(), gram),
        Err(_) => None,
    }
}

/// The number that a flow's receiver expects next, or none where no receive record stands.
pub fn expected_by(endpoint: &Endpoint, flow: &Flow) -> Option<u32>
    ensures { result ≡ expected_at endpoint.now.state.host flow.now }
{
    endpoint.expected(flow)
}

/// Whether data with this number are ahead of what is expected. Where nothing is expected none are.
pub fn is_ahead(expected: Option<u32>, number: u32) -> bool
    ensures { result ≡ is_ahead expected number }
{
    match expected {
        Some(expected) => relation(number, expected) == Relation::Above,
        None => false,
    }
}
