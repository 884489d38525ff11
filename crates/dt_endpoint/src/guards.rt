//! A guard against strangers, which stands before an endpoint.
ghost use Rattle.std.specs.Prelude.{ℕ, ◌≡◌, List, Some, None, OnErr, OnOk, is_some, option_map, true};
ghost use Rattle.dt_layout.specs.Spelling.{packet_of};
ghost use Rattle.dt_endpoint.specs.Guards.{GuardValue, admission, flow_admission, guard_after, is_open, open_guard, received_on};

use crate::endpoints::Endpoint;
use dt_host::flow_of_packet;
use dt_items::NoMemory;
use dt_layout::{Packet, read_deltagram, read_packet};
use dt_units::{Flow, NodeId};
use std::alloc::Global;
use std::marker::Model;

/// What becomes of a datagram at a guard.
#[derive(Clone, Copy, Debug, PartialEq, Eq)]
pub enum Admission {
    /// It may be handed to the endpoint.
    Admitted,
    /// It is for a port that isn't open.
    ClosedPort,
    /// It is of a flow without a receiver, and as many flows as the guard allows have one.
    TooManyFlows,
}

/// At which ports a node receives, and of how many flows at most: it keeps an endpoint from growing by
/// what strangers send.
///
/// Whoever has one asks it before [`Endpoint::arrive`], and drops what it doesn't admit. What is dropped
/// so never came: a loss, and nothing else. Acknowledgements, datagrams for other nodes and octets that
/// don't read are admitted, since no record is made of them.
#[derive(Drop)]
pub struct Guard {
    /// All are open where there is no list.
    ports: Option<Vec<u16>>,
    most: u32,
    closed: u64,
    crowded: u64,
}

impl Model for Guard {
    ghost Value = { GuardValue };

    ghost view = { λ g. record { ports = option_map (λ (v : _). v.items) g.ports; most = g.most; closed = g.closed; crowded = g.crowded } };
}

impl Guard {
    /// A guard that admits everything.
    pub fn new() -> Guard
        ensures { result ≡ open_guard }
    {
        Guard {
            ports: None,
            most: u32::MAX,
            closed: 0,
            crowded: 0,
        }
    }

    /// From now on these ports are open, or all of them where there is no list, and so many flows may
    /// have a receiver. Those that have one keep it. `NoMemory` where there is none for the list; then
    /// nothing has changed. With no list it takes no memory.
    pub fn limit(&mut self, alloc: Global, ports: Option<&[u16]>, most: u32) -> Result<(), NoMemory>
        ensures done { OnOk result (self.new ≡ record self.old { ports = option_map (λ (s : _). s.now) ports.entry; most = most }) }
        ensures same { OnErr result (self.new ≡ self.old) }
        ensures may { OnErr result (is_some ports.entry ≡ true) }
    {
        self.ports = match ports {
            Some(ports) => Some(Vec::from_slice(alloc, ports)?),
            None => None,
        };
        self.most = most;
        Ok(())
    }

    /// Whether a datagram may be handed to an endpoint. One that may not is counted. It is read once more
    /// for that, and nothing of it is kept.
    pub fn admits(&mut self, endpoint: &Endpoint, datagram: &[u8]) -> Admission
        ensures answer { result ≡ admission endpoint.now.state.host self.old datagram.now }
        ensures counts { self.new ≡ guard_after result self.old }
    {
        let found = self.judge(endpoint, datagram);
        match found {
            Admission::Admitted => {}
            Admission::ClosedPort => self.closed = self.closed.saturating_add(1),
            Admission::TooManyFlows => self.crowded = self.crowded.saturating_add(1),
        }
        found
    }

    /// How many datagrams were for a port that isn't open: 2^64 - 1 at most.
    pub fn closed(&self) -> u64
        ensures { result ≡ self.now.closed }
    {
        self.closed
    }

    /// How many datagrams were of one flow too many: 2^64 - 1 at most.
    pub fn crowded(&self) -> u64
        ensures { result ≡ self.now.crowded }
    {
        self.crowded
    }

    fn judge(&self, endpoint: &Endpoint, datagram: &[u8]) -> Admission
        ensures { result ≡ admission endpoint.now.state.host self.now datagram.now }
    {
        let Ok(gram) = read_deltagram(datagram) else {
            return Admission::Admitted;
        };
        if gram.to != endpoint.me().0 {
            return Admission::Admitted;
        }
        let Ok(packet) = read_packet(&gram) else {
            return Admission::Admitted;
        };
        match received_on(NodeId(gram.from), endpoint.me(), &packet) {
            Some(flow) => self.judge_flow(endpoint, &flow),
            None => Admission::Admitted,
        }
    }

    fn judge_flow(&self, endpoint: &Endpoint, flow: &Flow) -> Admission
        ensures { result ≡ flow_admission endpoint.now.state.host self.now flow.now }
    {
        if !self.is_open(flow.to_port) {
            return Admission::ClosedPort;
        }
        if !endpoint.has_receiver(flow) && endpoint.receivers() as u64 >= u64::from(self.most) {
            return Admission::TooManyFlows;
        }
        Admission::Admitted
    }

    fn is_open(&self, port: u16) -> bool
        ensures { result ≡ is_open port self.now.ports }
    {
        match &self.ports {
            Some(ports) => ports.contains(&port),
            None => true,
        }
    }
}

/// The flow on which a node receives a packet: an acknowledgement comes to a sender.
fn received_on(from: NodeId, me: NodeId, packet: &Packet<'_>) -> Option<Flow>
    ensures { result ≡ received_on from.0 me.0 (packet_of packet.now) }
{
    match packet {
        Packet::Data { .. } | Packet::Meet { .. } | Packet::Close { .. } => {
            Some(flow_of_packet(from, me, packet))
        }
        Packet::Ack { .. } => None,
    }
}
