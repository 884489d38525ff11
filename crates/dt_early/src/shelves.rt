//! `EarlyShelf`, which stands before an endpoint or a service.
ghost use Rattle.std.specs.Prelude.{◌≡◌, ◌<◌, OnErr, OnOk, IfSome, count_by, filter, length};
ghost use Rattle.std.specs.List.{list_any, position};
ghost use Rattle.dt_endpoint.specs.Calls.{Arrives};
ghost use Rattle.dt_service.specs.Calls as service_calls;
ghost use Rattle.dt_early.specs.Early.{Keeps, Replays, ShelfArrives, ShelfServes, aged, early_of, empty_shelf, has_room, host_of, host_of_service, is_alive, is_of, is_of_flow, is_ready, ready, with_early};

use crate::arrivals::Arrival;
use crate::early_data::{Data, data_at, expected_by, is_ahead};
use crate::held::Held;
use dt_endpoint::{Endpoint, Received};
use dt_items::NoMemory;
use dt_service::Service;
use dt_units::Flow;
use std::alloc::Global;
use std::marker::Model;

/// Room for datagrams whose data came too early: a flow's receiver expects a lower number than theirs.
/// They wait here for their place, and are handed in when it comes.
///
/// Whoever has a shelf hands in datagrams by [`EarlyShelf::arrive`] in place of [`Endpoint::arrive`], or by
/// [`EarlyShelf::serve`] in place of [`Service::arrive`]. To what is behind it the shelf is a link that
/// delays: a datagram that was held is handed in later, once, and has waited so much longer. One whose life
/// ends on the shelf is gone, as one that a link lost.
///
/// A guard is asked before, when a datagram comes, and not again. Data of a flow without a receive record
/// are never held.
#[derive(Drop)]
pub struct EarlyShelf {
    alloc: Global,
    most: u32,
    of_flow: u32,
    held: Vec<Held>,
}

impl Model for EarlyShelf {
    ghost use Rattle.dt_early.specs.Early as model;

    ghost Value = { model.EarlyShelf };

    ghost view = { λ s. record { most = s.most; of_flow = s.of_flow; held = s.held.items } };
}

impl EarlyShelf {
    /// A shelf without room: each datagram is handed in as it comes. It takes no memory.
    pub fn new(alloc: Global) -> EarlyShelf
        ensures { result ≡ empty_shelf }
    {
        EarlyShelf {
            alloc,
            most: 0,
            of_flow: 0,
            held: Vec::new(alloc),
        }
    }

    /// From now on it holds so many datagrams at most, and so many of one flow. What it holds stays. It
    /// takes the memory of a datagram when it holds it.
    pub fn limit(&mut self, most: u32, of_flow: u32)
        ensures { self.new ≡ record self.old { most = most; of_flow = of_flow } }
    {
        self.most = most;
        self.of_flow = of_flow;
    }

    /// How many datagrams it holds. Those whose life has ended are among them until the next arrival.
    pub fn len(&self) -> usize
        ensures { result ≡ length self.now.held }
    {
        self.held.len()
    }

    /// A datagram comes to an endpoint that is behind the shelf. One that came too early is held where
    /// there is room, and the answer is `Done`; where there is no memory for that it is handed in as each
    /// other is. After one that is handed in, what is ready of its flow is handed in.
    ///
    /// The cost beside that of [`Endpoint::arrive`] is a look at each datagram that is held, and another
    /// for each that is handed in.
    pub fn arrive(&mut self, endpoint: &mut Endpoint, arrival: Arrival<'_>) -> Received
        ensures { let a = arrival.entry in ShelfArrives result a.now a.link a.datagram.now a.waited self.old endpoint.old self.new endpoint.new }
    {
        self.age(arrival.now);
        let brought = data_at(endpoint, arrival);
        if self.keeps(endpoint, brought, arrival) {
            return Received::Done;
        }
        let first = endpoint.arrive(arrival.now, arrival.link, arrival.datagram, arrival.waited);
        match brought {
            Some(brought) => self.replay(endpoint, arrival.now, &brought.flow, first),
            None => first,
        }
    }

    /// The same for a service. Each datagram that is handed in is a turn of it.
    pub fn serve(&mut self, service: &mut Service, arrival: Arrival<'_>) -> Received
        ensures { let a = arrival.entry in ShelfServes result a.now a.link a.datagram.now a.waited self.old service.old self.new service.new }
    {
        self.age(arrival.now);
        let brought = data_at(service.endpoint(), arrival);
        if self.keeps(service.endpoint(), brought, arrival) {
            return Received::Done;
        }
        let first = service.arrive(arrival.now, arrival.link, arrival.datagram, arrival.waited);
        match brought {
            Some(brought) => self.replay_to_service(service, arrival.now, &brought.flow, first),
            None => first,
        }
    }

    /// What has no life left is gone.
    fn age(&mut self, now: u64)
        ensures { self.new ≡ aged now self.old }
    {
        drop_old(now, &mut self.held);
    }

    /// Holds a datagram if its data came too early and there is room and memory for it.
    fn keeps(&mut self, endpoint: &Endpoint, brought: Option<Data>, arrival: Arrival<'_>) -> bool
        ensures { let a = arrival.entry in Keeps result brought endpoint.now.state.host a.now a.link a.datagram.now a.waited self.old self.new }
    {
        let Some(brought) = brought else {
            return false;
        };
        if brought.begins || !is_ahead(expected_by(endpoint, &brought.flow), brought.number) {
            return false;
        }
        if !self.has_room(&brought) {
            return false;
        }
        match self.hold(&brought, arrival) {
            Ok(()) => true,
            Err(NoMemory) => false,
        }
    }

    /// Puts a datagram last. `NoMemory` leaves the shelf as it was.
    fn hold(&mut self, brought: &Data, arrival: Arrival<'_>) -> Result<(), NoMemory>
        ensures held { let a = arrival.entry in OnOk result (self.new ≡ with_early (early_of brought.now a.now a.link a.datagram.now a.waited) self.old) }
        ensures same { OnErr result (self.new ≡ self.old) }
    {
        let octets = Vec::from_slice(self.alloc, arrival.datagram)?;
        self.held.reserve(1)?;
        self.held.push_reserved(Held {
            link: arrival.link,
            flow: brought.flow,
            number: brought.number,
            octets,
            life: brought.life,
            waited: arrival.waited,
            since: arrival.now,
        });
        Ok(())
    }

    /// Whether there is room for these data, which aren't held already.
    fn has_room(&self, brought: &Data) -> bool
        ensures { result ≡ has_room brought.now.flow brought.now.number self.now }
    {
        self.held.len() < self.most as usize
            && count_of(&self.held, &brought.flow) < self.of_flow as usize
            && !has(&self.held, &brought.flow, brought.number)
    }

    /// Takes what is ready of a flow, if something is.
    fn take(&mut self, endpoint: &Endpoint, now: u64, flow: &Flow) -> Option<Held>
        ensures taken { result ≡ (ready endpoint.now.state.host now flow.now self.old).0 }
        ensures left { self.new ≡ (ready endpoint.now.state.host now flow.now self.old).1 }
        ensures fewer { IfSome result (λ _. length self.new.held < length self.old.held) }
    {
        let expected = expected_by(endpoint, flow);
        let place = self.ready_place(expected, now, flow)?;
        Some(self.held.remove(place))
    }

    /// Where the first stands that is ready.
    fn ready_place(&self, expected: Option<u32>, now: u64, flow: &Flow) -> Option<usize>
        ensures { result ≡ position (is_ready expected now flow.now) self.now.held }
    {
        self.held
            .iter()
            .position(|one| is_ready(one, expected, now, flow))
    }

    /// Hands in what is ready of a flow, until nothing is.
    fn replay(
        &mut self,
        endpoint: &mut Endpoint,
        now: u64,
        flow: &Flow,
        first: Received,
    ) -> Received
        ensures { Replays host_of Arrives now flow.now first result self.old endpoint.old self.new endpoint.new }
    {
        'replays: while let Some(held) = self.take(endpoint, now, flow) {
            let waited = held.waited_by(now);
            let got = endpoint.arrive(now, held.link, held.octets.as_slice(), waited);
            if let Received::NoMemory = got {
                return Received::NoMemory;
            }
        }
        first
    }

    /// The same for a service.
    fn replay_to_service(
        &mut self,
        service: &mut Service,
        now: u64,
        flow: &Flow,
        first: Received,
    ) -> Received
        ensures { Replays host_of_service service_calls.Arrives now flow.now first result self.old service.old self.new service.new }
    {
        'replays: while let Some(held) = self.take(service.endpoint(), now, flow) {
            let waited = held.waited_by(now);
            let got = service.arrive(now, held.link, held.octets.as_slice(), waited);
            if let Received::NoMemory = got {
                return Received::NoMemory;
            }
        }
        first
    }
}

/// What has no life left is gone.
fn drop_old(now: u64, held: &mut Vec<Held>)
    ensures { held.new.items ≡ filter (is_alive now) held.old.items }
{
    held.retain(|one| one.is_alive(now));
}

/// Whether a datagram is of this flow.
fn is_of_flow(held: &Held, flow: &Flow) -> bool
    ensures { result ≡ is_of_flow flow.now held.now }
{
    held.flow == *flow
}

/// How many are of a flow.
fn count_of(held: &[Held], flow: &Flow) -> usize
    ensures { result ≡ count_by (is_of_flow flow.now) held.now }
{
    held.iter().filter(|h| is_of_flow(h, flow)).count()
}

/// Whether data of this flow with this number are held.
fn has(held: &[Held], flow: &Flow, number: u32) -> bool
    ensures { result ≡ list_any (is_of flow.now number) held.now }
{
    held.iter().any(|h| is_of(h, flow, number))
}

/// Whether a datagram is of this flow and number.
fn is_of(held: &Held, flow: &Flow, number: u32) -> bool
    ensures { result ≡ is_of flow.now number held.now }
{
    held.flow == *flow && held.number == number
}

/// Whether a datagram of this flow is ready where this number is expected.
fn is_ready(held: &Held, expected: Option<u32>, now: u64, flow: &Flow) -> bool
    ensures { result ≡ is_ready expected now flow.now held.now }
{
    held.flow == *flow && !is_ahead(expected, held.number) && held.is_alive(now)
}
