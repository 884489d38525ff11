//! `Relay`, which admits packets, queues each on the link of its route, and lets it leave at the link's pace.
ghost use Rattle.std.specs.Prelude.{ℕ, ◌≡◌, ◌≢◌, ◌≤◌, ◌<◌, IfOk, IfSome, None, OnErr, OnOk, Some, false, if◌then◌else◌, is_some, length, map, nat_eq, option_map};
ghost use Rattle.std.specs.HashMap.{get};
ghost use Rattle.dt_layout.specs.Carried.{IsGram, life_of, to_of};
ghost use Rattle.dt_flow_model.specs.Keeping.{most_moment};
ghost use Rattle.dt_world_model.specs.Relay.{Parcel, admit, charge_of, empty_out, enter, leave, new_relay, on_link, relay_wake, route_to, with_outs};
ghost use Rattle.dt_relay.specs.Carrying.{IfOut, left_seen, parcel_seen};
ghost use Rattle.dt_relay.specs.Passages.{HasLife, Passes, passage_by};
ghost use Rattle.dt_relay.specs.Places.{link_in, link_of, place_of};
ghost use Rattle.dt_relay.specs.Ways.{StaysUnlessQueued, entered_by, way_to, with_route};

use crate::carrying::Carry;
use crate::first_places::{FirstPlaces, place_in, places_in};
use crate::passages::Passage;
use crate::queues::{Left, LinkQueue};
use dt_flow_model::Reading;
use dt_items::NoMemory;
use dt_layout::Frame;
use dt_units::earlier;
use dt_world_model::{Entered, InLink, OutLink, Route};
use std::alloc::Global;
use std::marker::Model;

/// A station's relay: a queue for each link on which packets leave, what a packet pays for each link
/// on which they come, and routes.
///
/// Moments are readings of the station's clock in milliseconds, at most 2^62, and lives, charges and
/// paces are milliseconds. The memory is taken by [`Relay::new`]. Beside it [`Relay::enter`] takes some
/// for a frame that is longer than was said then, or that waits on a link without a pace, and
/// [`Relay::add_route`] for a route.
#[derive(Drop)]
pub struct Relay<P: Carry> {
    outs: Vec<LinkQueue<P>>,
    ins: Vec<InLink>,
    routes: Vec<Route>,
    /// Where the first stands, by the link's number or by the node.
    out_places: FirstPlaces,
    in_places: FirstPlaces,
    route_places: FirstPlaces,
    /// For each out link, where the first stands that has its number.
    firsts: Vec<Option<usize>>,
}

impl<P: Carry> Model for Relay<P> {
    ghost use Rattle.dt_world_model.specs.Relay.{Relay as RelayValue};
    ghost use Rattle.dt_relay.specs.Places.{ArePlaces};

    ghost Value = { RelayValue P.Tag };

    ghost view = { λ r. record { outs = r.outs.items; ins = r.ins.items; routes = r.routes.items } };

    ghost invariant = { λ r. ArePlaces r.outs.items r.ins.items r.routes.items r.out_places r.in_places r.route_places r.firsts.items };
}

impl<P: Carry> Relay<P> {
    /// A relay on which nothing waits, and which nothing has left. For each out link with a pace it takes
    /// the room for 64 packets at once, of `longest` octets each; `NoMemory` where there is none. A link
    /// without a pace takes no such room: while moments don't go back, nothing waits on it.
    ///
    /// Links of a list differ, and so do the nodes of routes, and each route's link is among `outs`.
    /// Of entries that don't differ the first counts, and a route to a link that isn't there counts as
    /// none.
    pub fn new(
        alloc: Global,
        longest: usize,
        outs: &[OutLink],
        ins: &[InLink],
        routes: &[Route],
    ) -> Result<Relay<P>, NoMemory>
        ensures made { IfOk result (λ relay. relay ≡ new_relay outs.now ins.now routes.now) }
    {
        let out_places = places_in(alloc, outs)?;
        let firsts = firsts_of(alloc, outs, &out_places)?;
        Ok(Relay {
            outs: empty_queues(alloc, outs, longest)?,
            ins: Vec::from_slice(alloc, ins)?,
            routes: Vec::from_slice(alloc, routes)?,
            out_places,
            in_places: places_in(alloc, ins)?,
            route_places: places_in(alloc, routes)?,
            firsts,
        })
    }

    /// A packet came on an in link. None comes exactly where its life isn't above the link's charge: it
    /// is gone. Else it comes back with its life less by the charge. A link that isn't there charges
    /// nothing. The packet must read as a Deltagram.
    pub fn admit(&self, link: u16, packet: P) -> Option<P>
        requires { IsGram (P.octets packet) }
        ensures admitted { let parcel = parcel_seen P.octets P.label in
            option_map parcel result ≡ admit link (parcel packet) self.now }
        ensures gram { IfSome result (λ admitted. IsGram (P.octets admitted)) }
    {
        let charge = self.charge(link);
        if packet.life() <= charge {
            return None;
        }
        let mut admitted = packet;
        admitted.lower(charge);
        Some(admitted)
    }

    /// The same for a packet that stays where it is: its octets are in the frame, which must read as a
    /// Deltagram. It is false exactly where the packet isn't admitted, and then the frame is as it was.
    /// Else its life is less by the charge.
    pub fn admit_frame(&self, link: u16, frame: &mut Frame) -> bool
        requires { IsGram frame.old }
        ensures admitted { (tag : P.Tag) → admit link (record { octets = frame.old; tag = tag }) self.now ≡ (if result then Some (record { octets = frame.new; tag = tag }) else None) }
        ensures gram { IsGram frame.new }
        ensures stays { result ≡ false → frame.new ≡ frame.old }
    {
        let charge = self.charge(link);
        if Carry::life(frame) <= charge {
            return false;
        }
        frame.lower(charge);
        true
    }

    /// A packet, which must read as a Deltagram, is to wait from `now` on:
    ///
    /// - `NoRoute`: no route names its node, or the route's link isn't among the out links. The packet
    ///   is dropped, and nothing changes.
    /// - `Full`: 64 packets wait on the link that the route names. The packet is dropped, and nothing
    ///   changes.
    /// - `Queued`: it waits at the end of that link's queue.
    ///
    /// `NoMemory` where its frame is longer than [`Relay::new`] was told, or the link has no pace, and there
    /// is no room for it. It is dropped, and nothing changes.
    ///
    /// Its cost is that of two look-ups and of copying the frame's octets.
    pub fn enter(&mut self, packet: P, now: u64) -> Result<Entered, NoMemory>
        requires { IsGram (P.octets packet) }
        ensures answer { IfOk result (λ entered. entered ≡ (enter (parcel_seen P.octets P.label packet) now self.old).0) }
        ensures after { OnOk result (self.new ≡ (enter (parcel_seen P.octets P.label packet) now self.old).1) }
        ensures same { OnErr result (self.new ≡ self.old) }
        // Which answer comes, and where: each cause exactly.
        ensures cause { let to = to_of (P.octets packet) in IfOk result (λ entered. entered ≡ entered_by to (way_to to self.old)) }
        ensures stays { IfOk result (λ entered. StaysUnlessQueued entered self.old self.new) }
    {
        let to = packet.to();
        match self.route(to) {
            None => Ok(Entered::NoRoute { to }),
            Some(link) => match self.place(link) {
                None => Ok(Entered::NoRoute { to }),
                Some(i) => {
                    let queue = &mut self.outs[i];
                    queue.enter(packet, now)
                }
            },
        }
    }

    /// A packet to this node, with so many milliseconds of life, comes to its link at `now` and
    /// goes straight on if it can. No packet is moved: this is [`Relay::enter`] and
    /// then [`Relay::leave`] for any packet that tells this node and this life.
    ///
    /// - `NoRoute`, `Full`: as [`Relay::enter`] answers. Nothing changes.
    /// - `Waits`: others wait before it on its link, or a packet has left the link before and that was
    ///   less than `pace` ago. Nothing changes, and [`Relay::enter`] would let it wait.
    /// - `Expired`: it has no more than one millisecond to live. It is gone, and the last moment out stays.
    /// - `Leaves`: it is to be handed over, with its life less by one millisecond, and the last moment out
    ///   is `now`.
    ///
    /// Its cost is that of two look-ups.
    pub fn pass(&mut self, to: u32, life: u32, now: Reading) -> Passage
        ensures passes { (parcel : Parcel P.Tag) → to_of parcel.octets ≡ to → life_of parcel.octets ≡ life → Passes parcel now.ms result self.old self.new }
        // Which answer comes, and where: each cause exactly.
        ensures cause { result ≡ passage_by to life now.ms (way_to to self.old) }
        ensures life { HasLife life result }
        ensures others { self.new ≡ with_outs self.old self.new.outs }
    {
        match self.route(to) {
            None => Passage::NoRoute { to },
            Some(link) => match self.place(link) {
                None => Passage::NoRoute { to },
                Some(i) => {
                    let queue = &mut self.outs[i];
                    queue.pass(life, now)
                }
            },
        }
    }

    /// The first that waits on the link is taken at `now`, which is at most 2^62. One that waits since a
    /// later moment has waited no time.
    ///
    /// - None: nothing waits, or a packet has left the link before and that was less than `pace` ago.
    ///   Nothing changes. So it is for a link that isn't there.
    /// - `Expired`: its life isn't above its charge, which is the time that it waited and one
    ///   millisecond more. It is gone, and the last moment out stays.
    /// - `Out`: it is handed over with its life less by the charge, and the last moment out is `now`.
    pub fn leave(&mut self, link: u16, now: u64) -> Option<Left<P>>
        requires moment { now ≤ most_moment }
        ensures left { left_seen P.octets P.label result ≡ (on_link link None (leave now) self.old.outs).0 }
        ensures after { self.new ≡ with_outs self.old (on_link link None (leave now) self.old.outs).1 }
        ensures gram { IfOut result (λ packet. IsGram (P.octets packet)) }
    {
        match self.place(link) {
            None => None,
            Some(place) => self.leave_at(place, Reading { ms: now }),
        }
    }

    /// Whether a packet may leave at `now` on the out link at this place, counted from 0 in the order of
    /// `outs`: something waits there, and the link doesn't keep its pace. It looks no number up.
    pub fn is_ready(&self, place: usize, now: u64) -> bool
        requires { place < length self.now.outs }
        ensures { let link = link_in self.now.outs place in
            result ≡ is_some (on_link link None (leave now) self.now.outs).0 }
    {
        match self.first(place) {
            None => false,
            Some(i) => {
                let queue = &self.outs[i];
                queue.is_ready(now)
            }
        }
    }

    /// [`Relay::leave`] on the out link at this place, counted from 0 in the order of `outs`. It looks no
    /// number up.
    pub fn leave_at(&mut self, place: usize, now: Reading) -> Option<Left<P>>
        requires place { place < length self.old.outs }
        ensures left { let link = link_in self.old.outs place in
            left_seen P.octets P.label result ≡ (on_link link None (leave now.ms) self.old.outs).0 }
        ensures after { let link = link_in self.old.outs place in
            self.new ≡ with_outs self.old (on_link link None (leave now.ms) self.old.outs).1 }
        ensures gram { IfOut result (λ packet. IsGram (P.octets packet)) }
    {
        match self.first(place) {
            None => None,
            Some(i) => {
                let queue = &mut self.outs[i];
                queue.leave(now)
            }
        }
    }

    /// The least moment at which a link's `leave` isn't none, or none where nothing waits: for a link
    /// on which something waits `pace` after the last moment out, or 0 where nothing has left yet. It
    /// goes over the out links.
    pub fn wake(&self) -> Option<u64>
        ensures { result ≡ relay_wake self.now.outs }
    {
        let mut least = None;
        for queue in &self.outs {
            least = earlier(least, queue.wake());
        }
        least
    }

    /// How many out links there are.
    pub fn links(&self) -> usize
        ensures { result ≡ length self.now.outs }
    {
        self.outs.len()
    }

    /// The number of the out link at this place, counted from 0 in the order of `outs`.
    pub fn link_at(&self, place: usize) -> u16
        requires { place < length self.now.outs }
        ensures { result ≡ link_in self.now.outs place }
    {
        self.outs[place].link()
    }

    fn charge(&self, link: u16) -> u32
        ensures { result ≡ charge_of link self.now.ins }
    {
        match place_in(&self.in_places, u32::from(link)) {
            None => 0,
            Some(place) => self.ins[place].charge,
        }
    }

    /// Whether a route names the node. Its cost is that of a look-up.
    pub fn has_route(&self, to: u32) -> bool
        ensures { result ≡ is_some (route_to to self.now.routes) }
    {
        self.route(to).is_some()
    }

    /// From now on packets to the route's node go by its link. No route may name the node so far:
    /// [`Relay::has_route`]. Where the link isn't among the out links, the route leads nowhere.
    ///
    /// `NoMemory` where there is no room for one more, and then nothing has changed. What waits stays
    /// on its link after any answer. Its cost is that of a look-up, and now and then of moving the table.
    pub fn add_route(&mut self, route: Route) -> Result<(), NoMemory>
        requires fresh { route_to route.to self.old.routes ≡ None }
        ensures done { OnOk result (self.new ≡ with_route route self.old) }
        ensures same { OnErr result (self.new ≡ self.old) }
        ensures leads { OnOk result (route_to route.to self.new.routes ≡ Some route.link) }
        ensures others { (to : ℕ) → to ≢ route.to → route_to to self.new.routes ≡ route_to to self.old.routes }
        ensures outs { self.new.outs ≡ self.old.outs }
    {
        let place = self.routes.len();
        self.routes.reserve(1)?;
        self.route_places.insert(route.to, place)?;
        self.routes.push(route)?;
        Ok(())
    }

    fn route(&self, to: u32) -> Option<u16>
        ensures { result ≡ route_to to self.now.routes }
    {
        match place_in(&self.route_places, to) {
            None => None,
            Some(place) => Some(self.routes[place].link),
        }
    }

    /// The place of the first out link with the number of the one at this place.
    fn first(&self, place: usize) -> Option<usize>
        requires { place < length self.now.outs }
        ensures first { result ≡ place_of link_of (link_in self.now.outs place) self.now.outs }
        ensures within { IfSome result (λ i. i < length self.now.outs) }
    {
        let first = self.firsts[place];
        first
    }

    /// The place of an out link, counted from 0 in the order of `outs`: of the first that has this
    /// number, or none where none has it. Its cost is that of a look-up.
    pub fn place(&self, link: u16) -> Option<usize>
        ensures place { result ≡ place_of link_of link self.now.outs }
        ensures within { IfSome result (λ i. i < length self.now.outs) }
    {
        place_in(&self.out_places, u32::from(link))
    }
}

// A queue on which nothing waits for each out link.
fn empty_queues<P: Carry>(
    alloc: Global,
    outs: &[OutLink],
    longest: usize,
) -> Result<Vec<LinkQueue<P>>, NoMemory>
    ensures { IfOk result (λ queues. queues.items ≡ map (λ o. empty_out o.link o.pace) outs.now) }
{
    let mut queues = Vec::with_capacity(alloc, outs.len())?;
    for out in outs {
        queues.push(LinkQueue::new(alloc, out.link, out.pace, longest)?)?;
    }
    Ok(queues)
}

// For each out link the place of the first that has its number.
fn firsts_of(
    alloc: Global,
    outs: &[OutLink],
    places: &FirstPlaces,
) -> Result<Vec<Option<usize>>, NoMemory>
    ensures { IfOk result (λ firsts. firsts.items ≡ map (λ o. get nat_eq places.now o.link) outs.now) }
{
    let mut firsts = Vec::with_capacity(alloc, outs.len())?;
    for out in outs {
        firsts.push(place_in(places, u32::from(out.link)))?;
    }
    Ok(firsts)
}
