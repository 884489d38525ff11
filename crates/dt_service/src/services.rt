//! `Service`, a node that makes calls and serves requests over an endpoint, and the values to open it with.
ghost use Rattle.std.specs.Prelude.{◌≡◌, ◌++◌, ◌<◌, ◌≤◌, ◌^◌, IfOk, MatchOption, OnErr, OnOk, drop, not, option_map, option_to_list, is_some};
ghost use Rattle.dt_endpoint.specs.Calls.{AddsRoute};
ghost use Rattle.dt_endpoint.specs.Endpoints.{opened, with_followed};
ghost use Rattle.dt_service_model.specs.Asked.{is_closed, is_life_in_use, next_number, raised, with_kind};
ghost use Rattle.dt_service_model.specs.Carrying.{next_size};
ghost use Rattle.dt_service_model.specs.Ends.{close, next};
ghost use Rattle.dt_service_model.specs.CallBook.{kind_in, new_book};
ghost use Rattle.dt_service_model.specs.Turns.{wake, with_book};
ghost use Rattle.dt_service.specs.Calls.{Arrives, Calls, Forgets, Replies, Ticks};

use crate::reading::ROOM;
use crate::service_parts::ServiceParts;
use dt_call_book::CallBook;
use dt_endpoint::{Endpoint, Links, OutFrame, Received, Route, Routed, Ticked};
use dt_items::NoMemory;
use dt_service_model::{
    CallCounts, CallNumber, Forgot, Happening, Made, Most, PortKind, Replied, Token,
};
use dt_units::{Flow, NodeId, Rules, earlier};
use std::alloc::Global;
use std::marker::Model;

/// How a service opens.
#[derive(Clone, Copy)]
pub struct ServiceStart {
    pub me: NodeId,
    /// The moment in milliseconds at which the node starts again, or none where it starts for the first
    /// time.
    pub again: Option<u64>,
    /// A number that no opening of this node, and no raise, ever had.
    pub life: u32,
    pub most: Most,
}

/// A node that calls and serves: an endpoint, and what it keeps beside it of its calls and of the requests
/// that it was handed.
///
/// Each call that is a turn is an event of the endpoint, or none, and then its end: what is unread is read,
/// replies and requests are reported, and calls are judged. Moments and frames are as the endpoint has them.
/// What happens waits until [`Service::next`] takes it.
///
/// After a call that found no memory the node is closed: no turn is done any more. What was reported can be
/// taken, and after it that each call that waited is unsure.
#[derive(Drop)]
pub struct Service {
    parts: ServiceParts,
}

impl Model for Service {
    ghost use Rattle.dt_service_model.specs.Turns.{Node};
    ghost use Rattle.dt_service.specs.Nodes.{node_in};

    ghost Value = { Node };

    ghost view = { λ s. node_in s.parts };
}

impl Service {
    /// The service of a node that starts, as [`Endpoint::open`] has it. No port has a kind. `NoMemory` is
    /// the only error.
    pub fn open(
        alloc: Global,
        rules: &Rules,
        start: &ServiceStart,
        links: &Links<'_>,
    ) -> Result<Service, NoMemory>
        ensures { IfOk result (λ s. s ≡ record {
          endpoint = opened rules.now start.now.me.0 start.now.again links.now.outs.now links.now.ins.now links.now.routes.now;
          book = new_book start.now.most start.now.life;
        }) }
    {
        let room = Box::new(alloc, [0; ROOM])?;
        let endpoint = Endpoint::open(alloc, rules, start.me, start.again, links)?;
        let parts = ServiceParts {
            alloc,
            endpoint,
            book: CallBook::new(alloc, start.most, start.life)?,
            message: Vec::new(alloc),
            room,
        };
        Ok(Service { parts })
    }

    /// A port gets its kind, and whether it had none so far: it has its kind for good. A port without one
    /// is plain, and what comes to it isn't read. `NoMemory` leaves all as it was.
    pub fn port(&mut self, port: u16, kind: PortKind) -> Result<bool, NoMemory>
        ensures given { OnOk result (self.new ≡ with_book (with_kind port kind) self.old) }
        ensures answer { IfOk result (λ given. given ≡ not (is_some (kind_in port self.old.book.ports))) }
        ensures same { OnErr result (self.new ≡ self.old) }
    {
        self.parts.book.set_kind(port, kind)
    }

    /// A call on a flow from a caller of this node to another node, at `now`: its request goes at once, and
    /// its end comes by [`Service::next`], at the latest at the first turn at or after `now` and so many
    /// milliseconds of patience. The cost is that of the turn, and a look at each call that waits.
    pub fn call(&mut self, now: u64, flow: Flow, payload: &[u8], patience: u32) -> Made
        ensures { Calls result now flow payload.now patience self.old self.new }
    {
        match self.parts.call(now, flow, payload, patience) {
            Ok(made) => made,
            Err(NoMemory) => {
                self.parts.book.close();
                Made::NoMemory
            }
        }
    }

    /// The number that the next call has if it is made, or none where each number of this life was used: a
    /// life is to be raised then.
    pub fn next_call(&self) -> Option<CallNumber>
        ensures { MatchOption result (2 ^ 32 ≤ self.now.book.count) (λ number. (self.now.book.count < 2 ^ 32) × (number ≡ next_number self.now.book)) }
    {
        self.parts.book.next_number()
    }

    /// The reply to a request that was handed out. Its token is open no more where it is done.
    pub fn reply(&mut self, now: u64, token: Token, payload: &[u8]) -> Replied
        ensures { Replies result now token payload.now self.old self.new }
    {
        match self.parts.reply(now, token, payload) {
            Ok(replied) => replied,
            Err(NoMemory) => {
                self.parts.book.close();
                Replied::NoMemory
            }
        }
    }

    /// A request won't be replied to: its place is free.
    pub fn forget(&mut self, now: u64, token: &Token) -> Forgot
        ensures { Forgets result now token.now self.old self.new }
    {
        match self.parts.forget(now, token) {
            Ok(forgot) => forgot,
            Err(NoMemory) => {
                self.parts.book.close();
                Forgot::NoMemory
            }
        }
    }

    /// A datagram came on a link, as [`Endpoint::arrive`] has it. A guard is asked before, over
    /// [`Service::endpoint`].
    pub fn arrive(&mut self, now: u64, link: u16, datagram: &[u8], waited: u32) -> Received
        ensures { Arrives result now link datagram.now waited self.old self.new }
    {
        match self.parts.arrive(now, link, datagram, waited) {
            Ok(arrived) => arrived,
            Err(NoMemory) => {
                self.parts.book.close();
                Received::NoMemory
            }
        }
    }

    /// What is due at `now` is done, and calls whose patience is over end.
    pub fn tick(&mut self, now: u64) -> Ticked
        ensures { Ticks result now self.old self.new }
    {
        match self.parts.tick(now) {
            Ok(ticked) => ticked,
            Err(NoMemory) => {
                self.parts.book.close();
                Ticked::NoMemory
            }
        }
    }

    /// What was reported first of all that wasn't taken: a request, or how a call ended. It is taken with this.
    /// It is no turn. Once all is taken, a closed node hands out that each call that waited is unsure.
    pub fn next(&mut self) -> Option<Happening>
        ensures first { result ≡ (next self.old.book).0 }
        ensures others { self.new ≡ record self.old { book = (next self.old.book).1 } }
    {
        self.parts.book.next_happening()
    }

    /// How many octets what [`Service::next`] would take carries, or none where it would take nothing.
    pub fn next_size(&self) -> Option<usize>
        ensures { result ≡ next_size self.now.book }
    {
        self.parts.book.next_size()
    }

    /// From now on calls have numbers of this life, and whether they do: nothing changes where it is the
    /// life of the node, or of a call that waits.
    pub fn raise(&mut self, life: u32) -> bool
        ensures raised { self.new ≡ with_book (raised life) self.old }
        ensures answer { result ≡ not (is_life_in_use life self.old.book) }
    {
        self.parts.book.raise(life)
    }

    /// How many messages were dropped, by cause.
    pub fn counts(&self) -> CallCounts
        ensures { result ≡ self.now.book.counts }
    {
        self.parts.book.counts()
    }

    /// The least moment in milliseconds at which something is due or the patience of a call is over, or
    /// none: the moment of the next tick. A closed node has none. The cost is a look at each call.
    pub fn wake(&self) -> Option<u64>
        ensures { result ≡ wake self.now }
    {
        if self.parts.book.is_closed() {
            return None;
        }
        earlier(self.parts.endpoint.wake(), self.parts.book.deadline())
    }

    /// The node closes: each call that waits is unsure, and what else isn't reported is forgotten. It takes no
    /// memory.
    pub fn close(&mut self)
        ensures { self.new ≡ with_book close self.old }
    {
        self.parts.book.close();
    }

    /// Whether the node was closed, or found no memory.
    pub fn is_closed(&self) -> bool
        ensures { result ≡ is_closed self.now }
    {
        self.parts.is_closed()
    }

    /// The frame that left first of those that wait. It waits no more.
    pub fn next_frame(&mut self) -> Option<OutFrame>
        ensures first { self.old.endpoint.frames ≡ option_to_list result ++ self.new.endpoint.frames }
        ensures others { self.new ≡ record self.old { endpoint = record self.old.endpoint { frames = drop 1 self.old.endpoint.frames } } }
    {
        self.parts.endpoint.next_frame()
    }

    /// A route more, as [`Endpoint::add_route`] has it.
    pub fn add_route(&mut self, route: Route) -> Routed
        ensures added { AddsRoute result route self.old.endpoint self.new.endpoint }
        ensures same { self.new.book ≡ self.old.book }
    {
        self.parts.endpoint.add_route(route)
    }

    /// The octets of a flow are counted from now on, as [`Endpoint::follow`] has it.
    pub fn follow(&mut self, flow: &Flow) -> Result<(), NoMemory>
        ensures done { OnOk result (self.new ≡ record self.old { endpoint = with_followed flow.now self.old.endpoint }) }
        ensures same { OnErr result (self.new ≡ self.old) }
    {
        self.parts.endpoint.follow(flow)
    }

    /// What its memory is taken of.
    pub fn allocator(&self) -> Global {
        self.parts.alloc
    }

    /// The endpoint, to look at: its counts, its frames, and what a guard asks.
    pub fn endpoint(&self) -> &Endpoint
        ensures { result.now ≡ self.now.endpoint }
    {
        &self.parts.endpoint
    }
}
