//! The calls, on what a handle of a service holds.
ghost use Rattle.std.specs.Prelude.{◌≡◌, IfOk, if◌then◌else◌};
ghost use Rattle.dt_c.specs.CStructs.{no_memory, stopped};
ghost use Rattle.dt_c.specs.Serving.{CallCounting, Calling, Forgetting, GetsKind, HandsFrame, NextEvent, Porting, Raises, Raising, Replying, ServesBehind, ServiceAddingRoute, ServiceArriving, ServiceCounting, ServiceGuarding, ServiceKeptOut, ServiceNextFrame, ServiceOpening, ServiceOpens, ServiceShelving, ServiceTicking, ServiceWaking, Stopping, empty_service, is_service_fit, service_started};
ghost use Rattle.dt_c.specs.ServiceStructs.{kind_of};

use crate::c_structs::{
    BLOCKED, BUFFER_TOO_SMALL, BlockedCounts, CFlow, CParams, CRoute, DATAGRAM_SIZE, Datagram,
    EXISTS, INVALID, NO_MEMORY, NODE_COUNTS_SIZE, NONE, NOT_OPEN, NodeCounts, NodeOptions, OK,
    OpenResult, Opened, ReceiveResult, STOPPED, blocked_counts, fill_datagram, fill_node_counts,
    has_room, open_result, receive_result, received_as, routed_status, ticked_status, wake_time,
};
use crate::call_users::{CallUsers, keep_user};
use crate::calls::{set_guard, set_shelf};
use crate::service_events::take_event;
use crate::service_slots::ServiceSlot;
use crate::service_structs::{
    CALL_COUNTS_SIZE, CCallCounts, CToken, CallResult, EVENT_SIZE, Event, ReplyResult,
    SERVICE_OPTIONS_SIZE, ServiceOptions, call_result, called_as, fill_call_counts, forgot_status,
    kind_of, replied_as, reply_result,
};
use dt_early::{Arrival, EarlyShelf};
use dt_endpoint::{Admission, Guard, Links, Received};
use dt_items::NoMemory;
use dt_service::Service;
use dt_service_model::PortKind;
use dt_units::Rules;
use std::alloc::Global;

pub fn empty_service_slot() -> ServiceSlot
    ensures { result ≡ empty_service }
{
    ServiceSlot {
        service: None,
        guard: Guard::new(),
        shelf: None,
        users: CallUsers::new(),
    }
}

impl ServiceSlot {
    pub(crate) fn close(&mut self)
        ensures { self.new ≡ empty_service }
    {
        *self = empty_service_slot();
    }

    pub(crate) fn open(
        &mut self,
        alloc: Global,
        params: &CParams,
        options: &NodeOptions<'_>,
        service_options: &ServiceOptions,
    ) -> OpenResult
        ensures { ServiceOpening result params.now options.now service_options.now self.old self.new }
    {
        open_result(opens_service(self, alloc, params, options, service_options))
    }

    pub(crate) fn set_port(&mut self, port: u16, kind: u8) -> u8
        ensures { Porting result port kind self.old self.new }
    {
        match &mut self.service {
            Some(service) => give_kind(service, port, kind_of(kind)),
            None => NOT_OPEN,
        }
    }

    pub(crate) fn call(
        &mut self,
        now: u64,
        flow: &CFlow,
        payload: &[u8],
        patience: u32,
        user: u64,
    ) -> CallResult
        ensures { Calling result now flow.now payload.now patience user self.old self.new }
    {
        let Some(service) = &mut self.service else {
            return called_as(NOT_OPEN);
        };
        let Ok(()) = self.users.hold(service.allocator()) else {
            return called_as(no_room_status(service.is_closed()));
        };
        let next = service.next_call();
        let made = service.call(now, flow.flow(), payload, patience);
        keep_user(&mut self.users, &made, next, user);
        call_result(made)
    }

    pub(crate) fn reply(&mut self, now: u64, token: &CToken, payload: &[u8]) -> ReplyResult
        ensures { Replying result now token.now payload.now self.old self.new }
    {
        match &mut self.service {
            Some(service) => reply_result(service.reply(now, token.token(), payload)),
            None => replied_as(NOT_OPEN),
        }
    }

    pub(crate) fn forget(&mut self, now: u64, token: &CToken) -> u8
        ensures { Forgetting result now token.now self.old self.new }
    {
        match &mut self.service {
            Some(service) => forgot_status(service.forget(now, &token.token())),
            None => NOT_OPEN,
        }
    }

    pub(crate) fn tick(&mut self, now: u64) -> u8
        ensures { ServiceTicking result now self.old self.new }
    {
        match &mut self.service {
            Some(service) => ticked_status(service.tick(now)),
            None => NOT_OPEN,
        }
    }

    pub(crate) fn receive(
        &mut self,
        now: u64,
        link: u16,
        datagram: &[u8],
        waited: u32,
    ) -> ReceiveResult
        ensures { ServiceArriving result now link datagram.now waited self.old self.new }
    {
        let Some(service) = &mut self.service else {
            return received_as(NOT_OPEN);
        };
        match self.guard.admits(service.endpoint(), datagram) {
            Admission::Admitted => {
                let arrival = Arrival {
                    now,
                    link,
                    datagram,
                    waited,
                };
                receive_result(serve(service, &mut self.shelf, arrival))
            }
            Admission::ClosedPort | Admission::TooManyFlows => received_as(BLOCKED),
        }
    }

    pub(crate) fn next_event(&mut self, buf: &mut [u8], out: &mut Event) -> u8
        ensures { NextEvent result buf.old buf.new out.old out.new self.old self.new }
    {
        if !has_room(out.size, EVENT_SIZE) {
            return INVALID;
        }
        match &mut self.service {
            Some(service) => take_event(service, &mut self.users, buf, out),
            None => NOT_OPEN,
        }
    }

    pub(crate) fn set_life(&mut self, life: u32) -> u8
        ensures { Raising result life self.old self.new }
    {
        match &mut self.service {
            Some(service) => raise_life(service, life),
            None => NOT_OPEN,
        }
    }

    pub(crate) fn stop(&mut self) -> u8
        ensures { Stopping result self.old self.new }
    {
        match &mut self.service {
            Some(service) => {
                service.close();
                OK
            }
            None => NOT_OPEN,
        }
    }

    pub(crate) fn next_datagram(&mut self, buf: &mut [u8], out: &mut Datagram) -> u8
        ensures { ServiceNextFrame result buf.old buf.new out.old out.new self.old self.new }
    {
        if !has_room(out.size, DATAGRAM_SIZE) {
            return INVALID;
        }
        match &mut self.service {
            Some(service) => hand_frame(service, buf, out),
            None => NOT_OPEN,
        }
    }

    pub(crate) fn wake(&mut self) -> u64
        ensures { ServiceWaking result self.old self.new }
    {
        match &self.service {
            Some(service) => wake_time(service.wake()),
            None => wake_time(None),
        }
    }

    pub(crate) fn add_route(&mut self, route: &CRoute) -> u8
        ensures { ServiceAddingRoute result route.now self.old self.new }
    {
        match &mut self.service {
            Some(service) => routed_status(service.add_route(route.route())),
            None => NOT_OPEN,
        }
    }

    pub(crate) fn set_guard(&mut self, alloc: Global, ports: &[u16], all: bool, most: u32) -> u8
        ensures { ServiceGuarding result ports.now all most self.old self.new }
    {
        match &self.service {
            Some(_) => set_guard(&mut self.guard, alloc, ports, all, most),
            None => NOT_OPEN,
        }
    }

    pub(crate) fn set_shelf(&mut self, alloc: Global, most: u32, of_flow: u32) -> u8
        ensures { ServiceShelving result most of_flow self.old self.new }
    {
        match &self.service {
            Some(_) => {
                set_shelf(&mut self.shelf, alloc, most, of_flow);
                OK
            }
            None => NOT_OPEN,
        }
    }

    pub(crate) fn get_blocked_counts(&mut self) -> BlockedCounts
        ensures { ServiceKeptOut result self.old self.new }
    {
        blocked_counts(&self.guard)
    }

    pub(crate) fn get_counts(&mut self, out: &mut NodeCounts) -> u8
        ensures { ServiceCounting result out.old out.new self.old self.new }
    {
        if !has_room(out.size, NODE_COUNTS_SIZE) {
            return INVALID;
        }
        let Some(service) = &self.service else {
            return NOT_OPEN;
        };
        fill_node_counts(out, service.endpoint().counts());
        OK
    }

    pub(crate) fn get_call_counts(&mut self, out: &mut CCallCounts) -> u8
        ensures { CallCounting result out.old out.new self.old self.new }
    {
        if !has_room(out.size, CALL_COUNTS_SIZE) {
            return INVALID;
        }
        let Some(service) = &self.service else {
            return NOT_OPEN;
        };
        fill_call_counts(out, service.counts());
        OK
    }
}

/// A datagram comes to a service, which has a shelf or none.
fn serve(service: &mut Service, shelf: &mut Option<EarlyShelf>, arrival: Arrival<'_>) -> Received
    ensures { let a = arrival.entry in ServesBehind result a.now a.link a.datagram.now a.waited shelf.old service.old shelf.new service.new }
{
    match shelf {
        Some(shelf) => shelf.serve(service, arrival),
        None => service.arrive(arrival.now, arrival.link, arrival.datagram, arrival.waited),
    }
}

fn new_service(
    alloc: Global,
    rules: &Rules,
    options: &NodeOptions<'_>,
    service_options: &ServiceOptions,
) -> Result<Service, NoMemory>
    ensures { IfOk result (λ s. s ≡ service_started rules.now options.now service_options.now) }
{
    let wires = options.wires(alloc)?;
    let links = Links {
        outs: &wires.outs,
        ins: &wires.ins,
        routes: &wires.routes,
    };
    Service::open(alloc, rules, &service_options.start(options), &links)
}

/// Whether all options have the size and the values that are known here.
fn is_service_fit(
    params: &CParams,
    options: &NodeOptions<'_>,
    service_options: &ServiceOptions,
) -> bool
    ensures { result ≡ is_service_fit params.now options.now service_options.now }
{
    options.is_fit(params) && service_options.size == SERVICE_OPTIONS_SIZE
}

fn opens_service(
    slot: &mut ServiceSlot,
    alloc: Global,
    params: &CParams,
    options: &NodeOptions<'_>,
    service_options: &ServiceOptions,
) -> Opened
    ensures { ServiceOpens result params.now options.now service_options.now slot.old slot.new }
{
    if !is_service_fit(params, options, service_options) {
        return Opened::Unfit;
    }
    let rules = match params.rules(slot.service.is_some()) {
        Ok(rules) => rules,
        Err(answer) => return answer,
    };
    let Ok(service) = new_service(alloc, &rules, options, service_options) else {
        return Opened::NoMemory;
    };
    slot.service = Some(service);
    slot.users = CallUsers::new();
    Opened::Done
}

/// The status of a call where there is no memory for what it is given.
fn no_room_status(is_closed: bool) -> u8
    ensures { result ≡ (if is_closed then stopped else no_memory) }
{
    if is_closed { STOPPED } else { NO_MEMORY }
}

fn give_kind(service: &mut Service, port: u16, kind: Option<PortKind>) -> u8
    ensures { GetsKind result port kind service.old service.new }
{
    let Some(kind) = kind else {
        return INVALID;
    };
    match service.port(port, kind) {
        Ok(true) => OK,
        Ok(false) => EXISTS,
        Err(NoMemory) => NO_MEMORY,
    }
}

fn raise_life(service: &mut Service, life: u32) -> u8
    ensures { Raises result life service.old service.new }
{
    if service.raise(life) { OK } else { EXISTS }
}

/// The first frame that waits goes out, where the buffer has room for it.
fn hand_frame(service: &mut Service, buf: &mut [u8], out: &mut Datagram) -> u8
    ensures { HandsFrame result buf.old buf.new out.old out.new service.old service.new }
{
    let Some(frame) = service.endpoint().first_frame() else {
        return NONE;
    };
    fill_datagram(out, frame);
    let octets = frame.octets();
    let len = octets.len();
    if len > buf.len() {
        return BUFFER_TOO_SMALL;
    }
    buf[..len].copy_from_slice(octets);
    let _ = service.next_frame();
    OK
}
