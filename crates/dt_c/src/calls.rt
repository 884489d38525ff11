//! The calls, on what a handle holds.
ghost use Rattle.std.specs.Prelude.{◌≡◌, IfErr, IfOk, Some, false, length, map};
ghost use Rattle.dt_units.specs.Limits.{IsWithinLimits};
ghost use Rattle.dt_c.specs.Calls.{AddingRoute, ArrivesBehind, Arriving, Counting, FingerprintIs, Following, Guarding, HandsOut, Hearing, KeptOut, MakesInbox, NextFrame, NextReport, Opening, Opens, QuietIs, Reading, Sending, Shelving, shelf_set, TakesReport, Taking, Ticking, Totalling, Waking, IsSet, chosen, RulesOf, StandsInTheWay};
ghost use Rattle.dt_c.specs.Handle.{empty};
ghost use Rattle.dt_c.specs.CStructs.{in_link, out_link, params_of, route, started};

use crate::c_structs::{
    BLOCKED, BUFFER_TOO_SMALL, BlockedCounts, CFlow, CLink, CParams, CReport, CRoute,
    DATAGRAM_SIZE, Datagram, EXISTS, FLOW_COUNTS_SIZE, FlowCounts, INVALID, MESSAGE_SIZE, Message,
    NO_MEMORY, NODE_COUNTS_SIZE, NONE, NOT_OPEN, NodeCounts, NodeOptions, OK, OpenResult, Opened,
    PARAMS_SIZE, REPORT_SIZE, ReadResult, ReceiveResult, SendResult, blocked_counts, fill_datagram,
    fill_flow_counts, fill_message, fill_node_counts, fill_report, has_room, message_status,
    no_piece, open_result, read_result, receive_result, received_as, routed_status, send_result,
    sent_as, ticked_status, wake_time,
};
use crate::slots::Slot;
use dt_early::{Arrival, EarlyShelf};
use dt_endpoint::{Admission, Endpoint, Guard, InLink, Links, OutLink, Received, Route};
use dt_fingerprint::fingerprint;
use dt_inbox::Mailbox;
use dt_items::NoMemory;
use dt_units::{NodeId, Rules};
use std::alloc::Global;

pub fn empty_slot() -> Slot
    ensures { result ≡ empty }
{
    Slot {
        endpoint: None,
        guard: Guard::new(),
        shelf: None,
        mailbox: None,
    }
}

impl Slot {
    pub(crate) fn close(&mut self)
        ensures { self.new ≡ empty }
    {
        *self = empty_slot();
    }

    pub(crate) fn tick(&mut self, now: u64) -> u8
        ensures { Ticking result now self.old self.new }
    {
        match &mut self.endpoint {
            Some(endpoint) => ticked_status(endpoint.tick(now)),
            None => NOT_OPEN,
        }
    }

    pub(crate) fn receive(
        &mut self,
        now: u64,
        link: u16,
        datagram: &[u8],
        waited: u32,
    ) -> ReceiveResult
        ensures { Arriving result now link datagram.now waited self.old self.new }
    {
        let Some(endpoint) = &mut self.endpoint else {
            return received_as(NOT_OPEN);
        };
        match self.guard.admits(endpoint, datagram) {
            Admission::Admitted => {
                let arrival = Arrival {
                    now,
                    link,
                    datagram,
                    waited,
                };
                receive_result(arrive(endpoint, &mut self.shelf, arrival))
            }
            Admission::ClosedPort | Admission::TooManyFlows => received_as(BLOCKED),
        }
    }

    pub(crate) fn set_guard(&mut self, alloc: Global, ports: &[u16], all: bool, most: u32) -> u8
        ensures { Guarding result ports.now all most self.old self.new }
    {
        match &self.endpoint {
            Some(_) => set_guard(&mut self.guard, alloc, ports, all, most),
            None => NOT_OPEN,
        }
    }

    pub(crate) fn set_shelf(&mut self, alloc: Global, most: u32, of_flow: u32) -> u8
        ensures { Shelving result most of_flow self.old self.new }
    {
        match &self.endpoint {
            Some(_) => {
                set_shelf(&mut self.shelf, alloc, most, of_flow);
                OK
            }
            None => NOT_OPEN,
        }
    }

    pub(crate) fn get_blocked_counts(&mut self) -> BlockedCounts
        ensures { KeptOut result self.old self.new }
    {
        blocked_counts(&self.guard)
    }

    pub(crate) fn get_counts(&mut self, out: &mut NodeCounts) -> u8
        ensures { Counting result out.old out.new self.old self.new }
    {
        if !has_room(out.size, NODE_COUNTS_SIZE) {
            return INVALID;
        }
        let Some(endpoint) = &self.endpoint else {
            return NOT_OPEN;
        };
        fill_node_counts(out, endpoint.counts());
        OK
    }

    pub(crate) fn count_flow(&mut self, flow: &CFlow) -> u8
        ensures { Following result flow.now self.old self.new }
    {
        let Some(endpoint) = &mut self.endpoint else {
            return NOT_OPEN;
        };
        match endpoint.follow(&flow.flow()) {
            Ok(()) => OK,
            Err(NoMemory) => NO_MEMORY,
        }
    }

    pub(crate) fn get_flow_counts(&mut self, flow: &CFlow, out: &mut FlowCounts) -> u8
        ensures { Totalling result flow.now out.old out.new self.old self.new }
    {
        if !has_room(out.size, FLOW_COUNTS_SIZE) {
            return INVALID;
        }
        let Some(endpoint) = &self.endpoint else {
            return NOT_OPEN;
        };
        let Some(octets) = endpoint.totals(&flow.flow()) else {
            return NONE;
        };
        fill_flow_counts(out, octets);
        OK
    }

    pub(crate) fn add_route(&mut self, route: &CRoute) -> u8
        ensures { AddingRoute result route.now self.old self.new }
    {
        match &mut self.endpoint {
            Some(endpoint) => routed_status(endpoint.add_route(route.route())),
            None => NOT_OPEN,
        }
    }

    pub(crate) fn send(
        &mut self,
        now: u64,
        flow: &CFlow,
        octets: &[u8],
        begin: bool,
        end: bool,
    ) -> SendResult
        ensures { Sending result now flow.now octets.now begin end self.old self.new }
    {
        match &mut self.endpoint {
            Some(endpoint) => send_result(endpoint.send(now, flow.flow(), octets, begin, end)),
            None => sent_as(NOT_OPEN),
        }
    }

    pub(crate) fn read(&mut self, now: u64, flow: &CFlow, buf: &mut [u8]) -> ReadResult
        ensures { Reading result now flow.now (length buf.old) buf.new self.old self.new }
    {
        match &mut self.endpoint {
            Some(endpoint) => read_result(endpoint.read(now, flow.flow(), buf)),
            None => no_piece(NOT_OPEN),
        }
    }

    pub(crate) fn enable_messages(&mut self, alloc: Global, longest: usize) -> u8
        ensures { MakesInbox result longest self.old self.new }
    {
        let Some(_) = &self.endpoint else {
            return NOT_OPEN;
        };
        if self.mailbox.is_some() {
            return EXISTS;
        }
        self.mailbox = Some(Mailbox::new(alloc, Some(longest)));
        OK
    }

    pub(crate) fn mark_readable(&mut self, flow: &CFlow) -> u8
        ensures { Hearing result flow.now self.old self.new }
    {
        let Some(mailbox) = &mut self.mailbox else {
            return NOT_OPEN;
        };
        match mailbox.hear(flow.flow()) {
            Ok(()) => OK,
            Err(NoMemory) => NO_MEMORY,
        }
    }

    pub(crate) fn next_message(
        &mut self,
        alloc: Global,
        now: u64,
        buf: &mut [u8],
        out: &mut Message,
    ) -> u8
        ensures { Taking result now buf.old buf.new out.old out.new self.old self.new }
    {
        if !has_room(out.size, MESSAGE_SIZE) {
            return INVALID;
        }
        let Some(endpoint) = &mut self.endpoint else {
            return NOT_OPEN;
        };
        let Some(mailbox) = &mut self.mailbox else {
            return NOT_OPEN;
        };
        let answer = mailbox.take(alloc, endpoint, now, buf);
        fill_message(out, answer, mailbox.dropped());
        message_status(answer)
    }

    pub(crate) fn next_datagram(&mut self, buf: &mut [u8], out: &mut Datagram) -> u8
        ensures { NextFrame result buf.old buf.new out.old out.new self.old self.new }
    {
        if !has_room(out.size, DATAGRAM_SIZE) {
            return INVALID;
        }
        match &mut self.endpoint {
            Some(endpoint) => hand_out(endpoint, buf, out),
            None => NOT_OPEN,
        }
    }

    pub(crate) fn next_report(&mut self, out: &mut CReport) -> u8
        ensures { NextReport result out.old out.new self.old self.new }
    {
        if !has_room(out.size, REPORT_SIZE) {
            return INVALID;
        }
        match &mut self.endpoint {
            Some(endpoint) => take_report(endpoint, out),
            None => NOT_OPEN,
        }
    }

    pub(crate) fn wake(&mut self) -> u64
        ensures { Waking result self.old self.new }
    {
        match &self.endpoint {
            Some(endpoint) => wake_time(endpoint.wake()),
            None => wake_time(None),
        }
    }

    pub(crate) fn open(
        &mut self,
        alloc: Global,
        params: &CParams,
        options: &NodeOptions<'_>,
    ) -> OpenResult
        ensures { Opening result params.now options.now self.old self.new }
    {
        open_result(opens(self, alloc, params, options))
    }
}

/// From now on these ports are open, or all, and so many flows may have a receiver.
pub fn set_guard(guard: &mut Guard, alloc: Global, ports: &[u16], all: bool, most: u32) -> u8
    ensures { IsSet result (chosen all ports.now) most guard.old guard.new }
{
    let ports = if all { None } else { Some(ports) };
    match guard.limit(alloc, ports, most) {
        Ok(()) => OK,
        Err(NoMemory) => NO_MEMORY,
    }
}

/// From now on so many datagrams that came too early are held at most, and so many of one flow.
pub fn set_shelf(shelf: &mut Option<EarlyShelf>, alloc: Global, most: u32, of_flow: u32)
    ensures { shelf.new ≡ Some (shelf_set most of_flow shelf.old) }
{
    let mut limited = match shelf.take() {
        Some(shelf) => shelf,
        None => EarlyShelf::new(alloc),
    };
    limited.limit(most, of_flow);
    *shelf = Some(limited);
}

/// A datagram comes to an endpoint, which has a shelf or none.
fn arrive(endpoint: &mut Endpoint, shelf: &mut Option<EarlyShelf>, arrival: Arrival<'_>) -> Received
    ensures { let a = arrival.entry in ArrivesBehind result a.now a.link a.datagram.now a.waited shelf.old endpoint.old shelf.new endpoint.new }
{
    match shelf {
        Some(shelf) => shelf.arrive(endpoint, arrival),
        None => endpoint.arrive(arrival.now, arrival.link, arrival.datagram, arrival.waited),
    }
}

/// The first frame that waits goes out, where the buffer has room for it.
fn hand_out(endpoint: &mut Endpoint, buf: &mut [u8], out: &mut Datagram) -> u8
    ensures { HandsOut result buf.old buf.new out.old out.new endpoint.old endpoint.new }
{
    let Some(frame) = endpoint.first_frame() else {
        return NONE;
    };
    fill_datagram(out, frame);
    let octets = frame.octets();
    let len = octets.len();
    if len > buf.len() {
        return BUFFER_TOO_SMALL;
    }
    buf[..len].copy_from_slice(octets);
    let _ = endpoint.next_frame();
    OK
}

/// The first report that waits goes out.
fn take_report(endpoint: &mut Endpoint, out: &mut CReport) -> u8
    ensures { TakesReport result out.old out.new endpoint.old endpoint.new }
{
    match endpoint.next_report() {
        Some(report) => {
            fill_report(out, &report);
            OK
        }
        None => NONE,
    }
}

/// The links on which packets leave.
fn outs_of(alloc: Global, links: &[CLink]) -> Result<Vec<OutLink>, NoMemory>
    ensures { IfOk result (λ v. v.items ≡ map out_link links.now) }
{
    Ok(
        links
            .iter()
            .map(|link| OutLink {
                link: link.number,
                pace: link.pace,
            })
            .collect(alloc)?,
    )
}

/// The links on which packets come.
fn ins_of(alloc: Global, links: &[CLink]) -> Result<Vec<InLink>, NoMemory>
    ensures { IfOk result (λ v. v.items ≡ map in_link links.now) }
{
    Ok(
        links
            .iter()
            .map(|link| InLink {
                link: link.number,
                charge: link.charge,
            })
            .collect(alloc)?,
    )
}

fn routes_of(alloc: Global, routes: &[CRoute]) -> Result<Vec<Route>, NoMemory>
    ensures { IfOk result (λ v. v.items ≡ map route routes.now) }
{
    Ok(routes.iter().map(|route| route.route()).collect(alloc)?)
}

impl CParams {
    /// The parameters within their limits, unless the handle is open already.
    pub fn rules(&self, held: bool) -> Result<Rules, Opened>
        ensures within { IfOk result (λ rules. (held ≡ false) × (rules ≡ params_of self.now) × IsWithinLimits (params_of self.now)) }
        ensures otherwise { IfErr result (λ answer. StandsInTheWay answer held (params_of self.now)) }
    {
        if held {
            return Err(Opened::Held);
        }
        match self.params().check() {
            Ok(rules) => Ok(rules),
            Err(fault) => Err(Opened::Refused { fault }),
        }
    }
}

impl NodeOptions<'_> {
    /// The links and routes, in memory of their own.
    pub fn wires(&self, alloc: Global) -> Result<Wires, NoMemory>
        ensures { IfOk result (λ w. (w.outs.items ≡ map out_link self.now.links.now) × (w.ins.items ≡ map in_link self.now.links.now) × (w.routes.items ≡ map route self.now.routes.now)) }
    {
        Ok(Wires {
            outs: outs_of(alloc, self.links)?,
            ins: ins_of(alloc, self.links)?,
            routes: routes_of(alloc, self.routes)?,
        })
    }
}

/// The links and routes of a node.
#[derive(Drop)]
pub struct Wires {
    pub outs: Vec<OutLink>,
    pub ins: Vec<InLink>,
    pub routes: Vec<Route>,
}

fn new_endpoint(
    alloc: Global,
    rules: &Rules,
    options: &NodeOptions<'_>,
) -> Result<Endpoint, NoMemory>
    ensures { IfOk result (λ e. e ≡ started rules.now options.now) }
{
    let wires = options.wires(alloc)?;
    let links = Links {
        outs: &wires.outs,
        ins: &wires.ins,
        routes: &wires.routes,
    };
    Endpoint::open(alloc, rules, NodeId(options.node), options.again(), &links)
}

fn opens(slot: &mut Slot, alloc: Global, params: &CParams, options: &NodeOptions<'_>) -> Opened
    ensures { Opens result params.now options.now slot.old slot.new }
{
    if !options.is_fit(params) {
        return Opened::Unfit;
    }
    let rules = match params.rules(slot.endpoint.is_some()) {
        Ok(rules) => rules,
        Err(answer) => return answer,
    };
    match new_endpoint(alloc, &rules, options) {
        Ok(endpoint) => {
            slot.endpoint = Some(endpoint);
            Opened::Done
        }
        Err(NoMemory) => Opened::NoMemory,
    }
}

/// The parameters within their limits, if their struct has the size that is known here.
fn rules_of(params: &CParams) -> Option<Rules>
    ensures { RulesOf result params.now }
{
    if params.size != PARAMS_SIZE {
        return None;
    }
    match params.params().check() {
        Ok(rules) => Some(rules),
        Err(_) => None,
    }
}

/// How long a node is silent after it starts again, or 0 where a parameter is out of its range.
pub fn quiet_of(params: &CParams) -> u64
    ensures { QuietIs result params.now }
{
    match rules_of(params) {
        Some(rules) => rules.times().quiet,
        None => 0,
    }
}

/// The fingerprint of parameters, unless one is out of its range.
pub fn fingerprint_in(params: &CParams, out: &mut u64) -> u8
    ensures { FingerprintIs result out.new params.now }
{
    match rules_of(params) {
        Some(rules) => {
            *out = fingerprint(&rules);
            OK
        }
        None => {
            *out = 0;
            INVALID
        }
    }
}
