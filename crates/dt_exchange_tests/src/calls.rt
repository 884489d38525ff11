//! Calls of an endpoint, and what comes of each.
use crate::fixtures::{holds, open};
use dt_endpoint::{Counts, Delivered, Endpoint, Octets, Received, Route, Routed, Sent, Ticked};
use dt_reports::Report;
use dt_units::{Flow, NodeId};
use std::alloc::Global;
use std::process::Abort;

/// A call at some moment, and its answer, which stands last.
pub enum Call {
    /// Octets of a flow that begin a message and end it, or don't.
    Send(Flow, &'static [u8], bool, bool, Sent),
    /// Octets come on a link.
    Arrive(u16, &'static [u8], Received),
    /// A read into a buffer of so many octets, and what stands at its head then.
    Read(Flow, usize, Delivered, &'static [u8]),
    Tick(Ticked),
    Wake(Option<u64>),
    /// A route to a node by a link.
    AddRoute(u32, u16, Routed),
    HasRoute(u32, bool),
    /// A frame waits, which stays.
    FirstFrame,
    /// The next frame goes to a node by a link, or there is none.
    NextFrame(u32, u16),
    NoFrame,
    /// The next report is that so many octets of a flow were taken.
    Took(Flow, u32),
    /// One of the next reports settles so many octets.
    Settled(u32),
    Follow(Flow),
    Totals(Flow, Option<Octets>),
    Counts(Counts),
    /// So many datagrams came, and so many were refused.
    Datagrams(u64, u64),
    IsSpent(bool),
}

fn reads(
    one: &mut Endpoint,
    now: u64,
    flow: Flow,
    room: usize,
    answer: Delivered,
    octets: &[u8],
) -> bool {
    let mut buf = [0; 16];
    room <= 16 && one.read(now, flow, &mut buf[..room]) == answer && buf.starts_with(octets)
}

fn goes(one: &mut Endpoint, to: u32, link: u16) -> bool {
    match one.next_frame() {
        Some(out) => out.to() == to && out.link() == link,
        None => false,
    }
}

fn took(one: &mut Endpoint, flow: Flow, count: u32) -> bool {
    match one.next_report() {
        Some(
            Report::Took {
                flow: of,
                count: told,
            },
        ) => of == flow && told == count,
        _ => false,
    }
}

fn is_settled(one: &mut Endpoint, wanted: u32) -> bool {
    for _ in 0..20 {
        if let Some(Report::Settled { count, .. }) = one.next_report() {
            if count == wanted {
                return true;
            }
        }
    }
    false
}

fn has_datagrams(one: &Endpoint, came: u64, refused: u64) -> bool {
    let counts = one.counts();
    counts.came == came && counts.refused == refused
}

/// Whether a call is answered as it says.
pub fn is_answered(one: &mut Endpoint, now: u64, call: &Call) -> bool {
    match call {
        Call::Send(flow, octets, begin, end, answer) => {
            one.send(now, *flow, octets, *begin, *end) == *answer
        }
        Call::Arrive(link, octets, answer) => one.arrive(now, *link, octets, 0) == *answer,
        Call::Read(flow, room, answer, octets) => reads(one, now, *flow, *room, *answer, octets),
        Call::Tick(answer) => one.tick(now) == *answer,
        Call::Wake(wake) => one.wake() == *wake,
        Call::AddRoute(to, link, answer) => {
            one.add_route(Route {
                to: *to,
                link: *link,
            }) == *answer
        }
        Call::HasRoute(to, answer) => one.has_route(NodeId(*to)) == *answer,
        Call::FirstFrame => one.first_frame().is_some(),
        Call::NextFrame(to, link) => goes(one, *to, *link),
        Call::NoFrame => one.next_frame().is_none(),
        Call::Took(flow, count) => took(one, *flow, *count),
        Call::Settled(count) => is_settled(one, *count),
        Call::Follow(flow) => one.follow(flow).is_ok(),
        Call::Totals(flow, totals) => one.totals(flow) == *totals,
        Call::Counts(counts) => one.counts() == *counts,
        Call::Datagrams(came, refused) => has_datagrams(one, *came, *refused),
        Call::IsSpent(answer) => one.is_spent() == *answer,
    }
}

/// The endpoint answers each call as it says.
pub fn answers_all(rt: &impl Abort, one: &mut Endpoint, calls: &[(u64, Call)]) {
    for (place, (now, call)) in calls.iter().enumerate() {
        let is = is_answered(one, *now, call);
        holds(rt, is, place);
    }
}

/// An endpoint of this node, with a route to the other, answers each call as it says.
pub fn answers(rt: &impl Abort, alloc: Global, me: u32, again: Option<u64>, calls: &[(u64, Call)]) {
    let mut one = open(rt, alloc, me, again).expect(rt, "memory");
    answers_all(rt, &mut one, calls);
}
