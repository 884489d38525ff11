//! Two endpoints that hand their frames to each other, and what takes messages of node 2, step by step.
use crate::calls::{Call, is_answered};
use crate::fixtures::{FLOW, holds, open};
use dt_endpoint::{Endpoint, Received};
use dt_inbox::{FlowInboxes, Handed, Inbox, Mailbox, TakenMessage};
use dt_reports::Report;
use dt_units::Flow;
use std::alloc::Global;
use std::process::Abort;

/// What takes the messages that come to node 2.
#[derive(Drop)]
struct Takers {
    alloc: Global,
    inbox: Inbox,
    inboxes: FlowInboxes,
    mailbox: Mailbox,
}

/// What taking a message answers. A message has octets and maybe a gap before it.
pub enum Answer {
    Whole(&'static [u8], bool),
    Nothing,
    BadFlow,
    NoRoom,
}

/// What is done, and what comes of it.
pub enum Step {
    /// A call of one of two nodes.
    One(u64, Call),
    Two(u64, Call),
    /// A frame waits for node 2, which takes it so at 12, where it waited so many ms on the machine.
    HandOver(u32, Received),
    /// A frame waits at node 2 on link 5, and node 1 takes it so at 215.
    HandBack(Received),
    /// The inbox takes in pieces of so many octets, from node 2 or from node 1.
    Take(usize, Answer),
    TakeOfSender(usize, Answer),
    /// So many messages were too long for it.
    Dropped(u64),
    /// The inboxes hear of what was accepted, take of a flow or find none due, and forget a flow.
    HearAll,
    TakeOf(Flow, Answer),
    TakeOfNone,
    Forget(Flow),
    Left(usize),
    /// The mailbox hears of a flow, and hands out into a buffer of so many octets.
    Hear(Flow),
    HandOut,
}

fn comes(two: &mut Endpoint, now: u64, octets: &[u8], waited: u32, answer: Received) -> bool {
    two.arrive(now, 7, octets, waited) == answer
}

fn hands_over(one: &mut Endpoint, two: &mut Endpoint, waited: u32, answer: Received) -> bool {
    match one.next_frame() {
        Some(out) => out.to() == 2 && comes(two, 12, out.octets(), waited, answer),
        None => false,
    }
}

fn hands_back(two: &mut Endpoint, one: &mut Endpoint, answer: Received) -> bool {
    match two.next_frame() {
        Some(out) => out.link() == 5 && comes(one, 215, out.octets(), 0, answer),
        None => false,
    }
}

fn is_answer(taken: &TakenMessage, wanted: &Answer) -> bool {
    match (taken, wanted) {
        (TakenMessage::Whole(message), Answer::Whole(octets, gap)) => {
            message.octets.as_slice() == *octets && message.gap == *gap
        }
        (TakenMessage::Nothing, Answer::Nothing)
        | (TakenMessage::BadFlow, Answer::BadFlow)
        | (TakenMessage::NoRoom, Answer::NoRoom) => true,
        _ => false,
    }
}

fn takes(
    alloc: Global,
    inbox: &mut Inbox,
    endpoint: &mut Endpoint,
    room: usize,
    wanted: &Answer,
) -> bool {
    let mut buf = [0; 64];
    room <= 64 && is_answer(&inbox.take(alloc, endpoint, 12, &mut buf[..room]), wanted)
}

fn hears(inboxes: &mut FlowInboxes, two: &mut Endpoint) -> bool {
    for _ in 0..20 {
        if let Some(Report::Accepted { flow, .. }) = two.next_report() {
            if inboxes.hear(flow).is_err() {
                return false;
            }
        }
    }
    true
}

fn takes_of(
    alloc: Global,
    inboxes: &mut FlowInboxes,
    two: &mut Endpoint,
    flow: Flow,
    wanted: &Answer,
) -> bool {
    match inboxes.take(alloc, two, 12, &mut [0; 64]) {
        Some((of, taken)) => of == flow && is_answer(&taken, wanted),
        None => false,
    }
}

fn takes_of_none(alloc: Global, inboxes: &mut FlowInboxes, two: &mut Endpoint) -> bool {
    inboxes.take(alloc, two, 12, &mut [0; 64]).is_none()
}

/// A buffer that is too small is told so, and the message waits for one that isn't.
fn hands_out(alloc: Global, mailbox: &mut Mailbox, two: &mut Endpoint) -> bool {
    let (flow, len, gap) = (FLOW, 5, true);
    let mut buf = *b"......";
    let small = mailbox.take(alloc, two, 12, &mut buf[..4]);
    let whole = mailbox.take(alloc, two, 12, &mut buf);
    let last = mailbox.take(alloc, two, 12, &mut buf);
    small == Handed::NoRoom { flow, len, gap }
        && whole == Handed::Done { flow, len, gap }
        && last == Handed::Nothing
        && buf == *b"hello."
}

/// Whether a step goes as it says.
fn goes(one: &mut Endpoint, two: &mut Endpoint, takers: &mut Takers, step: &Step) -> bool {
    let Takers {
        alloc,
        inbox,
        inboxes,
        mailbox,
    } = takers;
    match step {
        Step::One(now, call) => is_answered(one, *now, call),
        Step::Two(now, call) => is_answered(two, *now, call),
        Step::HandOver(waited, answer) => hands_over(one, two, *waited, *answer),
        Step::HandBack(answer) => hands_back(two, one, *answer),
        Step::Take(room, wanted) => takes(*alloc, inbox, two, *room, wanted),
        Step::TakeOfSender(room, wanted) => takes(*alloc, inbox, one, *room, wanted),
        Step::Dropped(count) => inbox.dropped() == *count,
        Step::HearAll => hears(inboxes, two),
        Step::TakeOf(flow, wanted) => takes_of(*alloc, inboxes, two, *flow, wanted),
        Step::TakeOfNone => takes_of_none(*alloc, inboxes, two),
        Step::Forget(flow) => {
            inboxes.forget(flow);
            true
        }
        Step::Left(count) => inboxes.len() == *count,
        Step::Hear(flow) => mailbox.hear(*flow).is_ok(),
        Step::HandOut => hands_out(*alloc, mailbox, two),
    }
}

/// Each step goes as it says.
fn go(
    rt: &impl Abort,
    one: &mut Endpoint,
    two: &mut Endpoint,
    takers: &mut Takers,
    steps: &[Step],
) {
    for (place, step) in steps.iter().enumerate() {
        let is = goes(one, two, takers, step);
        holds(rt, is, place);
    }
}

/// Each step of two nodes, of which the second is opened, goes as it says.
fn follows_beside(rt: &impl Abort, one: &mut Endpoint, takers: &mut Takers, steps: &[Step]) {
    let mut two = open(rt, takers.alloc, 2, None).expect(rt, "memory");
    go(rt, one, &mut two, takers, steps);
}

/// Each step of two nodes goes as it says, by takers that are lent.
fn follows_with(rt: &impl Abort, takers: &mut Takers, steps: &[Step]) {
    let mut one = open(rt, takers.alloc, 1, None).expect(rt, "memory");
    follows_beside(rt, &mut one, takers, steps);
}

/// Each step of two nodes goes as it says, by what takes messages of so many octets at most.
pub fn follows(rt: &impl Abort, alloc: Global, longest: Option<usize>, steps: &[Step]) {
    let mut takers = Takers {
        alloc,
        inbox: Inbox::new(FLOW, longest),
        inboxes: FlowInboxes::new(alloc, longest),
        mailbox: Mailbox::new(alloc, longest),
    };
    follows_with(rt, &mut takers, steps);
}
