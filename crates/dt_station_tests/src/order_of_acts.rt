//! A test of a host's order of acts: each row is an event at a time, with its expected answer.
ghost use Rattle.std.specs.Prelude.{◌≡◌, ◌<◌, ◌≤◌, IfOk, length};
ghost use Rattle.dt_layout.specs.Spelling.{KeepsRules, packet_of};
ghost use Rattle.dt_flow_model.specs.Keeping.{most_moment};

use crate::hosts::{ME, STANDARD, holds, host_with, offered, out, sends};
use dt_host::{Act, Arrived, Cut, Done, Host, RecvAct, SendAct, SendFault};
use dt_items::{NoMemory, Piece};
use dt_layout::{Frame, Packet};
use dt_units::{Flow, NodeId, Steps};
use std::alloc::Global;
use std::marker::Brand;
use std::process::Abort;
use std::sync::ledger::{Blank, Ledger};

const OTHER: NodeId = NodeId(2);

/// A packet that comes from node 2, by the port of its flow's sender. An acknowledgement is of octets that the host sent.
#[derive(Clone, Copy)]
enum Incoming {
    /// One octet comes that begins a message, the first of its flow. Where it ends the message too, an
    /// acknowledgement is owed at once.
    Message(u16, bool),
    /// An acknowledgement comes, with this number and window.
    Ack(u16, u32, u16),
    /// A rendezvous packet comes, with this number.
    Meet(u16, u32),
    /// A closing packet comes, with this number.
    Close(u16, u32),
}

/// So many unread octets are read, into two zeros that become these octets.
#[derive(Clone, Copy)]
struct ReadOut {
    count: usize,
    octets: [u8; 2],
}

/// What happens to the host of node 1. The port is node 1's where the host is the sender, and node 2's
/// where it is the receiver.
#[derive(Clone, Copy)]
enum Event {
    /// Octets are sent as a message, on a flow that has no sender, and taken or not.
    Send(u16, &'static [u8], Result<(), SendFault>),
    /// The act that comes next is that of a sender.
    Sender(u16, SendAct),
    /// The act that comes next is that of a receiver.
    Receiver(u16, RecvAct),
    /// No act is due.
    Rest,
    /// The least moment at which an act is due.
    Wake(Option<u64>),
    Comes(Incoming, Arrived),
    Read(u16, ReadOut),
    /// The number that a receiver expects.
    Expects(u16, Option<u32>),
}

/// An event and its moment.
type Row = (u64, Event);

/// The first octet of a flow, alone in its segment.
const FIRST: Cut = Cut {
    number: 0,
    length: 1,
    drf: true,
    begin: true,
    end: true,
};

/// The same where a second octet of its message is to come.
const FIRST_OF_TWO: Cut = Cut {
    number: 0,
    length: 1,
    drf: true,
    begin: true,
    end: false,
};

/// That second octet.
const SECOND_OF_TWO: Cut = Cut {
    number: 1,
    length: 1,
    drf: true,
    begin: false,
    end: true,
};

/// An octet was accepted, the first of its run.
const ACCEPTED: Arrived = Arrived::Accepted {
    run: true,
    count: 1,
};

/// An acknowledgement of it goes out, with the room that is left.
const ACKED: RecvAct = RecvAct::Acked {
    number: 1,
    window: 4095,
};

/// That octet is read, and then none.
const ONE_READ: ReadOut = ReadOut {
    count: 1,
    octets: [b'A', 0],
};

const NONE_READ: ReadOut = ReadOut {
    count: 0,
    octets: [0, 0],
};

/// An octet was acknowledged.
const SETTLED: Arrived = Arrived::Acked { count: 1 };

/// Two octets go out on two flows, and nothing is heard.
const GIVEN_UP: &[Row] = &[
    (0, Event::Send(10, b"A", Ok(()))),
    (0, Event::Sender(10, SendAct::Sent(FIRST))),
    (1, Event::Send(11, b"A", Ok(()))),
    (1, Event::Sender(11, SendAct::Sent(FIRST))),
    (1, Event::Wake(Some(500))),
    (5200, Event::Sender(10, SendAct::GaveUp { count: 1 })),
    (5200, Event::Rest),
    (5201, Event::Sender(11, SendAct::GaveUp { count: 1 })),
    (5201, Event::Rest),
    (5201, Event::Wake(Some(6200))),
];

/// After a restart at 0 nothing is taken for 6,200 ms.
const SILENCE: &[Row] = &[
    (
        6199,
        Event::Send(10, b"A", Err(SendFault::Quiet { until: 6200 })),
    ),
    (
        6199,
        Event::Comes(Incoming::Message(20, true), Arrived::Quiet { until: 6200 }),
    ),
    (6200, Event::Send(10, b"A", Ok(()))),
    (6200, Event::Sender(10, SendAct::Sent(FIRST))),
    (6200, Event::Rest),
];

/// An act of each class is due at 10,000. The last sender waits for a window.
const CLASSES: &[Row] = &[
    (3800, Event::Send(12, b"A", Ok(()))),
    (3800, Event::Sender(12, SendAct::Sent(FIRST))),
    (3800, Event::Comes(Incoming::Ack(12, 1, 1), SETTLED)),
    (4800, Event::Send(11, b"A", Ok(()))),
    (4800, Event::Sender(11, SendAct::Sent(FIRST))),
    (5800, Event::Sender(11, SendAct::Resent(FIRST))),
    (5800, Event::Comes(Incoming::Message(13, true), ACCEPTED)),
    (5800, Event::Receiver(13, ACKED)),
    (9200, Event::Send(17, b"AB", Ok(()))),
    (9200, Event::Sender(17, SendAct::Sent(FIRST_OF_TWO))),
    (9200, Event::Comes(Incoming::Ack(17, 1, 0), SETTLED)),
    (9500, Event::Send(15, b"A", Ok(()))),
    (9500, Event::Sender(15, SendAct::Sent(FIRST))),
    (9800, Event::Comes(Incoming::Message(14, false), ACCEPTED)),
    (9900, Event::Send(16, b"A", Ok(()))),
    (10_000, Event::Sender(11, SendAct::GaveUp { count: 1 })),
    (10_000, Event::Sender(12, SendAct::Released)),
    (10_000, Event::Receiver(13, RecvAct::Released)),
    (10_000, Event::Receiver(14, ACKED)),
    (10_000, Event::Sender(15, SendAct::Resent(FIRST))),
    (10_000, Event::Sender(16, SendAct::Sent(FIRST))),
    (10_000, Event::Sender(17, SendAct::Met { number: 1 })),
    (10_000, Event::Rest),
];

/// Of four senders the second goes: the others keep their order, so a swap would show. The first keeps
/// an octet until 100, so that its release is due when those of the last two are.
const ORDER_OF_MAKING: &[Row] = &[
    (0, Event::Send(13, b"AB", Ok(()))),
    (0, Event::Sender(13, SendAct::Sent(FIRST_OF_TWO))),
    (0, Event::Send(12, b"A", Ok(()))),
    (0, Event::Sender(12, SendAct::Sent(FIRST))),
    (0, Event::Comes(Incoming::Ack(12, 1, 1), SETTLED)),
    (100, Event::Send(11, b"A", Ok(()))),
    (100, Event::Sender(11, SendAct::Sent(FIRST))),
    (100, Event::Comes(Incoming::Ack(11, 1, 1), SETTLED)),
    (100, Event::Send(10, b"A", Ok(()))),
    (100, Event::Sender(10, SendAct::Sent(FIRST))),
    (100, Event::Comes(Incoming::Ack(10, 1, 1), SETTLED)),
    (100, Event::Comes(Incoming::Ack(13, 1, 1), SETTLED)),
    (100, Event::Sender(13, SendAct::Sent(SECOND_OF_TWO))),
    (100, Event::Comes(Incoming::Ack(13, 2, 1), SETTLED)),
    (6200, Event::Sender(12, SendAct::Released)),
    (6200, Event::Rest),
    (6300, Event::Sender(13, SendAct::Released)),
    (6300, Event::Sender(11, SendAct::Released)),
    (6300, Event::Sender(10, SendAct::Released)),
    (6300, Event::Rest),
    (6300, Event::Wake(None)),
];

/// What comes for a flow that has no record.
const WITHOUT_RECORD: &[Row] = &[
    (0, Event::Comes(Incoming::Ack(10, 0, 9), Arrived::Dropped)),
    (
        0,
        Event::Comes(
            Incoming::Meet(20, 7),
            Arrived::Replied {
                number: 7,
                window: 4096,
            },
        ),
    ),
    (0, Event::Comes(Incoming::Close(20, 7), Arrived::Dropped)),
    (0, Event::Wake(None)),
];

/// A receiver goes when it has neither a record nor unread octets.
const IDLE: &[Row] = &[
    (0, Event::Comes(Incoming::Message(20, true), ACCEPTED)),
    (0, Event::Expects(20, Some(1))),
    (0, Event::Receiver(20, ACKED)),
    (4200, Event::Receiver(20, RecvAct::Released)),
    (4200, Event::Rest),
    (4200, Event::Read(20, ONE_READ)),
    (4200, Event::Read(20, NONE_READ)),
    (4200, Event::Expects(20, None)),
];

/// Rows, and whether the node that they are of starts again at 0, or else for the first time.
static ALL: [(bool, &[Row]); 6] = [
    (false, GIVEN_UP),
    (true, SILENCE),
    (false, CLASSES),
    (false, ORDER_OF_MAKING),
    (false, WITHOUT_RECORD),
    (false, IDLE),
];

/// From a port of node 2 to port 10 of node 1.
fn back(from_port: u16) -> Flow {
    Flow {
        from: OTHER,
        from_port,
        to: ME,
        to_port: 10,
    }
}

fn receives(flow: Flow, act: RecvAct) -> Done {
    Done {
        flow,
        act: Act::Recv(act),
    }
}

fn message<'a>(flow: Flow, octets: &'a [u8], end: bool) -> Packet<'a>
    requires some { 1 ≤ length octets.now }
    requires few { length octets.now ≤ 8192 }
    ensures { KeepsRules (packet_of result) }
{
    Packet::Data {
        from_port: flow.from_port,
        to_port: flow.to_port,
        number: 0,
        drf: true,
        begin: true,
        end,
        octets,
    }
}

/// An acknowledgement of octets of a flow, which comes the other way.
fn ack(flow: Flow, number: u32, window: u16) -> Packet<'static>
    ensures { KeepsRules (packet_of result) }
{
    Packet::Ack {
        from_port: flow.to_port,
        to_port: flow.from_port,
        number,
        window: u32::from(window),
    }
}

fn meet(flow: Flow, number: u32) -> Packet<'static>
    ensures { KeepsRules (packet_of result) }
{
    Packet::Meet {
        from_port: flow.from_port,
        to_port: flow.to_port,
        number,
    }
}

fn close(flow: Flow, number: u32) -> Packet<'static>
    ensures { KeepsRules (packet_of result) }
{
    Packet::Close {
        from_port: flow.from_port,
        to_port: flow.to_port,
        number,
    }
}

/// The packet that comes.
fn packet_in(incoming: Incoming) -> Packet<'static>
    ensures { KeepsRules (packet_of result) }
{
    match incoming {
        Incoming::Message(port, end) => message(back(port), b"A", end),
        Incoming::Ack(port, number, window) => ack(out(port), number, window),
        Incoming::Meet(port, number) => meet(back(port), number),
        Incoming::Close(port, number) => close(back(port), number),
    }
}

/// What is answered where octets are sent as a message, if their flow has no sender.
fn offers<L: Ledger>(
    host: &mut Host,
    from_port: u16,
    octets: &[u8],
    now: u64,
    steps: &mut Steps<L>,
) -> Option<Result<(), SendFault>>
    requires moment { now ≤ most_moment }
    requires past { host.old.latest ≤ now }
    ensures latest { host.new.latest ≤ now }
{
    if octets.is_empty() || octets.len() > 8192 {
        return None;
    }
    if host.me().0 != ME.0 || !host.is_current(now, steps) {
        return None;
    }
    offered(host, from_port, octets, now, steps)
}

/// The act that an event says comes next, if any.
fn act_of(event: &Event) -> Option<Done> {
    match event {
        Event::Sender(port, act) => Some(sends(out(*port), *act)),
        Event::Receiver(port, act) => Some(receives(back(*port), *act)),
        Event::Send(_, _, _)
        | Event::Rest
        | Event::Wake(_)
        | Event::Comes(_, _)
        | Event::Read(_, _)
        | Event::Expects(_, _) => None,
    }
}

/// Whether this act comes next, or none is due.
fn does_next<L: Ledger>(host: &mut Host, act: Option<Done>, now: u64, steps: &mut Steps<L>) -> bool
    requires moment { now ≤ most_moment }
    requires past { host.old.latest ≤ now }
    ensures latest { host.new.latest ≤ now }
{
    host.next(now, &mut Frame::new(), steps) == act
}

/// Whether a packet that comes from node 2 is answered so.
fn comes<L: Ledger>(
    host: &mut Host,
    incoming: Incoming,
    now: u64,
    answer: Arrived,
    steps: &mut Steps<L>,
) -> bool
    requires moment { now ≤ most_moment }
    requires past { host.old.latest ≤ now }
    ensures latest { host.new.latest ≤ now }
{
    if !host.is_current(now, steps) {
        return false;
    }
    let packet = packet_in(incoming);
    host.arrive(OTHER, &packet, now, &mut Frame::new(), steps) == Ok(answer)
}

/// Whether octets that are unread are read as wanted.
fn reads<L: Ledger>(
    host: &mut Host,
    from_port: u16,
    now: u64,
    wanted: &ReadOut,
    steps: &mut Steps<L>,
) -> bool
    requires moment { now ≤ most_moment }
    requires past { host.old.latest ≤ now }
    ensures latest { host.new.latest ≤ now }
{
    if !host.is_current(now, steps) {
        return false;
    }
    let mut read = [0; 2];
    let piece = host.read(&back(from_port), &mut read, now, steps);
    count_of(piece) == wanted.count && read == wanted.octets
}

fn count_of(piece: Option<Piece>) -> usize {
    match piece {
        Some(piece) => piece.len,
        None => 0,
    }
}

/// Whether an event, at a moment that isn't before those that were, goes as it says.
fn happens<L: Ledger>(host: &mut Host, event: &Event, now: u64, steps: &mut Steps<L>) -> bool
    requires moment { now ≤ most_moment }
    requires past { host.old.latest ≤ now }
    ensures latest { host.new.latest ≤ now }
{
    match event {
        Event::Send(port, octets, answer) => {
            offers(host, *port, octets, now, steps) == Some(*answer)
        }
        Event::Sender(_, _) | Event::Receiver(_, _) | Event::Rest => {
            does_next(host, act_of(event), now, steps)
        }
        Event::Wake(moment) => host.wake() == *moment,
        Event::Comes(incoming, answer) => comes(host, *incoming, now, *answer, steps),
        Event::Read(port, wanted) => reads(host, *port, now, wanted, steps),
        Event::Expects(port, number) => host.expected(&back(*port)) == *number,
    }
}

/// The rows one after another.
fn runs<L: Ledger>(rt: &impl Abort, host: &mut Host, rows: &[Row], steps: &mut Steps<L>)
    requires { host.old.latest ≡ 0 }
{
    let mut latest = 0;
    for (now, event) in rows {
        assert!(rt; latest <= *now && *now <= 10_000);
        latest = *now;
        let is = happens(host, event, latest, steps);
        holds(rt, is, latest);
    }
}

/// The host of a node that starts again at 0, or for the first time.
fn opened(rt: &impl Abort, alloc: Global, again: bool) -> Result<Host, NoMemory>
    ensures latest { IfOk result (λ host. host.latest ≡ 0) }
{
    if again {
        let rules = STANDARD.check().expect(rt, "the parameters are refused");
        Host::restarted(alloc, &rules, ME, 0)
    } else {
        host_with(rt, alloc, &STANDARD)
    }
}

/// The rows on a host of their own.
fn runs_on<L: Ledger>(
    rt: &impl Abort,
    alloc: Global,
    again: bool,
    rows: &[Row],
    steps: &mut Steps<L>,
) -> Result<(), NoMemory> {
    let mut host = opened(rt, alloc, again)?;
    runs(rt, &mut host, rows, steps);
    drop(host);
    Ok(())
}

/// All rows.
fn all_run<L: Ledger>(
    rt: &impl Abort,
    alloc: Global,
    steps: &mut Steps<L>,
) -> Result<(), NoMemory> {
    for (again, rows) in &ALL {
        runs_on(rt, alloc, *again, rows, steps)?;
    }
    Ok(())
}

fn rows_on<L: Ledger>(rt: &impl Abort, alloc: Global, ledger: Blank) -> Result<(), NoMemory>
    requires name { ledger.name ≡ L.name }
    requires parts { ledger.parts ≡ L.parts }
    requires some { 0 < ledger.parts }
{
    all_run(rt, alloc, &mut Steps::<L>::new(ledger))
}

#[test]
fn the_host_orders_its_acts(rt: HostRuntime) -> Result<(), NoMemory> {
    rows_on::<Brand>(&rt, rt.alloc(), Blank::new(1))
}
