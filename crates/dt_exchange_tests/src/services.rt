//! A client and a server over their endpoints, step by step in rows: the frames of the one are handed to the other.
use dt_endpoint::{InLink, Links, OutLink, Received, Route, Routed, Ticked};
use dt_items::NoMemory;
use dt_service::{Service, ServiceStart};
use dt_service_model::{
    CallNumber, Cause, Declined, Forgot, Happening, Made, Most, PortKind, Replied, Token, Unfit,
};
use dt_units::{Flow, NodeId, Params};
use std::alloc::Global;
use std::process::Abort;

static STANDARD: Params = Params {
    mpl: 1000,
    r: 3000,
    a: 200,
    rto: 500,
    probe: 800,
    seg: 100,
    cap: 40,
    rcap: 4096,
    window: 4096,
    run_limit: 2_147_483_648,
    start: 0,
};

/// From a caller's port of node 1 to a service's of node 2.
const FLOW: Flow = Flow {
    from: NodeId(1),
    from_port: 10,
    to: NodeId(2),
    to_port: 20,
};

/// From the other's port to this one's, which node 1 can't call.
const BACK: Flow = Flow {
    from: NodeId(2),
    ..FLOW
};

/// From a port of node 1 that is no caller's.
const PLAIN: Flow = Flow {
    from_port: 11,
    ..FLOW
};

const MOST: Most = Most {
    calls: 2,
    requests: 8,
    of_a_flow: 8,
};

/// The number of the first call of the first life.
const NUMBER: CallNumber = CallNumber { life: 5, count: 0 };

const TOKEN: Token = Token {
    flow: FLOW,
    number: NUMBER,
};

/// The answers to the first two calls of the first life.
const FIRST: Made = Made::Call(NUMBER);

const SECOND: Made = Made::Call(CallNumber { life: 5, count: 1 });

/// The answer to the first call of the life after it.
const RAISED: Made = Made::Call(CallNumber { life: 6, count: 0 });

static OUTS: [OutLink; 1] = [OutLink { link: 5, pace: 0 }];

static INS: [InLink; 1] = [InLink { link: 7, charge: 0 }];

/// The service of a node with a route to the other.
fn open(rt: &impl Abort, alloc: Global, me: u32, again: Option<u64>) -> Result<Service, NoMemory> {
    let rules = STANDARD.check().expect(rt, "the parameters are refused");
    let routes = [Route {
        to: 3 - me.min(2),
        link: 5,
    }];
    let links = Links {
        outs: &OUTS,
        ins: &INS,
        routes: &routes,
    };
    let start = ServiceStart {
        me: NodeId(me),
        again,
        life: 5,
        most: MOST,
    };
    Service::open(alloc, &rules, &start, &links)
}

/// Node 1 calls from port 10, and node 2 serves at port 20.
fn names_ports(service: &mut Service) -> Result<(), NoMemory> {
    service.port(10, PortKind::Caller)?;
    service.port(20, PortKind::Service)?;
    Ok(())
}

/// What happens, in words that compare.
#[derive(Clone, Copy, PartialEq, Eq)]
enum Told {
    Nothing,
    Request { count: u32, first: u8 },
    Answered { count: u32, first: u8 },
    Unsure { count: u32, cause: Cause },
    Uncertain(Flow),
}

/// The request of one octet, its answer, and what a call comes to without one.
const REQUEST: Told = Told::Request {
    count: 0,
    first: b'a',
};

const ANSWERED: Told = Told::Answered {
    count: 0,
    first: b'A',
};

const IMPATIENT: Told = Told::Unsure {
    count: 0,
    cause: Cause::Patience,
};

const CLOSED: Told = Told::Unsure {
    count: 0,
    cause: Cause::Closed,
};

const CLOSED_TOO: Told = Told::Unsure {
    count: 1,
    cause: Cause::Closed,
};

fn first_of(octets: &[u8]) -> u8 {
    octets.first().copied().unwrap_or(0)
}

fn words_of(happening: &Happening) -> Told {
    match happening {
        Happening::Request { token, payload } => Told::Request {
            count: token.number.count,
            first: first_of(&payload.octets),
        },
        Happening::Answered { call, answer } => Told::Answered {
            count: call.count,
            first: first_of(&answer.octets),
        },
        Happening::Unsure { call, cause } => Told::Unsure {
            count: call.count,
            cause: *cause,
        },
        Happening::ReplyUncertain { flow } => Told::Uncertain(*flow),
    }
}

/// What a service reports next.
fn next(service: &mut Service) -> Told {
    match service.next() {
        None => Told::Nothing,
        Some(happening) => words_of(&happening),
    }
}

/// What is asked of a service at some moment, and its answer, which stands last.
enum Ask {
    /// A call of a flow with this payload, which waits so many ms.
    Call(Flow, &'static [u8], u32, Made),
    /// The first request is replied to, or forgotten.
    Reply(&'static [u8], Replied),
    Forget(Forgot),
    /// Octets come on a link.
    Arrive(u16, &'static [u8], Received),
    Tick(Ticked),
    Wake(Option<u64>),
    NextSize(Option<usize>),
    Next(Told),
    Raise(u32, bool),
    /// A route to a node by a link.
    AddRoute(u32, u16, Routed),
    Close,
    IsClosed(bool),
    /// So many replies came too late, and so many datagrams were refused.
    Late(u64),
    Refused(u64),
}

fn calls(
    one: &mut Service,
    now: u64,
    flow: Flow,
    payload: &[u8],
    patience: u32,
    answer: Made,
) -> bool {
    one.call(now, flow, payload, patience) == answer
}

fn replies(one: &mut Service, now: u64, payload: &[u8], answer: Replied) -> bool {
    one.reply(now, TOKEN, payload) == answer
}

fn forgets(one: &mut Service, now: u64, answer: Forgot) -> bool {
    one.forget(now, &TOKEN) == answer
}

fn arrives(one: &mut Service, now: u64, link: u16, octets: &[u8], answer: Received) -> bool {
    one.arrive(now, link, octets, 0) == answer
}

fn ticks(one: &mut Service, now: u64, answer: Ticked) -> bool {
    one.tick(now) == answer
}

fn raises(one: &mut Service, life: u32, answer: bool) -> bool {
    one.raise(life) == answer
}

fn adds_route(one: &mut Service, to: u32, link: u16, answer: Routed) -> bool {
    one.add_route(Route { to, link }) == answer
}

fn closes(one: &mut Service) -> bool {
    one.close();
    true
}

/// Whether a service answers as it says.
fn is_answered(one: &mut Service, now: u64, ask: &Ask) -> bool {
    match ask {
        Ask::Call(flow, payload, patience, answer) => {
            calls(one, now, *flow, payload, *patience, *answer)
        }
        Ask::Reply(payload, answer) => replies(one, now, payload, *answer),
        Ask::Forget(answer) => forgets(one, now, *answer),
        Ask::Arrive(link, octets, answer) => arrives(one, now, *link, octets, *answer),
        Ask::Tick(answer) => ticks(one, now, *answer),
        Ask::Wake(answer) => one.wake() == *answer,
        Ask::NextSize(answer) => one.next_size() == *answer,
        Ask::Next(answer) => next(one) == *answer,
        Ask::Raise(life, answer) => raises(one, *life, *answer),
        Ask::AddRoute(to, link, answer) => adds_route(one, *to, *link, *answer),
        Ask::Close => closes(one),
        Ask::IsClosed(answer) => one.is_closed() == *answer,
        Ask::Late(count) => one.counts().late == *count,
        Ask::Refused(count) => one.endpoint().counts().refused == *count,
    }
}

/// What is asked of the client, node 1, or the server, node 2; or the frames that wait at one are taken by the other
/// at a moment.
enum Step {
    Client(u64, Ask),
    Server(u64, Ask),
    HandOver(u64),
    HandBack(u64),
}

/// Whether the first frame that waits for the other, if any, is taken by it.
fn hands_one_over(one: &mut Service, two: &mut Service, now: u64) -> bool {
    match one.next_frame() {
        Some(out) => arrives(two, now, 7, out.octets(), Received::Done),
        None => true,
    }
}

/// Whether the first two are.
fn hands_over(one: &mut Service, two: &mut Service, now: u64) -> bool {
    hands_one_over(one, two, now) && hands_one_over(one, two, now)
}

/// Whether a step goes as it says.
fn goes(client: &mut Service, server: &mut Service, step: &Step) -> bool {
    match step {
        Step::Client(now, ask) => is_answered(client, *now, ask),
        Step::Server(now, ask) => is_answered(server, *now, ask),
        Step::HandOver(now) => hands_over(client, server, *now),
        Step::HandBack(now) => hands_over(server, client, *now),
    }
}

/// Both name their ports, and each step goes as it says.
fn go(rt: &impl Abort, client: &mut Service, server: &mut Service, steps: &[Step]) {
    assert!(rt; names_ports(client).is_ok() && names_ports(server).is_ok());
    for (place, step) in steps.iter().enumerate() {
        let is = goes(client, server, step);
        assert!(rt; is, "step {place}");
    }
}

/// Each step of the client and of a server, which is opened, goes as it says.
fn follows_beside(
    rt: &impl Abort,
    alloc: Global,
    client: &mut Service,
    steps: &[Step],
) -> Result<(), NoMemory> {
    let mut server = open(rt, alloc, 2, None)?;
    go(rt, client, &mut server, steps);
    Ok(())
}

/// What is asked of a client: steps, beside a server; or two calls, which are made where there is memory.
#[derive(Drop)]
enum Trial {
    Steps(&'static [Step]),
    Calls,
}

/// A client goes through its trial.
fn goes_through(
    rt: &impl Abort,
    alloc: Global,
    client: &mut Service,
    trial: Trial,
) -> Result<(), NoMemory> {
    match trial {
        Trial::Steps(steps) => follows_beside(rt, alloc, client, steps),
        Trial::Calls => {
            assert!(rt; goes_on_or_is_spent(client));
            Ok(())
        }
    }
}

/// A client that starts again at a moment, or for the first time, goes through its trial.
fn follows(
    rt: &impl Abort,
    alloc: Global,
    again: Option<u64>,
    trial: Trial,
) -> Result<(), NoMemory> {
    let mut client = open(rt, alloc, 1, again)?;
    goes_through(rt, alloc, &mut client, trial)
}

/// The request is handed out once, and takes one reply.
static ANSWER: [Step; 10] = [
    Step::Client(0, Ask::Call(FLOW, b"a", 3000, FIRST)),
    Step::HandOver(40),
    Step::Server(40, Ask::NextSize(Some(1))),
    Step::Server(40, Ask::Next(REQUEST)),
    Step::Server(40, Ask::Next(Told::Nothing)),
    Step::Server(40, Ask::Reply(b"A", Replied::Done)),
    Step::Server(40, Ask::Reply(b"B", Replied::Gone)),
    Step::HandBack(80),
    Step::Client(80, Ask::Next(ANSWERED)),
    Step::Client(80, Ask::Next(Told::Nothing)),
];

#[test]
fn a_call_is_handed_out_and_answered(rt: HostRuntime) -> Result<(), NoMemory> {
    follows(&rt, rt.alloc(), None, Trial::Steps(&ANSWER))
}

/// Patience is over at 300, and no sooner; and the reply that comes then is counted.
static LATE: [Step; 15] = [
    Step::Client(0, Ask::Call(FLOW, b"a", 300, FIRST)),
    Step::HandOver(40),
    Step::Server(40, Ask::NextSize(Some(1))),
    Step::Server(40, Ask::Next(REQUEST)),
    Step::Server(40, Ask::Next(Told::Nothing)),
    Step::Server(40, Ask::Reply(b"A", Replied::Done)),
    Step::Server(40, Ask::Reply(b"B", Replied::Gone)),
    Step::Client(40, Ask::Wake(Some(300))),
    Step::Client(299, Ask::Tick(Ticked::Done)),
    Step::Client(299, Ask::Next(Told::Nothing)),
    Step::Client(300, Ask::Tick(Ticked::Done)),
    Step::Client(300, Ask::Next(IMPATIENT)),
    Step::HandBack(310),
    Step::Client(310, Ask::Next(Told::Nothing)),
    Step::Client(310, Ask::Late(1)),
];

#[test]
fn patience_ends_a_call_and_a_late_reply_is_counted(rt: HostRuntime) -> Result<(), NoMemory> {
    follows(&rt, rt.alloc(), None, Trial::Steps(&LATE))
}

/// What can't be called is refused by its cause. A call that doesn't fit is declined, and no more wait than
/// may. Both calls end when the service closes, in their order, and it does nothing more.
static REFUSED: [Step; 24] = [
    Step::Client(0, Ask::Call(BACK, b"a", 300, Made::Refused(Unfit::BadFlow))),
    Step::Client(
        0,
        Ask::Call(PLAIN, b"a", 300, Made::Refused(Unfit::NotACaller)),
    ),
    Step::Client(
        0,
        Ask::Call(FLOW, &[1; 33], 300, Made::Refused(Unfit::TooLong)),
    ),
    Step::Client(
        0,
        Ask::Call(FLOW, b"a", 0, Made::Refused(Unfit::NoPatience)),
    ),
    Step::Client(0, Ask::Reply(b"a", Replied::Gone)),
    Step::Client(0, Ask::Forget(Forgot::Gone)),
    Step::Client(0, Ask::Raise(5, false)),
    Step::Client(0, Ask::Arrive(8, b"", Received::NoLink)),
    Step::Client(0, Ask::Refused(1)),
    Step::Client(0, Ask::Call(FLOW, b"a", 300, FIRST)),
    Step::Client(
        0,
        Ask::Call(
            FLOW,
            &[1; 32],
            300,
            Made::Declined(Declined::Full { free: 31 }),
        ),
    ),
    Step::Client(0, Ask::Call(FLOW, b"a", 300, SECOND)),
    Step::Client(
        0,
        Ask::Call(FLOW, b"a", 300, Made::Declined(Declined::Many)),
    ),
    Step::Client(0, Ask::AddRoute(2, 5, Routed::Known)),
    Step::Client(0, Ask::Close),
    Step::Client(0, Ask::IsClosed(true)),
    Step::Client(0, Ask::Wake(None)),
    Step::Client(1, Ask::Tick(Ticked::Spent)),
    Step::Client(1, Ask::Call(FLOW, b"a", 300, Made::Refused(Unfit::Closed))),
    Step::Client(1, Ask::NextSize(Some(0))),
    Step::Client(1, Ask::Next(CLOSED)),
    Step::Client(1, Ask::Next(CLOSED_TOO)),
    Step::Client(1, Ask::Next(Told::Nothing)),
    Step::Client(1, Ask::NextSize(None)),
];

#[test]
fn calls_are_refused_declined_and_closed(rt: HostRuntime) -> Result<(), NoMemory> {
    follows(&rt, rt.alloc(), None, Trial::Steps(&REFUSED))
}

/// A node that starts again is silent, and its calls then have another life.
static RAISE: [Step; 4] = [
    Step::Client(
        0,
        Ask::Call(
            FLOW,
            b"a",
            300,
            Made::Declined(Declined::Quiet { until: 6300 }),
        ),
    ),
    Step::Client(0, Ask::Raise(6, true)),
    Step::Client(6300, Ask::Call(FLOW, b"a", 300, RAISED)),
    Step::Client(6300, Ask::Raise(6, false)),
];

#[test]
fn a_life_is_raised(rt: HostRuntime) -> Result<(), NoMemory> {
    follows(&rt, rt.alloc(), Some(100), Trial::Steps(&RAISE))
}

/// A request that is forgotten takes no reply.
static FORGOTTEN: [Step; 5] = [
    Step::Client(0, Ask::Call(FLOW, b"a", 300, FIRST)),
    Step::HandOver(40),
    Step::Server(40, Ask::Next(REQUEST)),
    Step::Server(40, Ask::Forget(Forgot::Done)),
    Step::Server(40, Ask::Reply(b"A", Replied::Gone)),
];

#[test]
fn a_request_is_forgotten(rt: HostRuntime) -> Result<(), NoMemory> {
    follows(&rt, rt.alloc(), None, Trial::Steps(&FORGOTTEN))
}

/// A reply that is lost is given up at 5240, and no sooner, and its service hears of it once.
static LOST_REPLY: [Step; 11] = [
    Step::Client(0, Ask::Call(FLOW, b"a", 300, FIRST)),
    Step::HandOver(40),
    Step::Server(40, Ask::Next(REQUEST)),
    Step::Server(40, Ask::Reply(b"A", Replied::Done)),
    Step::Server(5239, Ask::Tick(Ticked::Done)),
    Step::Server(5239, Ask::Next(Told::Nothing)),
    Step::Server(5240, Ask::Tick(Ticked::Done)),
    Step::Server(5240, Ask::NextSize(Some(0))),
    Step::Server(5240, Ask::Next(Told::Uncertain(FLOW))),
    Step::Server(5240, Ask::Next(Told::Nothing)),
    Step::Server(5240, Ask::NextSize(None)),
];

#[test]
fn a_reply_that_is_given_up_is_told(rt: HostRuntime) -> Result<(), NoMemory> {
    follows(&rt, rt.alloc(), None, Trial::Steps(&LOST_REPLY))
}

/// Whether the service is closed for want of memory: each call that waited is reported so, and none else.
fn is_spent(client: &mut Service, waits: bool) -> bool {
    client.is_closed()
        && client.tick(9) == Ticked::Spent
        && client.wake().is_none()
        && (!waits || next(client) == CLOSED)
}

/// With memory both calls are made. After want of memory the service is closed, and a call that waited is
/// unsure.
#[test]
fn want_of_memory_ends_what_waits(rt: HostRuntime) {
    let _opened = follows(&rt, rt.alloc(), None, Trial::Calls);
}

/// Whether a second call is made, or the first one is unsure for want of memory.
fn goes_on(client: &mut Service) -> bool {
    match client.call(1, FLOW, b"b", 300) {
        Made::NoMemory => is_spent(client, true),
        made => made == SECOND && !client.is_closed(),
    }
}

/// Whether a first call is made and it goes on, or it is closed for want of memory, where the ports found some.
fn goes_on_or_is_spent(client: &mut Service) -> bool {
    if names_ports(client).is_err() {
        return true;
    }
    match client.call(0, FLOW, b"a", 300) {
        Made::NoMemory => is_spent(client, false),
        made => made == FIRST && goes_on(client),
    }
}
