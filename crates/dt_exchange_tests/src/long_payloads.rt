//! Messages of up to 65,536 octets, as long as a window lets them be. Each is taken whole, and the memory for it is
//! found: a library that loses what is longer than some hundred octets fails here.
use dt_endpoint::{Endpoint, InLink, Links, OutLink, Received, Route, Sent};
use dt_inbox::{Inbox, TakenMessage};
use dt_items::NoMemory;
use dt_units::{Flow, NodeId, Params};
use std::alloc::Global;
use std::process::Abort;

/// 64 segments, as many as may be under way, have as many octets as the window.
static WIDE: Params = Params {
    mpl: 1000,
    r: 3000,
    a: 200,
    rto: 500,
    probe: 800,
    seg: 1024,
    cap: 65_536,
    rcap: 65_536,
    window: 65_536,
    run_limit: 2_147_483_648,
    start: 0,
};

/// From port 10 of node 1 to port 20 of node 2.
const FLOW: Flow = Flow {
    from: NodeId(1),
    from_port: 10,
    to: NodeId(2),
    to_port: 20,
};

static OUTS: [OutLink; 1] = [OutLink { link: 5, pace: 0 }];

static INS: [InLink; 1] = [InLink { link: 7, charge: 0 }];

/// A payload whose octets go round, so that one that is out of its place is seen.
fn payload_of(alloc: Global, length: usize) -> Result<Vec<u8>, NoMemory> {
    let mut octets = Vec::new(alloc);
    for place in 0..length {
        octets.push((place % 251) as u8)?;
    }
    Ok(octets)
}

fn endpoint(rt: &impl Abort, alloc: Global, me: u32) -> Result<Endpoint, NoMemory> {
    let rules = WIDE.check().expect(rt, "the parameters are refused");
    let routes = [Route {
        to: 3 - me.min(2),
        link: 5,
    }];
    let links = Links {
        outs: &OUTS,
        ins: &INS,
        routes: &routes,
    };
    Endpoint::open(alloc, &rules, NodeId(me), None, &links)
}

/// All frames of the one come to the other.
fn hands_over(one: &mut Endpoint, two: &mut Endpoint) -> bool {
    for _ in 0..100 {
        match one.next_frame() {
            None => return true,
            Some(out) => {
                if two.arrive(12, 7, out.octets(), 0) != Received::Done {
                    return false;
                }
            }
        }
    }
    false
}

/// A message of so many octets is taken whole.
fn is_taken_whole(rt: &impl Abort, alloc: Global, length: usize) -> Result<(), NoMemory> {
    let sent = payload_of(alloc, length)?;
    let mut one = endpoint(rt, alloc, 1)?;
    let mut two = endpoint(rt, alloc, 2)?;
    assert!(rt;
        one.send(10, FLOW, &sent, true, true) == Sent::Done,
        "it isn't sent"
    );
    assert!(rt; hands_over(&mut one, &mut two), "a frame isn't taken");
    let mut inbox = Inbox::new(FLOW, None);
    match inbox.take(alloc, &mut two, 12, &mut [0; 512]) {
        TakenMessage::Whole(message) => {
            assert!(rt;
                message.octets.as_slice() == sent.as_slice(),
                "other octets"
            );
        }
        _ => assert!(rt; false, "no whole message"),
    }
    Ok(())
}

#[test]
fn message_of_two_octets_is_taken(rt: HostRuntime) -> Result<(), NoMemory> {
    is_taken_whole(&rt, rt.alloc(), 2)
}

#[test]
fn message_of_4097_octets_is_taken(rt: HostRuntime) -> Result<(), NoMemory> {
    is_taken_whole(&rt, rt.alloc(), 4_097)
}

#[test]
fn message_of_65536_octets_is_taken(rt: HostRuntime) -> Result<(), NoMemory> {
    is_taken_whole(&rt, rt.alloc(), 65_536)
}
