//! A shelf: what it holds, hands back, and finds no room for.
ghost use Rattle.dt_layout.specs.Carried.{IsGram};

use dt_layout::{Frame, Packet, write_frame};
use dt_shelf::{Shelf, Taken};
use dt_units::{Flow, NodeId};
use std::alloc::Global;
use std::process::Abort;

// Data of a flow from node 1 to node 2.
fn packet(rt: &impl Abort, life: u32, number: u32) -> Frame
    ensures { IsGram result }
{
    let mut frame = Frame::new();
    let data = Packet::Data {
        from_port: 10,
        to_port: 20,
        number,
        drf: false,
        begin: false,
        end: true,
        octets: b"abcd",
    };
    assert!(rt; life > 0);
    write_frame(&mut frame, life, 1, 2, &data);
    frame
}

const FLOW: Flow = Flow {
    from: NodeId(1),
    from_port: 10,
    to: NodeId(2),
    to_port: 20,
};

/// Whether the packet that is taken at 20 came on link 1, and is these octets.
fn is_taken(shelf: &mut Shelf, octets: &[u8]) -> bool {
    match shelf.take(&FLOW, 4, 20) {
        Some(Taken::Again { link, frame }) => link == 1 && frame.as_slice() == octets,
        _ => false,
    }
}

/// Whether a packet that comes at a moment has no place beside it, and is these octets where it is taken.
fn is_held(shelf: &mut Shelf, frame: &Frame, came: u64, octets: &[u8]) -> bool
    requires { IsGram frame.now }
{
    shelf.take(&FLOW, 4, 5).is_none()
        && shelf.hold(1, FLOW, 4, frame, came)
        && !shelf.hold(1, FLOW, 8, frame, came)
        && is_taken(shelf, octets)
}

/// The same with a packet that has a life of 100 ms.
fn holds_one(rt: &impl Abort, alloc: Global, came: u64, octets: &[u8]) {
    let mut shelf = Shelf::with_room(alloc, 1).expect(rt, "memory");
    let is = is_held(&mut shelf, &packet(rt, 100, 4), came, octets);
    assert!(rt; is);
}

/// It was there for 10 ms, so 89 are left.
static AFTER_TEN: &[u8] =
    b"\x01\x01\x00\x12\x00\x00\x00\x59\x00\x00\x00\x01\x00\x00\x00\x02\x01\x04\x00\x0a\x00\x14\x00\x00\x00\x04\x00\x00\x00\x00abcd";

#[test]
fn a_packet_is_held_and_taken(rt: HostRuntime) {
    holds_one(&rt, rt.alloc(), 10, AFTER_TEN);
}

/// One that was put there at a later moment was there for no time, and pays the one millisecond.
static AFTER_NONE: &[u8] =
    b"\x01\x01\x00\x12\x00\x00\x00\x63\x00\x00\x00\x01\x00\x00\x00\x02\x01\x04\x00\x0a\x00\x14\x00\x00\x00\x04\x00\x00\x00\x00abcd";

#[test]
fn a_later_moment_counts_as_no_time(rt: HostRuntime) {
    holds_one(&rt, rt.alloc(), 30, AFTER_NONE);
}
