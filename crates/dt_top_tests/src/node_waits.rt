//! A test of how long a node waits in each take: until its wake or the next command of its script.
use crate::node_inputs::FIRST;
use dt_edges::{Address, Failed, MemClock, MemSink, MemWire, Peer, Wire};
use dt_node::{NodeOutcome, serve};
use std::alloc::Global;

/// A wire over memory that keeps the waits of its first takes, in ms.
#[derive(Drop)]
struct Waits {
    wire: MemWire,
    first: Option<u32>,
    second: Option<u32>,
}

impl Wire for Waits {
    ghost use Rattle.std.proofs.Math.Nat.{min-le_right};
    ghost use Rattle.dt_edges.specs.Counts.{last_count};
    ghost use Rattle.dt_edges.specs.Wires.{wire_in_memory};

    ghost sight = { λ w. wire_in_memory w.wire };

    ghost bounded = { λ w. record {
      takes = min-le_right w.wire.takes last_count;
      gives = min-le_right w.wire.gives last_count;
      take_faults = min-le_right w.wire.take_faults last_count;
      give_faults = min-le_right w.wire.give_faults last_count;
      opens = min-le_right w.wire.opens last_count;
    } };

    fn open(&mut self, local: Address, peers: &[Peer]) -> Result<(), Failed> {
        self.wire.open(local, peers)
    }

    fn take(&mut self, wait_ms: u32, buf: &mut [u8]) -> Result<Option<(u16, usize)>, Failed> {
        if self.first.is_none() {
            self.first = Some(wait_ms);
        } else if self.second.is_none() {
            self.second = Some(wait_ms);
        }
        self.wire.take(wait_ms, buf)
    }

    fn give(&mut self, link: u16, octets: &[u8]) -> Result<(), Failed> {
        self.wire.give(link, octets)
    }
}

fn new_wire(alloc: Global) -> Option<Waits> {
    Some(Waits {
        wire: MemWire::new(alloc, false, &[], &[], Some(1000)).ok()?,
        first: None,
        second: None,
    })
}

/// Whether the run of a script, of 1,000 octets at most, is done.
fn is_done(alloc: Global, script: &[u8], wire: &mut Waits, clock: &mut MemClock) -> bool {
    match MemSink::new(alloc, 1000, &[]) {
        Ok(mut out) => {
            script.len() <= 1000 && serve(alloc, script, wire, clock, &mut out) == NodeOutcome::Done
        }
        Err(_) => false,
    }
}

/// The first take may wait to the stop at 100, and the second to it, 60 ms later.
#[test]
fn a_take_waits_to_the_wake_and_the_next_command(rt: HostRuntime) {
    let alloc = rt.alloc();
    let mut wire = new_wire(alloc).expect(&rt, "memory");
    let mut clock = MemClock::new(alloc, &[1000, 1040, 3000]).expect(&rt, "memory");
    assert!(rt; is_done(alloc, FIRST.as_bytes(), &mut wire, &mut clock));
    assert!(rt; wire.first == Some(100) && wire.second == Some(60));
}
