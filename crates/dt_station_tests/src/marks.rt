//! A mark stays on its packet.
use crate::fixtures::rendezvous;
use crate::relay_links::{INS, OUTS, ROUTES};
use dt_items::NoMemory;
use dt_layout::Frame;
use dt_relay::{Carry, Left, Relay};
use std::process::Abort;

/// A frame with a mark on it.
#[derive(Drop)]
struct Marked {
    frame: Frame,
    mark: u64,
}

impl Carry for Marked {
    type Tag = u64;

    ghost octets = { λ marked. marked.frame };

    ghost label = { λ marked. marked.mark };

    fn life(&self) -> u32 {
        Carry::life(&self.frame)
    }

    fn to(&self) -> u32 {
        Carry::to(&self.frame)
    }

    fn lower(&mut self, by: u32) {
        self.frame.lower(by);
    }

    fn make(frame: &Frame, mark: u64) -> Marked {
        Marked {
            frame: Frame::make(frame, ()),
            mark,
        }
    }

    fn frame(&self) -> &Frame {
        &self.frame
    }

    fn into_tag(self) -> u64 {
        self.mark
    }
}

/// Whether the packet that leaves on link 5 has a life of 1 ms, and still its mark.
fn leaves_marked(rt: &impl Abort, relay: &mut Relay<Marked>) -> bool {
    match relay.leave(5, 0) {
        Some(Left::Out(out)) => out.mark == 77 && *out.frame() == rendezvous(rt, 1, 2),
        Some(Left::Expired) | None => false,
    }
}

/// Whether a packet that is marked goes through the relay with its mark.
fn is_kept(rt: &impl Abort, relay: &mut Relay<Marked>) -> bool {
    let marked = Marked::make(&rendezvous(rt, 999, 2), 77);
    match relay.admit(9, marked) {
        Some(admitted) => {
            let entered = relay.enter(admitted, 0).is_ok();
            entered && leaves_marked(rt, relay)
        }
        None => false,
    }
}

#[test]
fn a_mark_stays_on_its_packet(rt: HostRuntime) -> Result<(), NoMemory> {
    let mut relay = Relay::<Marked>::new(rt.alloc(), 0, &OUTS, &INS, &ROUTES)?;
    assert!(rt; is_kept(&rt, &mut relay));
    Ok(())
}
