//! A relay at a moment, and what is done to it.
ghost use Rattle.std.specs.Prelude.{◌≤◌, ◌^◌};

use crate::fixtures::rendezvous;
use dt_items::NoMemory;
use dt_layout::Frame;
use dt_relay::{Entered, InLink, Left, OutLink, Passage, Reading, Relay, Route};
use std::alloc::Global;
use std::marker::Model;
use std::process::Abort;

/// What is done to a relay, and what comes of it. Packets are of so many milliseconds of life.
#[derive(Clone, Copy)]
pub enum Step {
    /// A packet comes on a link, and has this life then, or isn't admitted.
    Admits(u16, u32, Option<u32>),
    /// A packet to a node is to wait.
    Enters(u32, u32, Entered),
    /// A packet to a node with this life goes straight on if it can.
    GoesOn(u32, u32, Passage),
    /// The first leaves a link with this life, or expires with none left, or nothing does.
    Leaves(u16, Option<u32>),
    /// The same on the link at a place, and whether something may leave there.
    LeavesAt(usize, bool),
    Wakes(Option<u64>),
    Passes(u64),
    /// 64 packets to node 2 are to wait, each with a millisecond of life more than the one before, and do.
    Fills,
    /// At a place stands this link, or none.
    LinkAt(usize, Option<u16>),
}

#[derive(Drop)]
pub struct Bench {
    relay: Relay<Frame>,
    now: u64,
}

impl Model for Bench {
    ghost use Rattle.std.specs.Prelude.{ℕ, ◌≤◌, ◌^◌};

    ghost Value = { ℕ };

    ghost view = { λ b. b.now };

    ghost invariant = { λ b. b.now ≤ 2 ^ 62 };
}

impl Bench {
    pub fn new(
        alloc: Global,
        longest: usize,
        outs: &[OutLink],
        ins: &[InLink],
        routes: &[Route],
    ) -> Result<Bench, NoMemory> {
        let relay = Relay::new(alloc, longest, outs, ins, routes)?;
        Ok(Bench { relay, now: 0 })
    }

    fn passes(&mut self, milliseconds: u64) -> bool {
        if milliseconds > 1 << 32 || self.now > 1 << 40 {
            return false;
        }
        self.now += milliseconds;
        true
    }

    fn admits(&self, rt: &impl Abort, link: u16, life: u32, wanted: Option<u32>) -> bool {
        match (self.relay.admit(link, rendezvous(rt, life, 2)), wanted) {
            (Some(frame), Some(left)) => frame == rendezvous(rt, left, 2),
            (admitted, wanted) => admitted.is_none() && wanted.is_none(),
        }
    }

    fn enters(&mut self, rt: &impl Abort, life: u32, to: u32, wanted: Entered) -> bool {
        self.relay.enter(rendezvous(rt, life, to), self.now).ok() == Some(wanted)
    }

    /// All that leaves goes to node 2.
    fn leaves(&mut self, rt: &impl Abort, link: u16, wanted: Option<u32>) -> bool {
        match self.relay.leave(link, self.now) {
            None => wanted.is_none(),
            Some(Left::Expired) => wanted == Some(0),
            Some(Left::Out(frame)) => match wanted {
                Some(life) => frame == rendezvous(rt, life, 2),
                None => false,
            },
        }
    }

    fn goes_on(&mut self, life: u32, to: u32, wanted: Passage) -> bool {
        let now = Reading { ms: self.now };
        self.relay.pass(to, life, now) == wanted
    }

    fn leaves_at(&mut self, place: usize, wanted: bool) -> bool {
        let now = Reading { ms: self.now };
        place < self.relay.links()
            && self.relay.is_ready(place, self.now) == wanted
            && self.relay.leave_at(place, now).is_some() == wanted
    }

    fn fills(&mut self, rt: &impl Abort) -> bool {
        for waiting in 0..64u32 {
            let is = self.enters(rt, 5000 + waiting, 2, Entered::Queued { link: 5 });
            assert!(rt; is, "{waiting}");
        }
        true
    }

    fn has_link(&self, place: usize, wanted: Option<u16>) -> bool {
        if place < self.relay.links() {
            wanted == Some(self.relay.link_at(place))
        } else {
            wanted.is_none()
        }
    }

    /// Whether a step is as it says.
    pub fn is_done(&mut self, rt: &impl Abort, step: Step) -> bool {
        match step {
            Step::GoesOn(life, to, wanted) => self.goes_on(life, to, wanted),
            Step::LeavesAt(place, wanted) => self.leaves_at(place, wanted),
            Step::Admits(link, life, wanted) => self.admits(rt, link, life, wanted),
            Step::Enters(life, to, wanted) => self.enters(rt, life, to, wanted),
            Step::Leaves(link, wanted) => self.leaves(rt, link, wanted),
            Step::Wakes(wanted) => self.relay.wake() == wanted,
            Step::Passes(milliseconds) => self.passes(milliseconds),
            Step::Fills => self.fills(rt),
            Step::LinkAt(place, wanted) => self.has_link(place, wanted),
        }
    }
}
