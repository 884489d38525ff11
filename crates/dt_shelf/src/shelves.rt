//! `Shelf`, room for packets that arrived too early, each taken back by its flow and its first sequence number.
ghost use Rattle.std.specs.Prelude.{◌≡◌, ◌≤◌, ◌<◌, ◌↔◌, IfNone, IfOk, IfSome, IsTrue, length, vec_capacity};
ghost use Rattle.std.specs.List.{position};
ghost use Rattle.dt_layout.specs.Carried.{IsGram};
ghost use Rattle.dt_flow_model.specs.Keeping.{most_moment};
ghost use Rattle.dt_shelf.specs.Shelves.{IfAgain, empty_shelf, handed_with, held_packet, hold, is_of, take_held};

use crate::early_packet::EarlyPacket;
use crate::handed::Handed;
use crate::held::Held;
use crate::taken::Taken;
use dt_flow_model::Reading;
use dt_items::NoMemory;
use dt_layout::Frame;
use dt_units::Flow;
use dt_world_model::wait_charge;
use std::alloc::Global;
use std::marker::Model;

/// Packets that came too early, in the order in which they were put here. A contract sees its room and
/// what it holds.
///
/// Moments are readings of one clock in milliseconds, at most 2^62.
#[derive(Drop)]
pub struct Shelf {
    room: u32,
    held: Vec<Held>,
    /// The frames of those that may come yet. A packet's octets stay where they were put.
    spare: Vec<Box<Frame>>,
}

impl Model for Shelf {
    ghost use Rattle.std.specs.Prelude.{◌≡◌, ◌≤◌, ◌+◌, All, length, vec_capacity};
    ghost use Rattle.dt_shelf.specs.Shelves as model;
    ghost use Rattle.dt_shelf.specs.Shelves.{HoldsGram};

    ghost Value = { model.Shelf };

    ghost view = { λ s. record { room = s.room; held = s.held.items } };

    ghost invariant = { λ s. (length s.held.items + length s.spare.items ≡ s.room) × (s.room ≤ vec_capacity s.held) × (s.room ≤ vec_capacity s.spare) × All HoldsGram s.held.items };
}

impl Shelf {
    /// An empty shelf for `room` packets. Takes their room, some 8,300 octets for each; `NoMemory` where
    /// there is none. No later call takes memory.
    pub fn with_room(alloc: Global, room: u32) -> Result<Shelf, NoMemory>
        ensures { IfOk result (λ shelf. shelf ≡ empty_shelf room) }
    {
        let held = Vec::with_capacity(alloc, room as usize)?;
        let spare = empty_frames(alloc, room)?;
        Ok(Shelf { room, held, spare })
    }

    /// Puts a packet last, whose first octet has this number. It came on a link, and its frame, which
    /// must read as a Deltagram, is copied. False where the shelf is full, and then nothing changes.
    pub fn hold(&mut self, link: u16, flow: Flow, number: u32, frame: &Frame, now: u64) -> bool
        requires { IsGram frame.now }
        ensures answer { result ≡ (hold (held_packet link flow number frame.now now) self.old).0 }
        ensures shelf { self.new ≡ (hold (held_packet link flow number frame.now now) self.old).1 }
        ensures full { IsTrue result ↔ (length self.old.held < self.old.room) }
    {
        let gram = frame.as_gram();
        let packet = EarlyPacket {
            link,
            flow,
            number,
            gram,
        };
        self.hold_early(packet, now)
    }

    /// The same for a packet whose octets are lent. Where there is room they are copied once.
    pub fn hold_early(&mut self, packet: EarlyPacket<'_>, now: u64) -> bool
        ensures answer { let p = packet.entry in result ≡ (hold (held_packet p.link p.flow p.number p.gram.octets.now now) self.old).0 }
        ensures shelf { let p = packet.entry in self.new ≡ (hold (held_packet p.link p.flow p.number p.gram.octets.now now) self.old).1 }
        ensures full { IsTrue result ↔ (length self.old.held < self.old.room) }
    {
        let Some(mut frame) = self.spare.pop() else {
            return false;
        };
        packet.gram.copy_into(&mut frame);
        self.held.push_reserved(Held {
            link: packet.link,
            flow: packet.flow,
            number: packet.number,
            frame,
            since: now,
        });
        true
    }

    /// Takes the first packet of this flow whose first octet has this number, and makes its life less
    /// by the charge for its time here, which is the time since it was put here and one millisecond
    /// more. None where there is no such packet. The others stay, in their order.
    ///
    /// Its cost is that of going over the packets, and of moving those after the one that leaves.
    pub fn take(&mut self, flow: &Flow, number: u32, now: u64) -> Option<Taken>
        requires moment { now ≤ most_moment }
        ensures taken { result ≡ (take_held flow.now number now self.old).0 }
        ensures left { self.new ≡ (take_held flow.now number now self.old).1 }
        ensures gram { IfAgain result (λ link frame. IsGram frame) }
    {
        let mut frame = Frame::new();
        match self.take_into(flow, number, now, &mut frame)? {
            Handed::Again { link } => Some(Taken::Again { link, frame }),
            Handed::Stale => Some(Taken::Stale),
        }
    }

    /// The same into a frame that is lent, to which the octets are copied once. Where there is no such
    /// packet the frame stays as it was.
    pub fn take_into(
        &mut self,
        flow: &Flow,
        number: u32,
        now: u64,
        frame: &mut Frame,
    ) -> Option<Handed>
        requires moment { now ≤ most_moment }
        ensures taken { handed_with frame.new result ≡ (take_held flow.now number now self.old).0 }
        ensures left { self.new ≡ (take_held flow.now number now self.old).1 }
        ensures gram { IfSome result (λ _. IsGram frame.new) }
        ensures none { IfNone result (frame.new ≡ frame.old) }
    {
        let place = self.place(flow, number)?;
        let Held {
            link,
            frame: octets,
            since,
            ..
        } = self.held.remove(place);
        octets.as_gram().copy_into(frame);
        self.spare.push_reserved(octets);
        let now = Reading { ms: now };
        let Some(charge) = wait_charge(frame.as_gram().life(), since, now) else {
            return Some(Handed::Stale);
        };
        frame.lower(charge);
        Some(Handed::Again { link })
    }

    /// Where the first packet of a flow and number stands.
    fn place(&self, flow: &Flow, number: u32) -> Option<usize>
        ensures { result ≡ position (is_of flow.now number) self.now.held }
    {
        self.held.iter().position(|held| is_of(held, flow, number))
    }
}

/// So many frames with no octets, and room for as many.
fn empty_frames(alloc: Global, count: u32) -> Result<Vec<Box<Frame>>, NoMemory>
    ensures count { IfOk result (λ frames. length frames.items ≡ count) }
    ensures room { IfOk result (λ frames. count ≤ vec_capacity frames) }
{
    let mut frames = Vec::with_capacity(alloc, count as usize)?;
    for _frame in 0..count {
        frames.push_reserved(Box::new(alloc, Frame::new())?);
    }
    Ok(frames)
}

/// Whether a packet is of this flow and its first octet has this number.
fn is_of(held: &Held, flow: &Flow, number: u32) -> bool
    ensures { result ≡ is_of flow.now number held.now }
{
    held.flow == *flow && held.number == number
}
