//! The copies of packets on the links.
ghost use Rattle.std.specs.Prelude.{◌≡◌, ◌<◌, ◌^◌, ◌↔◌, [], ◌∷◌, ◌++◌, IfSome, IsSome, OnErr, OnOk, length, set};
ghost use Rattle.dt_notes.specs.Copies.{copy_in, copy_seen, lost_copy, put_copy};

use crate::marked_frames::Mark;
use dt_items::NoMemory;
use std::alloc::Global;
use std::marker::Model;

/// All copies of packets that were put on links, numbered from 0 in the order of leaving. None ever
/// goes: a copy that came or was lost keeps its number.
///
/// A copy costs its octets and 40 more. It is looked at and lost at a cost that doesn't grow.
#[derive(Drop)]
pub struct Copies {
    /// Those of all copies, one after another.
    octets: Vec<u8>,
    slots: Vec<CopySlot>,
}

/// What is kept of one copy beside its octets.
#[derive(Clone, Copy)]
pub struct CopySlot {
    pub start: u64,
    pub put: u64,
    pub birth: u64,
    pub place: u64,
    pub length: u16,
    pub link: u16,
    pub lost: bool,
}

/// A copy that is looked at.
#[derive(Clone, Copy)]
pub struct LinkCopy<'a> {
    /// The link that it was put on.
    pub link: u16,
    /// The octets of its packet.
    pub octets: &'a [u8],
    /// The moment at which a host made the packet, in ms.
    pub birth: u64,
    /// Where the packet stands among the octets that its flow took.
    pub place: u64,
    /// The moment at which it was put on the link, in ms.
    pub put: u64,
    /// Whether it was lost.
    pub lost: bool,
}

impl Model for Copies {
    ghost use Rattle.std.specs.Prelude.{List, length};
    ghost use Rattle.dt_world_model.specs.World.{Copy as CopyValue};

    ghost Value = { List CopyValue };

    ghost use Rattle.dt_notes.specs.Copies.{AreWithin, copies_of};

    ghost view = { λ c. copies_of c.octets.items c.slots.items };

    ghost invariant = { λ c. AreWithin (length c.octets.items) c.slots.items };
}

impl Copies {
    /// No copies. What later calls take is taken of `alloc`.
    pub fn new(alloc: Global) -> Copies
        ensures { result ≡ [] }
    {
        Copies {
            octets: Vec::new(alloc),
            slots: Vec::new(alloc),
        }
    }

    /// How many copies there are.
    pub fn len(&self) -> u64
        ensures { result ≡ length self.now }
    {
        self.slots.len() as u64
    }

    /// Adds a copy of a packet of fewer than 65,536 octets, which was put on the link at `put`, in ms.
    /// `NoMemory` leaves the copies as they were.
    pub fn add(&mut self, link: u16, octets: &[u8], mark: Mark, put: u64) -> Result<(), NoMemory>
        requires { length octets.now < 2 ^ 16 }
        ensures ok { OnOk result (self.new ≡ self.old ++ put_copy link octets.now mark put ∷ []) }
        ensures err { OnErr result (self.new ≡ self.old) }
    {
        self.slots.reserve(1)?;
        let start = self.octets.len() as u64;
        self.octets.extend_from_slice(octets)?;
        self.slots.push_reserved(CopySlot {
            start,
            put,
            birth: mark.birth(),
            place: mark.place(),
            length: octets.len() as u16,
            link,
            lost: false,
        });
        Ok(())
    }

    /// The copy of that number, or none where no copy has it yet.
    pub fn get(&self, number: u64) -> Option<LinkCopy<'_>>
        ensures found { IsSome result ↔ (number < length self.now) }
        ensures copy { IfSome result (λ copy. copy_seen copy ≡ copy_in self.now number) }
    {
        let i = number as usize;
        if i >= self.slots.len() {
            return None;
        }
        let slot = &self.slots[i];
        let start = slot.start as usize;
        Some(LinkCopy {
            link: slot.link,
            octets: &self.octets[start..start + usize::from(slot.length)],
            birth: slot.birth,
            place: slot.place,
            put: slot.put,
            lost: slot.lost,
        })
    }

    /// Loses the copy of that number.
    pub fn lose(&mut self, number: u64)
        requires { number < length self.old }
        ensures { self.new ≡ set self.old number (lost_copy (copy_in self.old number)) }
    {
        let slot = &mut self.slots[number as usize];
        slot.lost = true;
    }
}
