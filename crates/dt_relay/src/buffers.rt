//! The memory of what waits on a link: buffers that are there from the start, and blocks of their own for longer frames.
ghost use Rattle.std.specs.Prelude.{◌≡◌, IfOk};

use dt_items::NoMemory;
use std::alloc::Global;

/// Buffers that hold no octets at present, each with room for as many octets as the others.
#[derive(Drop)]
pub(crate) struct Buffers {
    alloc: Global,
    /// The octets for which each spare buffer has room.
    room: usize,
    spare: Vec<Vec<u8>>,
}

impl Buffers {
    /// So many buffers, each of this room. For a count of 0 no memory is taken.
    pub(crate) fn new(alloc: Global, count: usize, room: usize) -> Result<Buffers, NoMemory> {
        let mut spare = Vec::with_capacity(alloc, count)?;
        for _ in 0..count {
            spare.push(Vec::with_capacity(alloc, room)?)?;
        }
        Ok(Buffers { alloc, room, spare })
    }

    /// These octets, in a spare buffer where they fit one and one is left. Only else memory is taken, for as
    /// many octets as there are.
    pub(crate) fn hold(&mut self, octets: &[u8]) -> Result<Vec<u8>, NoMemory>
        ensures same { IfOk result (λ held. held.items ≡ octets.now) }
    {
        if octets.len() > self.room {
            return Ok(Vec::from_slice(self.alloc, octets)?);
        }
        let Some(mut held) = self.spare.pop() else {
            return Ok(Vec::from_slice(self.alloc, octets)?);
        };
        held.clear();
        held.extend_from_slice(octets)?;
        Ok(held)
    }

    /// Takes back what [`Buffers::hold`] gave: a buffer is spare again, and any other block is freed.
    pub(crate) fn take_back(&mut self, held: Vec<u8>) {
        if held.capacity() == self.room && self.spare.len() < self.spare.capacity() {
            self.spare.push_reserved(held);
        }
    }
}
