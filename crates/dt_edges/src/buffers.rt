//! A buffer before a sink.
ghost use Rattle.std.specs.Prelude.{◌≡◌, ◌++◌, ◌<◌, ◌≤◌, [], take, length, IfOk, OnOk};
ghost use Rattle.std.specs.Io.KnownBytes.{WriteAppends, append_known};
ghost use Rattle.dt_edges.specs.Counts.{CountsFaults};
ghost use Rattle.dt_edges.specs.Sinks.{Grows, PassesOn, Puts};

use crate::failures::Failed;
use crate::sinks::Sink;
use dt_items::NoMemory;
use std::alloc::Global;
use std::marker::Model;

/// How many octets wait at most in a [`Buffer`].
const ROOM: usize = 8192;

/// Octets that wait to be put on a sink, at most 8,192. A contract sees those that wait.
#[derive(Drop)]
pub struct Buffer {
    /// The octets that were taken since the buffer was empty.
    octets: Vec<u8>,
    /// How many of them were put on the sink.
    passed: usize,
}

impl Model for Buffer {
    ghost use Rattle.std.specs.Prelude.{List, ℕ, ◌≤◌, drop, vec_len, vec_capacity};
    ghost use Rattle.dt_edges.specs.declared.buffers.TheConstants.{ROOM};

    ghost Value = { List ℕ };

    ghost view = { λ b. drop b.passed b.octets.items };

    ghost invariant = { λ b. (b.passed ≤ vec_len b.octets) × (vec_len b.octets ≤ ROOM) × (ROOM ≤ vec_capacity b.octets) };
}

impl Buffer {
    /// A buffer in which nothing waits. Takes memory for 8,192 octets, and no call takes more.
    pub fn new(alloc: Global) -> Result<Self, NoMemory>
        ensures { IfOk result (λ buffer. buffer ≡ []) }
    {
        Ok(Buffer {
            octets: Vec::with_capacity(alloc, ROOM)?,
            passed: 0,
        })
    }

    /// Puts what waits on a sink. `Ok` has put all of it, and nothing waits any more. An `Err` comes
    /// only where the sink's count of faults rose; it has put a first part, and the other octets still
    /// wait. Takes no memory. The cost is that of what waits.
    pub fn pass_on<K: Sink>(&mut self, out: &mut K) -> Result<(), Failed>
        ensures puts { Puts K.sight self.old result out.old out.new }
        ensures empty { OnOk result (self.new ≡ []) }
        ensures waits { PassesOn self.old self.new (K.sight out.old).held (K.sight out.new).held }
        ensures never_falls { (K.sight out.old).faults ≤ (K.sight out.new).faults }
    {
        while self.passed < self.octets.len() {
            let taken = out.put(&self.octets[self.passed..])?;
            self.passed += taken;
        }
        self.passed = 0;
        self.octets.clear();
        Ok(())
    }

    /// Takes the first octets of a piece, after room was made where the buffer is full, and says how
    /// many.
    fn fill<K: Sink>(&mut self, piece: &[u8], out: &mut K) -> Result<usize, Failed>
        requires { 0 < length piece.now }
        ensures some { IfOk result (λ n. 0 < n) }
        ensures within { IfOk result (λ n. n ≤ length piece.now) }
        ensures taken { WriteAppends (append_known (K.sight out.old).held self.old) (append_known (K.sight out.new).held self.new) result piece.now }
        ensures reached { Grows (K.sight out.old).held (K.sight out.new).held }
        ensures counted { CountsFaults result (K.sight out.old).faults (K.sight out.new).faults }
        ensures never_falls { (K.sight out.old).faults ≤ (K.sight out.new).faults }
    {
        let count = self.append(piece);
        if count > 0 {
            return Ok(count);
        }
        self.pass_on(out)?;
        Ok(self.append(piece))
    }

    /// Appends the first octets of a piece, as many as there is room for, and says how many.
    fn append(&mut self, piece: &[u8]) -> usize
        ensures within { result ≤ length piece.now }
        ensures taken { self.new ≡ self.old ++ take result piece.now }
        ensures some { self.old ≡ [] → 0 < length piece.now → 0 < result }
    {
        if self.passed == self.octets.len() {
            self.passed = 0;
            self.octets.clear();
        }
        let count = piece.len().min(ROOM - self.octets.len());
        match self.octets.extend_from_slice(&piece[..count]) {
            Ok(()) => count,
            Err(_) => unreachable!(),
        }
    }
}

/// A sink that gathers small pieces in a buffer, and puts them on another sink when the buffer is
/// full. What it holds is what that sink holds and then the octets that wait; a fault of that sink is
/// a fault of this one. Who lent both puts the rest with [`Buffer::pass_on`].
#[derive(Drop)]
pub struct Buffered<'a, K> {
    pub out: &'a mut K,
    pub buffer: &'a mut Buffer,
}

impl<'a, K: Sink> Sink for Buffered<'a, K> {
    ghost use Rattle.std.specs.Prelude.{◌∷◌, []};
    ghost use Rattle.std.specs.Io.KnownBytes.{append_known};

    ghost sight = { λ b. record {
      held = append_known (K.sight b.out.now).held b.buffer.now;
      reached = (K.sight b.out.now).held;
      faults = (K.sight b.out.now).faults;
      identity = b.out.ghost_name ∷ b.buffer.ghost_name ∷ [];
    } };

    ghost bounded = { λ b. K.bounded b.out.now };

    fn put(&mut self, piece: &[u8]) -> Result<usize, Failed> {
        self.buffer.fill(piece, self.out)
    }
}
