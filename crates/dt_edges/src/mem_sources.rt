//! A source that reads octets from memory and fails at the calls whose numbers it was made with.
ghost use Rattle.std.specs.Prelude.{◌≡◌, ◌++◌, ◌<◌, ◌≤◌, ◌↔◌, min, length, take, drop, IfOk, IsErr, IsTrue};
ghost use Rattle.std.specs.Io.KnownBytes.{ReadConsumes};
ghost use Rattle.dt_edges.specs.Counts.{CountsFaults, is_planned};
ghost use Rattle.dt_edges.specs.Sources.{source_in_memory, source_after};

use crate::failures::Failed;
use crate::planning::{call_numbers, fails};
use crate::sources::Source;
use dt_items::NoMemory;
use std::alloc::Global;
use std::marker::Model;

/// A source over octets in memory. It tells what is left, and fails where it is told to.
#[derive(Drop)]
pub struct MemSource {
    octets: Vec<u8>,
    /// How many of the octets were handed over.
    next: usize,
    failing: Vec<u64>,
    calls: u64,
    faults: u64,
}

impl Model for MemSource {
    ghost use Rattle.std.specs.Prelude.{drop, ◌≤◌, vec_len};
    ghost use Rattle.dt_edges.specs.Sources.{SourceInMemory};

    ghost Value = { SourceInMemory };

    ghost view = { λ s. record { left = drop s.next s.octets.items; failing = s.failing.items; calls = s.calls; faults = s.faults } };

    ghost invariant = { λ s. s.next ≤ vec_len s.octets };
}

impl MemSource {
    /// A source of these octets. `failing` lists the numbers of the takes that fail, the first of
    /// which is number 1; with an empty list none fails. Takes memory for both.
    pub fn new(alloc: Global, octets: &[u8], failing: &[u32]) -> Result<Self, NoMemory>
        ensures { IfOk result (λ source. source ≡ record { left = octets.now; failing = failing.now; calls = 0; faults = 0 }) }
    {
        Ok(MemSource {
            octets: Vec::from_slice(alloc, octets)?,
            next: 0,
            failing: call_numbers(alloc, failing)?,
            calls: 0,
            faults: 0,
        })
    }
}

impl Source for MemSource {
    ghost use Rattle.std.proofs.Math.Nat.{min-le_right};
    ghost use Rattle.dt_edges.specs.Counts.{last_count};
    ghost use Rattle.dt_edges.specs.Sources.{source_in_memory};

    ghost sight = { source_in_memory };

    ghost bounded = { λ s. min-le_right s.faults last_count };

    /// Fails exactly where the number of this call is listed. Else it hands over as much as is left
    /// and the buffer holds, and the rest of the buffer stays.
    fn take(&mut self, buf: &mut [u8]) -> Result<usize, Failed>
        requires { 0 < length buf.old }
        ensures planned { IsErr result ↔ IsTrue (is_planned self.old.failing self.new.calls) }
        ensures most { IfOk result (λ n. n ≡ min (length buf.old) (length self.old.left)) }
        ensures octets { IfOk result (λ n. buf.new ≡ take n self.old.left ++ drop n buf.old) }
        ensures after { self.new ≡ source_after result self.old }
    {
        self.calls = self.calls.saturating_add(1);
        if fails(&self.failing, self.calls) {
            self.faults = self.faults.saturating_add(1);
            return Err(Failed);
        }
        let rest = &self.octets[self.next..];
        let count = buf.len().min(rest.len());
        buf[..count].copy_from_slice(&rest[..count]);
        self.next += count;
        Ok(count)
    }
}
