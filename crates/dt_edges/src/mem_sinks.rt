//! A sink in memory with a fixed room and a list of the calls that fail.
ghost use Rattle.std.specs.Prelude.{◌≡◌, ◌==◌, ◌||◌, ◌-◌, ◌<◌, ◌≤◌, ◌↔◌, [], min, length, IfOk, IsErr, IsTrue};
ghost use Rattle.dt_edges.specs.Counts.{is_planned};
ghost use Rattle.dt_edges.specs.Sinks.{sink_after};

use crate::failures::Failed;
use crate::planning::{call_numbers, fails};
use crate::sinks::Sink;
use dt_items::NoMemory;
use std::alloc::Global;
use std::marker::Model;

/// A sink over memory that is taken when it is made. It tells what it holds, and fails where it is
/// told to or has no room.
#[derive(Drop)]
pub struct MemSink {
    octets: Vec<u8>,
    room: usize,
    failing: Vec<u64>,
    calls: u64,
    faults: u64,
}

impl Model for MemSink {
    ghost use Rattle.std.specs.Prelude.{◌≤◌, vec_len, vec_capacity};
    ghost use Rattle.dt_edges.specs.Sinks.{SinkInMemory};

    ghost Value = { SinkInMemory };

    ghost view = { λ s. record { held = s.octets.items; room = s.room; failing = s.failing.items; calls = s.calls; faults = s.faults } };

    ghost invariant = { λ s. (vec_len s.octets ≤ s.room) × (s.room ≤ vec_capacity s.octets) };
}

impl MemSink {
    /// A sink with room for this many octets, which is taken at once. `failing` lists the numbers of
    /// the puts that fail, the first of which is number 1. A put that finds no room fails too.
    pub fn new(alloc: Global, room: usize, failing: &[u32]) -> Result<Self, NoMemory>
        ensures { IfOk result (λ sink. sink ≡ record { held = []; room = room; failing = failing.now; calls = 0; faults = 0 }) }
    {
        Ok(MemSink {
            octets: Vec::with_capacity(alloc, room)?,
            room,
            failing: call_numbers(alloc, failing)?,
            calls: 0,
            faults: 0,
        })
    }

    /// The octets that the sink holds.
    pub fn as_slice(&self) -> &[u8]
        ensures { result.now ≡ self.now.held }
    {
        &self.octets
    }
}

impl Sink for MemSink {
    ghost use Rattle.std.proofs.Math.Nat.{min-le_right};
    ghost use Rattle.dt_edges.specs.Counts.{last_count};
    ghost use Rattle.dt_edges.specs.Sinks.{sink_in_memory};

    ghost sight = { sink_in_memory };

    ghost bounded = { λ s. min-le_right s.faults last_count };

    /// Fails exactly where the number of this call is listed or no room is left. Else it takes as much
    /// of the piece as there is room for.
    fn put(&mut self, piece: &[u8]) -> Result<usize, Failed>
        requires { 0 < length piece.now }
        ensures planned { IsErr result ↔ IsTrue (is_planned self.old.failing self.new.calls || (length self.old.held == self.old.room)) }
        ensures some { IfOk result (λ n. 0 < n) }
        ensures most { IfOk result (λ n. n ≡ min (length piece.now) (self.old.room - length self.old.held)) }
        ensures after { self.new ≡ sink_after result piece.now self.old }
    {
        self.calls = self.calls.saturating_add(1);
        let left = self.room - self.octets.len();
        if left == 0 || fails(&self.failing, self.calls) {
            self.faults = self.faults.saturating_add(1);
            return Err(Failed);
        }
        let count = piece.len().min(left);
        match self.octets.extend_from_slice(&piece[..count]) {
            Ok(()) => Ok(count),
            Err(_) => unreachable!(),
        }
    }
}
