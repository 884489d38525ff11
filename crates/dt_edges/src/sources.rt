//! The trait for sources of octets, which fill a buffer and count the reads that fail.
ghost use Rattle.std.specs.Prelude.{◌<◌, ◌≤◌, length, IfOk};
ghost use Rattle.std.specs.Io.KnownBytes.{ReadConsumes};
ghost use Rattle.dt_edges.specs.Counts.{CountsFaults, last_count};
ghost use Rattle.dt_edges.specs.Sources.{SourceSight};

use crate::failures::Failed;

/// Where octets come from. A source keeps a count of its faults, which never falls and stands still
/// at 2^64 - 1.
pub trait Source {
    /// What contracts see: the octets that are left, where the source tells them, and how many takes
    /// failed.
    ghost sight: { Self → SourceSight };

    /// Hands over the next octets that are left, at most as many as the buffer holds, and says how
    /// many; they stand first in the buffer. `Ok(0)` is the end of input. An `Err` comes only where
    /// the count of faults rose in this call, and loses nothing that was left. What stands in the
    /// buffer after the octets that were handed over, or at an `Err`, is open.
    fn take(&mut self, buf: &mut [u8]) -> Result<usize, Failed>
        requires { 0 < length buf.old }
        ensures within { IfOk result (λ n. n ≤ length buf.old) }
        ensures handed { ReadConsumes (sight self.old).left (sight self.new).left result buf.new }
        ensures counted { CountsFaults result (sight self.old).faults (sight self.new).faults }
        ensures never_falls { (sight self.old).faults ≤ (sight self.new).faults };

    /// The count of faults is at most 2^64 - 1.
    ghost bounded: { (source : Self) → (sight source).faults ≤ last_count };
}
