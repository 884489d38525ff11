//! The trait for sinks of octets, and `put_all`, which writes all octets of a slice to a sink.
ghost use Rattle.std.specs.Prelude.{◌≡◌, ◌<◌, ◌≤◌, [], length, IfOk, IsOk};
ghost use Rattle.std.specs.Io.KnownBytes.{WriteAppends};
ghost use Rattle.dt_edges.specs.Counts.{CountsFaults, last_count};
ghost use Rattle.dt_edges.specs.Sinks.{SinkSight, Grows, Puts};

use crate::failures::Failed;

/// Where octets go to. A sink keeps a count of its faults, which never falls and stands still at
/// 2^64 - 1.
pub trait Sink {
    /// What contracts see: the octets that the sink holds, where it tells them, which of them have
    /// reached their end, how many puts failed, and which sink it is. A sink that passes its octets on to
    /// another that it borrows is named by that loan, which no put changes. Plain sinks have no name.
    ghost sight: { Self → SinkSight };

    /// Takes the first octets of the piece, one at least, and says how many. An `Err` comes only where
    /// the count of faults rose in this call, and nothing was taken. A sink that can't take an octet
    /// counts that as a fault.
    fn put(&mut self, piece: &[u8]) -> Result<usize, Failed>
        requires { 0 < length piece.now }
        ensures some { IfOk result (λ n. 0 < n) }
        ensures within { IfOk result (λ n. n ≤ length piece.now) }
        ensures taken { WriteAppends (sight self.old).held (sight self.new).held result piece.now }
        ensures reached { Grows (sight self.old).reached (sight self.new).reached }
        ensures counted { CountsFaults result (sight self.old).faults (sight self.new).faults }
        ensures never_falls { (sight self.old).faults ≤ (sight self.new).faults }
        ensures same_sink { (sight self.new).identity ≡ (sight self.old).identity };

    /// The count of faults is at most 2^64 - 1.
    ghost bounded: { (sink : Self) → (sight sink).faults ≤ last_count };
}

/// Puts all of the octets, again and again until they are taken. `Ok` has appended exactly these
/// octets. An `Err` has appended a first part of them, and comes only where the sink's count of
/// faults rose. No octets are put without a call: that is `Ok`, and leaves the sink as it was. Takes
/// no memory.
pub fn put_all<K: Sink>(bytes: &[u8], out: &mut K) -> Result<(), Failed>
    ensures puts { Puts K.sight bytes.now result out.old out.new }
    ensures empty { bytes.now ≡ [] → IsOk result }
    ensures untouched { bytes.now ≡ [] → out.new ≡ out.old }
{
    let mut rest = bytes;
    while !rest.is_empty() {
        let taken = out.put(rest)?;
        rest = &rest[taken..];
    }
    Ok(())
}
