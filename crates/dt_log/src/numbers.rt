//! The text of a number.
ghost use Rattle.std.specs.Prelude.{decimal};
ghost use Rattle.dt_edges.specs.Sinks.{Puts};

use dt_edges::{Failed, Sink, put_all};
use itoa::Buffer;

/// Puts a number in decimal digits, without a leading zero. `Ok` has appended exactly these digits.
/// `Failed` has appended a first part of them, and comes only where the sink's count of faults rose.
/// Takes no memory.
pub fn put_number<K: Sink>(n: u64, out: &mut K) -> Result<(), Failed>
    ensures { Puts K.sight (decimal n) result out.old out.new }
{
    put_all(Buffer::new().format(n).as_bytes(), out)
}
