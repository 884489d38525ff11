//! Octets in hexadecimal digits.
ghost use Rattle.std.specs.Prelude.{◌≤◌, length};
ghost use Rattle.dt_edges.specs.Sinks.{Puts};
ghost use Rattle.dt_log.specs.Words.{hex_text};

use dt_edges::{Failed, Sink, put_all};
use hex::encode_to_slice;

/// How many octets are turned into digits at a time.
const PIECE: usize = 64;

/// Puts a few octets in hexadecimal digits.
fn put_piece<K: Sink>(octets: &[u8], out: &mut K) -> Result<(), Failed>
    requires { length octets.now ≤ PIECE }
    ensures { Puts K.sight (hex_text octets.now) result out.old out.new }
{
    let mut digits = [0; 2 * PIECE];
    let text = &mut digits[..2 * octets.len()];
    match encode_to_slice(octets, text) {
        Ok(()) => put_all(text, out),
        Err(_) => unreachable!(),
    }
}

/// Puts octets as pairs of hexadecimal digits in lower case, the high digit of each first. `Ok` has
/// appended exactly these digits. `Failed` has appended a first part of them, and comes only where
/// the sink's count of faults rose. Takes no memory. The cost is the count of octets.
pub fn put_hex<K: Sink>(octets: &[u8], out: &mut K) -> Result<(), Failed>
    ensures { Puts K.sight (hex_text octets.now) result out.old out.new }
{
    let mut rest = octets;
    while !rest.is_empty() {
        let (piece, more) = rest.split_at(rest.len().min(PIECE));
        put_piece(piece, out)?;
        rest = more;
    }
    Ok(())
}
