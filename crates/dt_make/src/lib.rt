//! The generator: it writes schedules of any number of rounds, that a replay serves whole. Nothing
//! here takes memory.
#![tactic(auto)]

ghost use Rattle.std.specs.Prelude.{◌≤◌, flat_map};
ghost use Rattle.std.specs.List.{range_with_len};
ghost use Rattle.dt_edges.specs.Sinks.{Puts};
ghost use Rattle.dt_make.specs.Schedules.{make_text, most_rounds, round_text};

mod draws;
mod round_kinds;
mod round_lines;
mod rounds;

use crate::draws::{Draw, next_x};
use crate::rounds::put_round;
use dt_edges::{Failed, Sink, put_all};

/// The most rounds of a schedule.
pub const MOST_ROUNDS: u32 = 50_000;

/// The setup of the worked schedules.
const SETUP: &[u8] = b"params 1000 3000 200 500 800 100 4096 4096 512 2147483648
station 1 0
station 2 0
link 1 1 2 50 0
link 2 2 1 50 0
route 1 2 1
route 2 1 2
go
";

/// Puts the first n rounds, one after another.
fn put_rounds<K: Sink>(n: u32, out: &mut K) -> Result<(), Failed>
    requires { n ≤ most_rounds }
    ensures { Puts K.sight (flat_map round_text (range_with_len 0 n)) result out.old out.new }
{
    let mut x = 1;
    let mut copies = 0;
    for number in 0..n {
        x = next_x(x);
        let draw = Draw::of(x);
        put_round(number, draw, copies, out)?;
        copies += draw.kind().copies();
    }
    Ok(())
}

/// Writes the schedule of n rounds: the setup of two stations and one link each way, and then the
/// rounds. In each a message of 1 to 16 octets is sent from port 10 of node 1 to port 20 of node 2,
/// its packets and the acknowledgements arrive, in some rounds after a loss, twice or in the other
/// order, and the message is read. A number has one schedule. n is from 1 to 50,000.
///
/// `Ok` has appended exactly the schedule. `Failed` has appended a first part of it, and comes only
/// where the sink's count of faults rose. Takes no memory. The cost is what is written, at most
/// 144 octets a round.
pub fn make<K: Sink>(n: u32, out: &mut K) -> Result<(), Failed>
    requires some { 1 ≤ n }
    requires most { n ≤ most_rounds }
    ensures { Puts K.sight (make_text n) result out.old out.new }
{
    put_all(SETUP, out)?;
    put_rounds(n, out)
}
