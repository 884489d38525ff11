//! The lines of a generated round.
ghost use Rattle.std.specs.Prelude.{◌+◌, ◌*◌, ◌≤◌, ◌<◌, ◌++◌, flat_map, codes};
ghost use Rattle.dt_edges.specs.Sinks.{Puts};
ghost use Rattle.dt_log.specs.Words.{hex_text};
ghost use Rattle.dt_make.specs.Draws.{length_of};
ghost use Rattle.dt_make.specs.Kinds.{lines_of};
ghost use Rattle.dt_make.specs.Lines.{line_text};
ghost use Rattle.dt_make.specs.Rounds.{message, send_text, round_lines};
ghost use Rattle.dt_make.specs.Schedules.{most_rounds};

use crate::draws::Draw;
use crate::round_kinds::RoundKind;
use crate::round_lines::RoundLine::{Arrive, Lose, Pass, Tick};
use crate::round_lines::put_lines;
use dt_edges::{Failed, Sink, put_all};
use dt_log::put_hex;

/// Puts the octets of a message, in digits.
fn put_message<K: Sink>(number: u32, length: u32, out: &mut K) -> Result<(), Failed>
    requires early { number < most_rounds }
    requires short { length ≤ 16 }
    ensures { Puts K.sight (hex_text (message number length)) result out.old out.new }
{
    for place in 0..length {
        put_hex(&[((number + place) % 256) as u8], out)?;
    }
    Ok(())
}

/// Puts the octets of a message, in digits, and a line feed.
#[tactic(auto, using(dt_edges::proofs::Puts::two_parts))]
fn put_ended_message<K: Sink>(number: u32, length: u32, out: &mut K) -> Result<(), Failed>
    requires early { number < most_rounds }
    requires short { length ≤ 16 }
    ensures { Puts K.sight (hex_text (message number length) ++ codes "\n") result out.old out.new }
{
    put_message(number, length, out)?;
    put_all(b"\n", out)
}

/// Puts the line by which a message is sent.
fn put_send<K: Sink>(number: u32, length: u32, out: &mut K) -> Result<(), Failed>
    requires early { number < most_rounds }
    requires short { length ≤ 16 }
    ensures { Puts K.sight (send_text (message number length)) result out.old out.new }
{
    put_all(b"send 1:10>2:20 be ", out)?;
    put_ended_message(number, length, out)
}

/// Puts what happens in a round whose first copy has this number.
fn put_events<K: Sink>(kind: RoundKind, first: u32, out: &mut K) -> Result<(), Failed>
    requires { first ≤ 3 * most_rounds }
    ensures { Puts K.sight (flat_map line_text (lines_of kind first)) result out.old out.new }
{
    let (second, third) = (first + 1, first + 2);
    match kind {
        RoundKind::Plain => put_lines(&[Pass(10), Arrive(first), Pass(10), Arrive(second)], out),
        RoundKind::Lost => put_lines(
            &[
                Lose(first),
                Pass(500),
                Tick(1),
                Pass(10),
                Arrive(second),
                Pass(10),
                Arrive(third),
            ],
            out,
        ),
        RoundKind::Twice => put_lines(
            &[
                Pass(10),
                Arrive(first),
                Arrive(first),
                Pass(10),
                Arrive(third),
                Arrive(second),
            ],
            out,
        ),
    }
}

/// Puts what happens in a round, and the line by which its message is read.
#[tactic(auto, using(dt_edges::proofs::Puts::two_parts))]
fn put_rest<K: Sink>(kind: RoundKind, first: u32, out: &mut K) -> Result<(), Failed>
    requires { first ≤ 3 * most_rounds }
    ensures { Puts K.sight (flat_map line_text (lines_of kind first) ++ codes "read 1:10>2:20 65536\n") result out.old out.new }
{
    put_events(kind, first, out)?;
    put_all(b"read 1:10>2:20 65536\n", out)
}

/// Puts a round: its number, what it is drawn from, and the number of its first copy.
pub fn put_round<K: Sink>(number: u32, draw: Draw, first: u32, out: &mut K) -> Result<(), Failed>
    requires early { number < most_rounds }
    requires few { first ≤ 3 * most_rounds }
    ensures { Puts K.sight (round_lines number draw.0 first) result out.old out.new }
{
    let (length, kind) = (draw.length(), draw.kind());
    put_send(number, length, out)?;
    put_rest(kind, first, out)
}
