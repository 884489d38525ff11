//! The text of a flow.
ghost use Rattle.std.specs.Prelude.{◌≡◌, ◌+◌, ◌<◌, ◌≤◌, ◌∷◌, ◌++◌, length, drop, decimal};
ghost use Rattle.dt_edges.specs.Sinks.{Puts};
ghost use Rattle.dt_log.specs.Words.{flow_text};

use dt_edges::{Failed, Sink, put_all};
use dt_units::Flow;
use itoa::write_digits;

/// How many octets a flow takes at most: two nodes of 10 digits, two ports of 5, and three marks.
const FLOW_ROOM: usize = 33;

/// Writes a number and a mark after it, so that the mark is the last octet before `end`, and says
/// where the number starts.
fn write_before(n: u64, mark: u8, text: &mut [u8], end: usize) -> usize
    requires room { length (decimal n) < end }
    requires within { end ≤ length text.old }
    ensures start { result + length (decimal n) + 1 ≡ end }
    ensures written { drop result text.new ≡ decimal n ++ mark ∷ drop end text.old }
{
    text[end - 1] = mark;
    write_digits(n, text, end - 1)
}

/// Writes a flow at the end of a text, and says where it starts.
#[tactic(auto, using(crate::proofs::Lengths::port_length, crate::proofs::Lengths::node_length), unfolding(crate::specs::Words::flow_text))]
fn write_flow(flow: &Flow, text: &mut [u8]) -> usize
    requires { FLOW_ROOM ≤ length text.old }
    ensures start { result ≤ length text.old }
    ensures long { length text.old ≤ result + FLOW_ROOM }
    ensures written { drop result text.new ≡ flow_text flow.now }
{
    let end = text.len();
    let at = write_digits(u64::from(flow.to_port), text, end);
    let at = write_before(u64::from(flow.to.0), b':', text, at);
    let at = write_before(u64::from(flow.from_port), b'>', text, at);
    write_before(u64::from(flow.from.0), b':', text, at)
}

/// Puts a flow as `a:p>b:q`, with the nodes a and b and the ports p and q. `Ok` has appended exactly
/// this text. `Failed` has appended a first part of it, and comes only where the sink's count of
/// faults rose. Takes no memory.
pub fn put_flow<K: Sink>(flow: &Flow, out: &mut K) -> Result<(), Failed>
    ensures { Puts K.sight (flow_text flow.now) result out.old out.new }
{
    let mut text = [0; FLOW_ROOM];
    let at = write_flow(flow, &mut text);
    put_all(&text[at..], out)
}
