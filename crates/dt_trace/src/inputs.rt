//! What a run of a node takes in.
ghost use Rattle.std.specs.Prelude.{◌≡◌, ◌≤◌, IfSome, Some, length};
ghost use Rattle.dt_edges.specs.Sinks.{Puts};
ghost use Rattle.dt_edges.specs.Wires.{handed};
ghost use Rattle.dt_trace.specs.Inputs as inputs;
ghost use Rattle.dt_trace.specs.Inputs.{input_text};
ghost use Rattle.dt_trace.specs.Written.{input_written};

use dt_edges::{Failed, Sink};
use dt_log::{Word, put_row};

/// What a run of a node takes in from its clock and its wire.
#[derive(Clone, Copy)]
pub enum Input<'a> {
    /// A reading of the clock, in ms.
    Reading(u64),
    /// A take found nothing.
    Nothing,
    /// A take found a datagram of a link.
    Datagram { link: u16, octets: &'a [u8] },
    /// A take failed.
    FailedTake,
    /// The give of this number failed, of which the first is 1.
    FailedGive(u64),
    /// `open` failed.
    FailedOpen,
}

impl<'a> Input<'a> {
    /// What a take found: nothing, or a datagram of a link, of as many octets as that, which stand
    /// first in the buffer.
    pub fn taken(found: Option<(u16, usize)>, buffer: &'a [u8]) -> Self
        requires { IfSome found (λ d. d.1 ≤ length buffer.now) }
        ensures { input_written result ≡ inputs.Taken (handed found buffer.now) }
    {
        match found {
            None => Input::Nothing,
            Some((link, len)) => Input::Datagram {
                link,
                octets: &buffer[..len],
            },
        }
    }
}

/// Puts the line of an input. `Ok` has appended exactly this line. `Failed` has appended a first part
/// of it, and comes only where the sink's count of faults rose. Takes no memory.
pub fn put_input<K: Sink>(input: &Input<'_>, out: &mut K) -> Result<(), Failed>
    ensures { Puts K.sight (input_text (input_written input.now)) result out.old out.new }
{
    match *input {
        Input::Reading(reading) => put_row(Word::Text("@"), &[Word::Long(reading)], &[], out),
        Input::Nothing => put_row(Word::Text("<"), &[], &[Word::Text("-")], out),
        Input::Datagram { link, octets } => put_datagram(link, octets, out),
        Input::FailedTake => put_row(Word::Text("<"), &[], &[Word::Text("x")], out),
        Input::FailedGive(number) => put_row(Word::Text("!"), &[Word::Long(number)], &[], out),
        Input::FailedOpen => put_row(Word::Text("!"), &[Word::Long(0)], &[], out),
    }
}

/// Puts the line of a datagram.
fn put_datagram<K: Sink>(link: u16, octets: &[u8], out: &mut K) -> Result<(), Failed>
    ensures { Puts K.sight (input_text (inputs.Taken (Some (record { link = link; octets = octets.now })))) result out.old out.new }
{
    let link = Word::Number(u32::from(link));
    if octets.is_empty() {
        put_row(Word::Text("<"), &[link], &[], out)
    } else {
        put_row(Word::Text("<"), &[link], &[Word::Hex(octets)], out)
    }
}
