//! What is written of a run, and how far it has come.
ghost use Rattle.std.specs.Prelude.{◌≡◌, [], OnOk};
ghost use Rattle.dt_trace.specs.Written.{input_written};
ghost use Rattle.dt_trace.specs.Inputs.{input_text};
ghost use Rattle.dt_node.specs.Logging.{Gathers, Notes, NotesBehind, shown, shown_behind};

use crate::output_forms::OutputForm;
use dt_edges::{Buffer, Buffered, Failed, Sink};
use dt_trace::{Input, put_input};

/// The form of what is written, and how many frames were given. The count stands still at 2^64 - 1.
#[derive(Clone, Copy)]
pub struct Writer {
    pub form: OutputForm,
    pub gives: u64,
}

impl Writer {
    /// Writes the line of an input where the form has one.
    pub fn note<K: Sink>(self, input: &Input<'_>, out: &mut K) -> Result<(), Failed>
        ensures { Notes K.sight self.form (input_written input.now) result out.old out.new }
    {
        match self.form {
            OutputForm::Log => Ok(()),
            OutputForm::Trace => put_input(input, out),
        }
    }
}

/// Puts the line of an input, by what the sink shows.
fn put_line<K: Sink>(input: &Input<'_>, out: &mut K) -> Result<(), Failed>
    ensures gathers { Gathers (input_text (input_written input.now)) result (shown (K.sight out.old)) (shown (K.sight out.new)) }
    ensures same_sink { (K.sight out.new).identity ≡ (K.sight out.old).identity }
{
    put_input(input, out)
}

/// Gathers the line of an input in a buffer.
fn gather<K: Sink>(input: &Input<'_>, out: &mut K, buffer: &mut Buffer) -> Result<(), Failed>
    ensures { Gathers (input_text (input_written input.now)) result (shown_behind (K.sight out.old) buffer.old) (shown_behind (K.sight out.new) buffer.new) }
{
    let mut gathered = Buffered { out, buffer };
    put_line(input, &mut gathered)
}

/// A writer, and the lines that wait to be put on the sink.
#[derive(Drop)]
pub struct Recorder {
    pub writer: Writer,
    pub buffer: Buffer,
}

impl Recorder {
    /// Writes the line of an input where the form has one, and puts it on the sink. No line waits before
    /// it.
    pub fn note<K: Sink>(&mut self, input: &Input<'_>, out: &mut K) -> Result<(), Failed>
        requires { self.old.buffer ≡ [] }
        ensures notes { NotesBehind self.old.writer.form (input_written input.now) result (K.sight out.old) (K.sight out.new) }
        ensures empty { OnOk result (self.new.buffer ≡ []) }
        ensures same { self.new.writer ≡ self.old.writer }
    {
        match self.writer.form {
            OutputForm::Log => Ok(()),
            OutputForm::Trace => {
                gather(input, out, &mut self.buffer)?;
                self.buffer.pass_on(out)
            }
        }
    }
}
