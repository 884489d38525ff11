//! The lines of a generated round that are a word and a number: passes, arrivals, losses and ticks.
ghost use Rattle.std.specs.Prelude.{flat_map};
ghost use Rattle.dt_edges.specs.Sinks.{Puts};
ghost use Rattle.dt_make.specs.Lines.{line_text};

use dt_edges::{Failed, Sink};
use dt_log::{Word, put_row};

/// A line of a round that is a word and a number.
#[derive(Clone, Copy)]
pub enum RoundLine {
    /// This many milliseconds pass.
    Pass(u32),
    /// The copy arrives.
    Arrive(u32),
    /// The copy is lost.
    Lose(u32),
    /// The station acts.
    Tick(u32),
}

/// Puts a line.
fn put_line<K: Sink>(line: RoundLine, out: &mut K) -> Result<(), Failed>
    ensures { Puts K.sight (line_text line) result out.old out.new }
{
    match line {
        RoundLine::Pass(span) => put_row(Word::Text("pass"), &[Word::Number(span)], &[], out),
        RoundLine::Arrive(copy) => put_row(Word::Text("arrive"), &[Word::Number(copy)], &[], out),
        RoundLine::Lose(copy) => put_row(Word::Text("lose"), &[Word::Number(copy)], &[], out),
        RoundLine::Tick(node) => put_row(Word::Text("tick"), &[Word::Number(node)], &[], out),
    }
}

/// Puts the lines, one after another.
pub fn put_lines<K: Sink>(lines: &[RoundLine], out: &mut K) -> Result<(), Failed>
    ensures { Puts K.sight (flat_map line_text lines.now) result out.old out.new }
{
    for line in lines {
        put_line(*line, out)?;
    }
    Ok(())
}
