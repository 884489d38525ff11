//! A trace, read line by line.
ghost use Rattle.std.specs.Prelude.{◌≡◌, ◌+◌, ◌∷◌, ◌++◌, [], length, Some, OnOk, IfOk, IsTrue};
ghost use Rattle.std.specs.Option.{option_map};
ghost use Rattle.dt_text.specs.Hexadecimal.{are_pairs, octets_of_hex};
ghost use Rattle.dt_trace.specs.Lines.{HasPairs, input_of, input_seen};
ghost use Rattle.dt_trace.specs.Traces.{Notes, Reads, clock_of, is_placed, last_number, noted, nothing, taken_seen, trace_of, wire_of};

use crate::taken_datagrams::TakenDatagram;
use crate::trace_faults::TraceFault;
use crate::trace_lines::{TraceLine, read_line};
use crate::trace_refusals::TraceRefusal;
use dt_edges::{MemClock, MemWire};
use dt_items::NoMemory;
use dt_reports::LineFault;
use dt_text::{decode_hex, split_line};
use std::alloc::Global;
use std::marker::Model;

/// What a run of a node took in: the readings of its clock in ms, what the takes found that answered,
/// the numbers of the takes and of the gives that failed, of which the first is 1, and whether `open`
/// failed.
#[derive(Drop)]
pub struct Trace {
    readings: Vec<u64>,
    takes: Vec<Option<TakenDatagram>>,
    failing_takes: Vec<u64>,
    failing_gives: Vec<u64>,
    open_fails: bool,
}

impl Model for Trace {
    ghost use Rattle.std.specs.Prelude.{map};
    ghost use Rattle.std.specs.Option.{option_map};
    ghost use Rattle.dt_trace.specs.Traces.{Recorded, taken_seen};

    ghost Value = { Recorded };

    ghost view = { λ t. record {
      readings = t.readings.items;
      takes = map (option_map taken_seen) t.takes.items;
      failing_takes = t.failing_takes.items;
      failing_gives = t.failing_gives.items;
      open_fails = t.open_fails;
    } };
}

/// A datagram with the octets that the pairs of hexadecimal digits spell.
fn taken(alloc: Global, link: u8, hex: &[u8]) -> Result<TakenDatagram, NoMemory>
    requires { IsTrue (are_pairs hex.now) }
    ensures { IfOk result (λ taken. taken_seen taken ≡ record { link = link; octets = octets_of_hex hex.now }) }
{
    let mut octets = Vec::new(alloc);
    decode_hex(hex, &mut octets)?;
    Ok(TakenDatagram { link, octets })
}

/// Adds what a take found to what the takes of a wire find.
fn add_found(found: &Option<TakenDatagram>, wire: &mut MemWire) -> Result<(), NoMemory>
    ensures { OnOk result (wire.new ≡ record wire.old { entries = wire.old.entries ++ option_map taken_seen found.now ∷ [] }) }
{
    match found {
        Some(taken) => wire.add_take(u16::from(taken.link), &taken.octets),
        None => wire.add_nothing(),
    }
}

impl Trace {
    /// A trace without lines.
    fn new(alloc: Global) -> Self
        ensures { result ≡ nothing }
    {
        Trace {
            readings: Vec::new(alloc),
            takes: Vec::new(alloc),
            failing_takes: Vec::new(alloc),
            failing_gives: Vec::new(alloc),
            open_fails: false,
        }
    }

    /// Whether what the line with this number says may stand there.
    fn is_placed(&self, line: u64, said: &TraceLine<'_>) -> bool
        ensures { result ≡ is_placed line self.now (input_seen said.now) }
    {
        match said {
            TraceLine::Failure(0) => line == 1,
            TraceLine::Failure(number) => self.failing_gives.last().copied().unwrap_or(0) < *number,
            _ => true,
        }
    }

    /// Notes what a line says.
    fn add(&mut self, alloc: Global, said: &TraceLine<'_>) -> Result<(), NoMemory>
        requires { HasPairs said.now }
        ensures { OnOk result (self.new ≡ noted self.old (input_seen said.now)) }
    {
        match *said {
            TraceLine::Reading(reading) => self.readings.push(reading)?,
            TraceLine::Nothing => self.takes.push(None)?,
            TraceLine::Datagram { link, hex } => self.takes.push(Some(taken(alloc, link, hex)?))?,
            TraceLine::FailedTake => {
                let number = (self.takes.len() + self.failing_takes.len()) as u64 + 1;
                self.failing_takes.push(number)?;
            }
            TraceLine::Failure(0) => self.open_fails = true,
            TraceLine::Failure(number) => self.failing_gives.push(number)?,
        }
        Ok(())
    }

    /// Reads the line with this number, and notes what it says.
    fn add_line(&mut self, alloc: Global, line: u64, bytes: &[u8]) -> Result<(), TraceRefusal>
        ensures { Notes line (input_of bytes.now) result self.old self.new }
    {
        let said = read_line(bytes)?;
        if !self.is_placed(line, &said) {
            return Err(TraceRefusal::Line(LineFault::Order));
        }
        self.add(alloc, &said)?;
        Ok(())
    }

    /// A wire on which the takes find what is recorded, one after another and then nothing, and on
    /// which exactly those calls fail that are recorded: it has no room that gives could lack. Takes
    /// memory for all of it. The cost is what is recorded.
    pub fn wire(&self, alloc: Global) -> Result<MemWire, NoMemory>
        ensures { IfOk result (λ wire. wire ≡ wire_of self.now) }
    {
        let mut wire = MemWire::new(
            alloc,
            self.open_fails,
            &self.failing_takes,
            &self.failing_gives,
            None,
        )?;
        for take in &self.takes {
            add_found(take, &mut wire)?;
        }
        Ok(wire)
    }

    /// A clock that gives the readings that are recorded, and then the last one again and again; 0
    /// where there is none. Takes memory for them.
    pub fn clock(&self, alloc: Global) -> Result<MemClock, NoMemory>
        ensures { IfOk result (λ clock. clock ≡ clock_of self.now) }
    {
        if self.readings.is_empty() {
            MemClock::new(alloc, &[0])
        } else {
            MemClock::new(alloc, &self.readings)
        }
    }
}

/// Reads the lines of a trace. What follows the last line feed is a line
/// too, unless it is empty; no line is blank.
///
/// - `Line`: the first line that is refused, by its number, and why: `Word` where its first word is
///   none of `@`, `<` and `!`, `Count` for its number of words, `Number` and `Hex` for the others from
///   left to right, and `Order` where `! 0` isn't the first line, or another `! N` isn't above those
///   before it.
/// - `NoMemory`: there was none for what is recorded.
///
/// The cost is the input.
pub fn read_trace(alloc: Global, bytes: &[u8]) -> Result<Trace, TraceFault>
    ensures { Reads (λ trace. trace) result (trace_of bytes.now) }
{
    let mut trace = Trace::new(alloc);
    let mut rest = bytes;
    let mut number = 1;
    while !rest.is_empty() {
        let (line, more) = split_line(rest);
        match trace.add_line(alloc, number, line) {
            Ok(()) => (),
            Err(TraceRefusal::Line(fault)) => {
                return Err(TraceFault::Line {
                    line: number,
                    fault,
                });
            }
            Err(TraceRefusal::NoMemory) => return Err(TraceFault::NoMemory),
        }
        rest = more;
        number += 1;
    }
    Ok(trace)
}
