//! Runs are played as their rows say.
use crate::node_inputs::{datagram, script};
use crate::node_rows::{ACKNOWLEDGED, FAILURES, LOGS, SHELVES, TRACES};
use crate::trial_rows::holds;
use dt_edges::{MemClock, MemSink, MemWire};
use dt_node::{NodeOutcome, serve, serve_traced};
use std::alloc::Global;
use std::process::Abort;

/// The parts of a row.
#[derive(Clone, Copy)]
struct Row<'a> {
    script: &'a str,
    readings: &'a str,
    takes: &'a str,
    fails: &'a str,
    outcome: &'a str,
    gives: &'a str,
    text: &'a str,
}

fn row_of(text: &str) -> Row<'_> {
    let mut parts = text.split('|');
    Row {
        script: parts.next().unwrap_or(""),
        readings: parts.next().unwrap_or(""),
        takes: parts.next().unwrap_or(""),
        fails: parts.next().unwrap_or(""),
        outcome: parts.next().unwrap_or(""),
        gives: parts.next().unwrap_or(""),
        text: parts.next().unwrap_or(""),
    }
}

/// The number of the call of a kind that fails: `take 2` is the second take.
fn failing(kind: &str, fails: &str) -> Option<[u64; 1]> {
    match fails.split_once(' ') {
        Some((of, number)) if of == kind => Some([number.parse::<u64>().ok()?]),
        _ => None,
    }
}

fn numbers_of(failing: &Option<[u64; 1]>) -> &[u64] {
    match failing {
        Some(number) => number,
        None => &[],
    }
}

/// A wire on which nothing comes.
fn calm_wire(alloc: Global, fails: &str) -> Option<MemWire> {
    let take = failing("take", fails);
    let give = failing("give", fails);
    MemWire::new(
        alloc,
        fails == "open",
        numbers_of(&take),
        numbers_of(&give),
        Some(1000),
    )
    .ok()
}

/// Whether the datagrams of these names are to come on the wire.
fn are_added(wire: &mut MemWire, takes: &str) -> bool {
    for name in takes.split(',') {
        let is_added = match datagram(name) {
            Some(octets) => wire.add_take(1, octets).is_ok(),
            None => name != "-" || wire.add_nothing().is_ok(),
        };
        if !is_added {
            return false;
        }
    }
    true
}

/// Whether each of these readings is read, and finds memory.
fn are_read(moments: &mut Vec<u64>, readings: &str) -> bool {
    for reading in readings.split(' ') {
        let is_read = match reading.parse::<u64>() {
            Ok(moment) => moments.push(moment).is_ok(),
            Err(_) => false,
        };
        if !is_read {
            return false;
        }
    }
    true
}

/// A clock with these readings.
fn clock_of(alloc: Global, readings: &str) -> Option<MemClock> {
    let mut moments = Vec::new(alloc);
    if are_read(&mut moments, readings) && !moments.is_empty() {
        MemClock::new(alloc, &moments).ok()
    } else {
        None
    }
}

/// Runs a script for its log, or for its trace.
fn run(
    alloc: Global,
    traced: bool,
    script: &[u8],
    wire: &mut MemWire,
    clock: &mut MemClock,
    out: &mut MemSink,
) -> NodeOutcome {
    if script.len() > 1000 {
        return NodeOutcome::NoMemory;
    }
    if traced {
        serve_traced(alloc, script, wire, clock, out)
    } else {
        serve(alloc, script, wire, clock, out)
    }
}

/// Whether an outcome has this name.
fn is_named(outcome: NodeOutcome, name: &str) -> bool {
    match outcome {
        NodeOutcome::Done => name == "done",
        NodeOutcome::Refused => name == "refused",
        NodeOutcome::WireFault => name == "wire",
        NodeOutcome::ClockStill => name == "still",
        NodeOutcome::WriteFault => name == "write",
        NodeOutcome::NoMemory => false,
    }
}

/// Whether octets are a text in which each line ends with `;`.
fn are_lines(octets: &[u8], text: &str) -> bool {
    let mut wanted = text.as_bytes().iter();
    for octet in octets {
        let shown = if *octet == b'\n' { b';' } else { *octet };
        if wanted.next() != Some(&shown) {
            return false;
        }
    }
    wanted.next().is_none()
}

/// Whether the datagram of a number that the wire took is the one of this name, or there is none.
fn is_given(wire: &MemWire, number: usize, name: &str) -> bool {
    match (wire.given(number), datagram(name)) {
        (Some((link, octets)), Some(wanted)) => link == 1 && octets == wanted,
        (found, wanted) => found.is_none() && wanted.is_none(),
    }
}

/// Whether the wire took the datagrams of these names, if names are there.
fn are_given(wire: &MemWire, names: &str) -> bool {
    names.is_empty()
        || names
            .split(',')
            .enumerate()
            .all(|(number, name)| is_given(wire, number, name))
}

/// What a run goes over.
#[derive(Drop)]
struct Forms {
    wire: MemWire,
    clock: MemClock,
    out: MemSink,
}

impl Forms {
    /// The wire and the clock of a row, and a sink of so much room.
    fn new(alloc: Global, row: &Row<'_>, room: usize) -> Option<Forms> {
        Some(Forms {
            wire: calm_wire(alloc, row.fails)?,
            clock: clock_of(alloc, row.readings)?,
            out: MemSink::new(alloc, room, &[]).ok()?,
        })
    }

    /// Whether the run of a row ends as it says.
    fn end(&mut self, alloc: Global, traced: bool, row: &Row<'_>) -> bool {
        let Forms { wire, clock, out } = self;
        let script = script(row.script).as_bytes();
        are_added(wire, row.takes)
            && is_named(run(alloc, traced, script, wire, clock, out), row.outcome)
            && are_lines(out.as_slice(), row.text)
            && are_given(wire, row.gives)
    }
}

/// Whether a run ends as its row says, with a sink of so much room.
fn ends(alloc: Global, traced: bool, row: &Row<'_>, room: usize) -> bool {
    match Forms::new(alloc, row, room) {
        Some(mut forms) => forms.end(alloc, traced, row),
        None => false,
    }
}

/// Each row ends as it says.
fn end(rt: &impl Abort, alloc: Global, traced: bool, rows: &str) {
    for text in rows.split('\n') {
        let is = ends(alloc, traced, &row_of(text), 1000);
        assert!(rt; is, "{text}");
    }
}

#[test]
fn each_node_hears_the_other(rt: HostRuntime) {
    end(&rt, rt.alloc(), false, LOGS);
}

#[test]
fn failures_and_a_still_clock_are_told(rt: HostRuntime) {
    end(&rt, rt.alloc(), false, FAILURES);
}

#[test]
fn data_that_came_too_early_are_handed_in_again(rt: HostRuntime) {
    end(&rt, rt.alloc(), false, SHELVES);
}

#[test]
fn a_trace_has_what_came_and_what_failed(rt: HostRuntime) {
    end(&rt, rt.alloc(), true, TRACES);
}

/// With each room that is less than the log, the run ends with as much of it.
#[test]
fn a_full_sink_ends_the_run(rt: HostRuntime) {
    let row = row_of(ACKNOWLEDGED);
    for room in 0..row.text.len() {
        let cut = Row {
            outcome: "write",
            text: row.text.get(..room).unwrap_or(""),
            ..row
        };
        holds(&rt, ends(rt.alloc(), false, &cut, room), room);
    }
}

/// The line on standard output for a wire that didn't open doesn't fit.
#[test]
fn a_full_sink_ends_a_trace(rt: HostRuntime) {
    let row = row_of("first|1000 1040 1100|ack,-|open|write||! 0");
    assert!(rt; ends(rt.alloc(), true, &row, 3));
}
