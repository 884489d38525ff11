//! Traces, written and read.
use crate::forms::holds;
use crate::writing::leaves;
use dt_edges::{Address, Clock, Failed, MemClock, MemSink, MemWire, Wire};
use dt_reports::LineFault;
use dt_trace::{Input, Trace, TraceFault, put_input, read_trace};
use std::alloc::Global;

/// Puts an input of each kind.
fn put_inputs(out: &mut MemSink) -> Result<(), Failed> {
    let inputs = [
        Input::FailedOpen,
        Input::Reading(u64::MAX),
        Input::FailedGive(1),
        Input::taken(Some((1, 2)), &[10, 255, 7]),
        Input::taken(Some((255, 0)), &[10]),
        Input::taken(None, &[]),
        Input::FailedTake,
    ];
    for input in &inputs {
        put_input(input, out)?;
    }
    Ok(())
}

#[test]
fn lines_are_written(rt: HostRuntime) {
    let text = b"! 0\n@ 18446744073709551615\n! 1\n< 1 0aff\n< 255\n< -\n< x\n";
    assert!(rt; leaves(rt.alloc(), 256, put_inputs, Ok(()), text));
}

/// A trace of readings, of what takes found and of gives that failed.
const TRACE: &str = "@ 1000\n! 2\n< 1 0aFF\n@ 1040\n< -\n! 7\n< 255\n< x\n@ 5";

/// Where a node of it listens.
const LOCAL: Address = Address {
    ip: [127, 0, 0, 1],
    port: 4000,
};

/// Whether a clock has these readings.
fn has_readings(clock: &mut MemClock, readings: &[u64]) -> bool {
    for reading in readings {
        if clock.now() != *reading {
            return false;
        }
    }
    true
}

/// Whether the clock of a trace has these readings.
fn is_clock(alloc: Global, trace: &Trace, readings: &[u64]) -> bool {
    match trace.clock(alloc) {
        Ok(mut clock) => has_readings(&mut clock, readings),
        Err(_) => false,
    }
}

/// The same of a trace that is read first.
fn reads(alloc: Global, text: &str, readings: &[u64]) -> bool {
    match read_trace(alloc, text.as_bytes()) {
        Ok(trace) => is_clock(alloc, &trace, readings),
        Err(_) => false,
    }
}

#[test]
fn readings_are_read(rt: HostRuntime) {
    assert!(rt; reads(rt.alloc(), TRACE, &[1000, 1040, 5, 5]));
}

/// Whether the wire of a trace passes a trial.
fn is_wire(alloc: Global, trace: &Trace, passes: fn(&mut MemWire) -> bool) -> bool
    requires { IsAlwaysCallable passes }
{
    match trace.wire(alloc) {
        Ok(mut wire) => passes(&mut wire),
        Err(_) => false,
    }
}

/// The same of a trace that is read first.
fn goes(alloc: Global, text: &str, passes: fn(&mut MemWire) -> bool) -> bool
    requires { IsAlwaysCallable passes }
{
    match read_trace(alloc, text.as_bytes()) {
        Ok(trace) => is_wire(alloc, &trace, passes),
        Err(_) => false,
    }
}

/// What each take of the wire finds.
static TAKES: [Result<Option<(u16, usize)>, Failed>; 5] = [
    Ok(Some((1, 2))),
    Ok(None),
    Ok(Some((255, 0))),
    Err(Failed),
    Ok(None),
];

/// Whether a take finds this, and the first of these octets stand in its buffer then.
fn takes(
    wire: &mut MemWire,
    buffer: &mut [u8; 4],
    found: &Result<Option<(u16, usize)>, Failed>,
) -> bool {
    wire.take(1, buffer) == *found && buffer.starts_with(&[10, 255])
}

/// Whether the takes of a wire that is opened find what the trace says.
fn takes_all(wire: &mut MemWire) -> bool {
    let mut buffer = [0; 4];
    if wire.open(LOCAL, &[]).is_err() {
        return false;
    }
    for found in &TAKES {
        if !takes(wire, &mut buffer, found) {
            return false;
        }
    }
    true
}

#[test]
fn takes_are_read(rt: HostRuntime) {
    assert!(rt; goes(rt.alloc(), TRACE, takes_all));
}

/// Whether the second give alone fails, once the wire is opened.
fn gives_all(wire: &mut MemWire) -> bool {
    wire.open(LOCAL, &[]).is_ok()
        && wire.give(1, &[1]).is_ok()
        && wire.give(1, &[1]).is_err()
        && wire.give(1, &[1]).is_ok()
}

#[test]
fn gives_are_read(rt: HostRuntime) {
    assert!(rt; goes(rt.alloc(), TRACE, gives_all));
}

/// Whether a wire doesn't open.
fn stays_shut(wire: &mut MemWire) -> bool {
    wire.open(LOCAL, &[]).is_err()
}

#[test]
fn an_empty_trace_reads_zero(rt: HostRuntime) {
    assert!(rt; reads(rt.alloc(), "! 0\n", &[0]));
    assert!(rt; goes(rt.alloc(), "! 0\n", stays_shut));
}

/// A trace, the line at which it is refused, and the fault.
static REFUSED: [(&str, u64, LineFault); 20] = [
    ("? 1\n", 1, LineFault::Word),
    ("@ 1\n\n@ 2\n", 2, LineFault::Word),
    ("# @ 1\n", 1, LineFault::Word),
    ("@\n", 1, LineFault::Count),
    ("@ 1 2\n", 1, LineFault::Count),
    ("@ 01\n", 1, LineFault::Number),
    ("@ 18446744073709551616\n", 1, LineFault::Number),
    ("<\n", 1, LineFault::Count),
    ("< - 00\n", 1, LineFault::Count),
    ("< x 00\n", 1, LineFault::Count),
    ("< 256\n", 1, LineFault::Number),
    ("< y 0\n", 1, LineFault::Number),
    ("< 1 0\n", 1, LineFault::Hex),
    ("< 1 \n", 1, LineFault::Hex),
    ("< 1 00 00\n", 1, LineFault::Count),
    ("! 1\n! 1\n", 2, LineFault::Order),
    ("! 2\n@ 0\n! 1\n", 3, LineFault::Order),
    ("@ 1\n! 0\n", 2, LineFault::Order),
    ("! 0\n! 0\n", 2, LineFault::Order),
    ("! -1\n", 1, LineFault::Number),
];

/// Whether a trace is refused at this line for this fault.
fn is_refused(alloc: Global, text: &str, line: u64, fault: LineFault) -> bool {
    match read_trace(alloc, text.as_bytes()) {
        Err(found) => found == TraceFault::Line { line, fault },
        Ok(_) => false,
    }
}

#[test]
fn lines_are_refused(rt: HostRuntime) {
    for (text, line, fault) in &REFUSED {
        holds(&rt, is_refused(rt.alloc(), text, *line, *fault), text);
    }
}
