//! Runs that are run again.
use crate::trial_rows::holds;
use dt_edges::MemSink;
use dt_node::{NodeOutcome, retrace};
use std::alloc::Global;

/// A node that sends five octets and is acknowledged, and the trace of that.
const EXCHANGE: &[u8] = b"params 1000 3000 200 500 800 100 4096 4096 512 2147483648
me 1 first
local 127.0.0.1:4001
peer 1 127.0.0.1:4002 50 0
route 2 1
go
at 0 send 1:10>2:20 be 68656c6c6f
at 100 stop
trace
@ 1000
! 1
< 1 0101000e000003e7000000020000000102000014000a0000000500000ffb
@ 1040
< -
@ 1100
";

/// The log of it.
const LOG: &[u8] = b"0 1 took 1:10>2:20 5
0 1 sent 1:10>2:20 0 5 dbe
0 1 put 1 999
0 1 unsent 1
40 1 settled 1:10>2:20 5 4091
end 100
";

/// How long the script of it is.
const SCRIPT: usize = 176;

/// Whether a run into a sink ends so, with this log. The input has 1,000 octets at most.
fn ends_in(
    alloc: Global,
    out: &mut MemSink,
    input: &[u8],
    outcome: NodeOutcome,
    log: &[u8],
) -> bool {
    input.len() <= 1000 && retrace(alloc, input, out) == outcome && out.as_slice() == log
}

/// Whether it ends so, with this log.
fn ends(alloc: Global, input: &[u8], outcome: NodeOutcome, log: &[u8]) -> bool {
    match MemSink::new(alloc, 1000, &[]) {
        Ok(mut out) => ends_in(alloc, &mut out, input, outcome, log),
        Err(_) => false,
    }
}

#[test]
fn a_run_is_run_again(rt: HostRuntime) {
    assert!(rt; ends(rt.alloc(), EXCHANGE, NodeOutcome::Done, LOG));
}

/// Inputs that are refused, and what is written.
static REFUSALS: [(&[u8], &[u8]); 6] = [
    (b"", b"line 1: order\n"),
    (b"params 1\n", b"line 2: order\n"),
    (b"params 1\ntrace\n? 1\n", b"line 3: word\n"),
    (b"params 1\ntrace\n@ 1\n", b"line 1: count\n"),
    (b"trace\n@ 1\ntrace\n", b"line 3: word\n"),
    (b"\ntrace\n@ 1\n", b"line 2: order\n"),
];

#[test]
fn refusals_have_their_order(rt: HostRuntime) {
    for (place, (input, log)) in REFUSALS.iter().enumerate() {
        holds(
            &rt,
            ends(rt.alloc(), input, NodeOutcome::Refused, log),
            place,
        );
    }
}

/// Whether the log of an input that is cut off is what the rules say, of a run that goes on or is refused. Up to
/// the line `trace` it is refused. After a whole line the run goes as far as its inputs do. Else the last line
/// may be refused, or be read as another.
fn is_log_of(input: &[u8], runs: bool, log: &[u8]) -> bool {
    if input.len() < SCRIPT + 5 {
        !runs
    } else if input.ends_with(b"\n") {
        runs && LOG.starts_with(log)
    } else {
        runs || log.starts_with(b"line ")
    }
}

/// Whether what a cut input of 1,000 octets at most leads to is what the rules say.
fn is_cut_into(alloc: Global, out: &mut MemSink, input: &[u8]) -> bool {
    if input.len() > 1000 {
        return false;
    }
    match retrace(alloc, input, out) {
        NodeOutcome::Done | NodeOutcome::ClockStill => is_log_of(input, true, out.as_slice()),
        NodeOutcome::Refused => is_log_of(input, false, out.as_slice()),
        _ => false,
    }
}

fn is_cut(alloc: Global, input: &[u8]) -> bool {
    match MemSink::new(alloc, 1000, &[]) {
        Ok(mut out) => is_cut_into(alloc, &mut out, input),
        Err(_) => false,
    }
}

/// How many octets are left where the trace is cut off.
static CUTS: [usize; 8] = [
    0,
    100,
    SCRIPT,
    SCRIPT + 4,
    SCRIPT + 7,
    SCRIPT + 13,
    SCRIPT + 18,
    EXCHANGE.len() - 1,
];

#[test]
fn a_trace_may_be_cut_off(rt: HostRuntime) {
    for count in &CUTS {
        let is = match EXCHANGE.get(..*count) {
            Some(input) => is_cut(rt.alloc(), input),
            None => false,
        };
        holds(&rt, is, *count);
    }
}
