//! Numbers, flows and octets.
use crate::writing::leaves;
use dt_edges::{Failed, MemSink};
use dt_log::{put_flow, put_hex, put_number};
use dt_units::{Flow, NodeId};

static FLOW: Flow = Flow {
    from: NodeId(0),
    from_port: 65_535,
    to: NodeId(4_294_967_295),
    to_port: 1,
};

/// Puts numbers, a flow and octets one after the other.
fn put_values(sink: &mut MemSink) -> Result<(), Failed> {
    put_number(0, sink)?;
    put_number(18_446_744_073_709_551_615, sink)?;
    put_flow(&FLOW, sink)?;
    put_hex(b"", sink)?;
    put_hex(b"\x00\x9a\xff", sink)
}

#[test]
fn values_are_written(rt: HostRuntime) {
    let text = b"0184467440737095516150:65535>4294967295:1009aff";
    assert!(rt; leaves(rt.alloc(), 512, put_values, Ok(()), text));
}

static OCTETS: [u8; 130] = [0xa5; 130];

/// Two digits for each of the octets.
static DIGITS: [[u8; 2]; 130] = [*b"a5"; 130];

fn put_octets(sink: &mut MemSink) -> Result<(), Failed> {
    put_hex(&OCTETS, sink)
}

#[test]
fn many_octets_are_written(rt: HostRuntime) {
    assert!(rt; leaves(rt.alloc(), 512, put_octets, Ok(()), DIGITS.as_flattened()));
}

fn put_digits(sink: &mut MemSink) -> Result<(), Failed> {
    put_number(12_345, sink)
}

#[test]
fn a_number_that_does_not_fit_is_written_in_part(rt: HostRuntime) {
    assert!(rt; leaves(rt.alloc(), 4, put_digits, Err(Failed), b"1234"));
}

fn put_one_flow(sink: &mut MemSink) -> Result<(), Failed> {
    put_flow(&FLOW, sink)
}

#[test]
fn a_flow_that_does_not_fit_is_written_in_part(rt: HostRuntime) {
    assert!(rt; leaves(rt.alloc(), 9, put_one_flow, Err(Failed), b"0:65535>4"));
}
