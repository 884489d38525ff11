//! Words by themselves, and the cut of an input into lines.
use crate::forms::holds;
use dt_text::{
    Form, Line, RunLine, UserLine, decode_hex, is_hex, read_flow, read_line, read_number,
    split_line,
};
use dt_units::{Flow, NodeId};
use std::alloc::Global;

/// A word, the most that a number may be, and what it is read as.
static NUMBERS: [(&str, u64, &str); 11] = [
    ("0", 0, "Some(0)"),
    ("1", 0, "None"),
    (
        "18446744073709551615",
        18_446_744_073_709_551_615,
        "Some(18446744073709551615)",
    ),
    ("18446744073709551616", 18_446_744_073_709_551_615, "None"),
    ("99999999999999999999", 18_446_744_073_709_551_615, "None"),
    ("100000000000000000000", 18_446_744_073_709_551_615, "None"),
    ("184467440737095516150", 18_446_744_073_709_551_615, "None"),
    ("", 9, "None"),
    ("-", 9, "None"),
    ("00", 9, "None"),
    ("9 ", 9, "None"),
];

/// Whether a word is read as a number of at most that so.
fn is_number(alloc: Global, word: &str, most: u64, wanted: &str) -> bool {
    match format!(in alloc; "{:?}", read_number(word.as_bytes(), most)) {
        Ok(read) => read.as_str() == wanted,
        Err(_) => false,
    }
}

#[test]
fn numbers(rt: HostRuntime) {
    for (word, most, wanted) in &NUMBERS {
        holds(&rt, is_number(rt.alloc(), word, *most, wanted), word);
    }
}

/// A word, the most octets that may be spelled, and whether it spells some.
static SPELLED: [(&str, u32, bool); 7] = [
    ("00", 1, true),
    ("00", 0, false),
    ("0000", 1, false),
    ("", 1, false),
    ("0", 1, false),
    ("aF", 4_294_967_295, true),
    ("aG", 4_294_967_295, false),
];

#[test]
fn spelled_octets(rt: HostRuntime) {
    for (word, most, wanted) in &SPELLED {
        holds(&rt, is_hex(word.as_bytes(), *most) == *wanted, word);
    }
}

#[test]
fn flows(rt: HostRuntime) {
    let flow = Flow {
        from: NodeId(1),
        from_port: 10,
        to: NodeId(2),
        to_port: 20,
    };
    assert!(rt; read_flow(b"1:10>2:20") == Some(flow));
    assert!(rt; read_flow(b"1:10>2:").is_none());
}

/// Whether the octets that the digits of a line spell are put in the place of others.
fn is_decoded(line: &[u8], octets: &mut Vec<u8>) -> bool {
    match read_line(Form::Schedule, line) {
        Ok(Line::Run(RunLine::User(UserLine::Send { hex, .. }))) => decode_hex(hex, octets).is_ok(),
        _ => false,
    }
}

/// Whether what digits spell, also none, is put in the place of these octets.
fn are_decoded(octets: &mut Vec<u8>) -> bool {
    is_decoded(b"send 1:10>2:20 - 00ffFFa90A", octets)
        && octets.as_slice() == [0, 255, 255, 169, 10].as_slice()
        && decode_hex(b"", octets).is_ok()
        && octets.is_empty()
}

#[test]
fn hexadecimal_digits(rt: HostRuntime) {
    let mut octets = Vec::from_slice(rt.alloc(), b"gone").expect(&rt, "memory");
    assert!(rt; are_decoded(&mut octets));
}

/// Whether an input that isn't empty is cut into this first line and this rest.
fn is_split(input: &str, line: &str, rest: &str) -> bool {
    let octets = input.as_bytes();
    if octets.is_empty() {
        return false;
    }
    let (first, after) = split_line(octets);
    first == line.as_bytes() && after == rest.as_bytes()
}

/// An input, its first line, and its rest.
static INPUTS: [(&str, &str, &str); 5] = [
    ("go", "go", ""),
    ("go\n", "go", ""),
    ("go\n\n", "go", "\n"),
    ("\ngo", "", "go"),
    ("a\r\nb\nc", "a\r", "b\nc"),
];

#[test]
fn lines_of_an_input(rt: HostRuntime) {
    for (input, line, rest) in &INPUTS {
        holds(&rt, is_split(input, line, rest), input);
    }
}
