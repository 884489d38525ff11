//! The least and the greatest number at each place of each line, and how many words and digits a line
//! may have.
use crate::forms::{all_hold, fault_text, holds, is_read, is_read_with};
use dt_text::Form;
use std::alloc::Global;
use std::process::Abort;

/// What a line is read as with a number in the place of its `*`: with the least and the greatest, and with two that
/// have a fault.
type Ends = &'static [(&'static str, &'static str)];

/// A number of 32 bits.
const NUMBER: Ends = &[
    ("Ok", "0"),
    ("Ok", "4294967295"),
    ("Err(Number)", "-1"),
    ("Err(Number)", "4294967296"),
];

/// A link, or an octet of an address.
const OCTET: Ends = &[
    ("Ok", "0"),
    ("Ok", "255"),
    ("Err(Number)", "-1"),
    ("Err(Number)", "256"),
];

/// The charge or the pace of a link.
const SPAN: Ends = &[
    ("Ok", "0"),
    ("Ok", "86400000"),
    ("Err(Number)", "-1"),
    ("Err(Number)", "86400001"),
];

/// How much is read.
const MOST: Ends = &[
    ("Ok", "1"),
    ("Ok", "65536"),
    ("Err(Number)", "0"),
    ("Err(Number)", "65537"),
];

/// A node of a flow.
const NODE: Ends = &[
    ("Ok", "0"),
    ("Ok", "4294967295"),
    ("Err(Flow)", "-1"),
    ("Err(Flow)", "4294967296"),
];

/// A port of a flow.
const FLOW_PORT: Ends = &[
    ("Ok", "0"),
    ("Ok", "65535"),
    ("Err(Flow)", "-1"),
    ("Err(Flow)", "65536"),
];

/// The room of a shelf.
const ROOM: Ends = &[
    ("Ok", "1"),
    ("Ok", "64"),
    ("Err(Number)", "0"),
    ("Err(Number)", "65"),
];

/// The port of an address.
const PORT: Ends = &[
    ("Ok", "0"),
    ("Ok", "65535"),
    ("Err(Number)", "-1"),
    ("Err(Number)", "65536"),
];

/// Each number of each kind of line but `params`: a form, the ends, and lines with the number at `*`.
static ENDS: [(Form, Ends, &[&str]); 15] = [
    (
        Form::Schedule,
        NUMBER,
        &[
            "station * 0",
            "station 0 *",
            "link 1 * 2 0 0",
            "link 1 1 * 0 0",
            "route * 2 1",
            "route 1 * 1",
            "pass *",
            "tick *",
            "arrive *",
            "lose *",
            "restart *",
        ],
    ),
    (Form::Schedule, OCTET, &["link * 1 2 0 0", "route 1 2 *"]),
    (Form::Schedule, SPAN, &["link 1 1 2 * 0", "link 1 1 2 0 *"]),
    (Form::Schedule, MOST, &["read 1:10>2:20 *"]),
    (
        Form::Schedule,
        NODE,
        &[
            "send *:10>2:20 be 61",
            "send 1:10>*:20 be 61",
            "read *:10>2:20 1",
            "read 1:10>*:20 1",
        ],
    ),
    (
        Form::Schedule,
        FLOW_PORT,
        &[
            "send 1:*>2:20 be 61",
            "send 1:10>2:* be 61",
            "read 1:*>2:20 1",
            "read 1:10>2:* 1",
        ],
    ),
    (
        Form::Script,
        NUMBER,
        &[
            "me * first",
            "route * 1",
            "at * send 1:10>2:20 - 61",
            "at * read 1:10>2:20 1",
            "at * stop",
        ],
    ),
    (Form::Script, OCTET, &["peer * 1.2.3.4:5 0 0", "route 2 *"]),
    (
        Form::Script,
        SPAN,
        &["peer 1 1.2.3.4:5 * 0", "peer 1 1.2.3.4:5 0 *"],
    ),
    (Form::Script, MOST, &["at 0 read 1:10>2:20 *"]),
    (Form::Script, ROOM, &["shelf *"]),
    (
        Form::Script,
        OCTET,
        &[
            "local *.2.3.4:5",
            "local 1.*.3.4:5",
            "local 1.2.*.4:5",
            "local 1.2.3.*:5",
            "peer 1 *.2.3.4:5 0 0",
            "peer 1 1.*.3.4:5 0 0",
            "peer 1 1.2.*.4:5 0 0",
            "peer 1 1.2.3.*:5 0 0",
        ],
    ),
    (
        Form::Script,
        PORT,
        &["local 1.2.3.4:*", "peer 1 1.2.3.4:* 0 0"],
    ),
    (
        Form::Script,
        NODE,
        &[
            "at 0 send *:10>2:20 b 61",
            "at 0 send 1:10>*:20 b 61",
            "at 0 read *:10>2:20 1",
            "at 0 read 1:10>*:20 1",
        ],
    ),
    (
        Form::Script,
        FLOW_PORT,
        &[
            "at 0 send 1:*>2:20 b 61",
            "at 0 send 1:10>2:* b 61",
            "at 0 read 1:*>2:20 1",
            "at 0 read 1:10>2:* 1",
        ],
    ),
];

/// Whether a line is read so with each of these ends.
fn has_ends(alloc: Global, form: Form, ends: Ends, line: &str) -> bool {
    for (wanted, number) in ends {
        if !is_read_with(alloc, form, line, number, wanted) {
            return false;
        }
    }
    true
}

/// Asserts that each line is read so with each of these ends.
fn all_have_ends(rt: &impl Abort, alloc: Global, form: Form, ends: Ends, lines: &[&str]) {
    for line in lines {
        holds(rt, has_ends(alloc, form, ends, line), line);
    }
}

#[test]
fn the_ends_of_numbers(rt: HostRuntime) {
    for (form, ends, lines) in &ENDS {
        all_have_ends(&rt, rt.alloc(), *form, *ends, lines);
    }
}

/// A form, `params` with so many numbers, and what that is read as.
const COUNTS: &str = "s|params|Err(Count)
s|params 1|Err(Count)
s|params 1 1 1 1 1 1 1 1 1|Err(Count)
s|params 1 1 1 1 1 1 1 1 1 1|Ok(
s|params 1 1 1 1 1 1 1 1 1 1 1|Ok(
s|params 1 1 1 1 1 1 1 1 1 1 1 1|Err(Count)
s|params 1 1 1 1 1 1 1 1 1 1 1 1 1|Err(Count)
s|params 1 1 1 1 1 1 1 1 1 1 1 1 1 1 1 1 1 1 1 1 1 1 1 1 1 1 1 1 1 1 1 1 1 1 1 1 1 1 1 1 1 1 1 1 1 1 1 1 1 1 1 1 1 1 1 1 1 1 1 1 1 1 1 1 1 1 1 1 1 1 1 1 1 1 1 1 1 1 1 1 1 1 1 1 1 1 1 1 1 1 1 1 1 1 1 1 1 1 1 1|Err(Count)
n|params|Err(Count)
n|params 1|Err(Count)
n|params 1 1 1 1 1 1 1 1 1|Err(Count)
n|params 1 1 1 1 1 1 1 1 1 1|Ok(
n|params 1 1 1 1 1 1 1 1 1 1 1|Ok(
n|params 1 1 1 1 1 1 1 1 1 1 1 1|Err(Count)
n|params 1 1 1 1 1 1 1 1 1 1 1 1 1|Err(Count)
n|params 1 1 1 1 1 1 1 1 1 1 1 1 1 1 1 1 1 1 1 1 1 1 1 1 1 1 1 1 1 1 1 1 1 1 1 1 1 1 1 1 1 1 1 1 1 1 1 1 1 1 1 1 1 1 1 1 1 1 1 1 1 1 1 1 1 1 1 1 1 1 1 1 1 1 1 1 1 1 1 1 1 1 1 1 1 1 1 1 1 1 1 1 1 1 1 1 1 1 1 1|Err(Count)";

#[test]
fn ten_and_eleven_parameters(rt: HostRuntime) {
    all_hold(&rt, rt.alloc(), COUNTS, is_read);
}

/// Ten and eleven parameters, with a number at `*`.
const PARAMS: &str = "params * 1 1 1 1 1 1 1 1 1
params 1 * 1 1 1 1 1 1 1 1
params 1 1 * 1 1 1 1 1 1 1
params 1 1 1 * 1 1 1 1 1 1
params 1 1 1 1 * 1 1 1 1 1
params 1 1 1 1 1 * 1 1 1 1
params 1 1 1 1 1 1 * 1 1 1
params 1 1 1 1 1 1 1 * 1 1
params 1 1 1 1 1 1 1 1 * 1
params 1 1 1 1 1 1 1 1 1 *
params * 1 1 1 1 1 1 1 1 1 1
params 1 * 1 1 1 1 1 1 1 1 1
params 1 1 * 1 1 1 1 1 1 1 1
params 1 1 1 * 1 1 1 1 1 1 1
params 1 1 1 1 * 1 1 1 1 1 1
params 1 1 1 1 1 * 1 1 1 1 1
params 1 1 1 1 1 1 * 1 1 1 1
params 1 1 1 1 1 1 1 * 1 1 1
params 1 1 1 1 1 1 1 1 * 1 1
params 1 1 1 1 1 1 1 1 1 * 1
params 1 1 1 1 1 1 1 1 1 1 *";

/// The ends of a parameter.
static PARAM: Ends = NUMBER;

/// Whether a line has these ends in both forms that have parameters.
fn has_both_ends(alloc: Global, line: &str) -> bool {
    has_ends(alloc, Form::Schedule, PARAM, line) && has_ends(alloc, Form::Script, PARAM, line)
}

#[test]
fn the_greatest_parameters(rt: HostRuntime) {
    all_hold(&rt, rt.alloc(), PARAMS, has_both_ends);
}

/// Two digits for each octet: at most 65,536 octets are sent, and 65,528 are called with. A form, a line
/// with the digits at `*`, their count, and the letter of the fault.
static DIGITS: [(Form, &str, usize, u8); 6] = [
    (Form::Schedule, "send 1:10>2:20 - *", 131_072, b'-'),
    (Form::Schedule, "send 1:10>2:20 - *", 131_073, b'h'),
    (Form::Schedule, "send 1:10>2:20 - *", 131_074, b'h'),
    (Form::Schedule, "send 1:10>2:20 - *", 5_000_001, b'h'),
    (Form::Calls, "call 1:10>2:20 *", 131_056, b'-'),
    (Form::Calls, "call 1:10>2:20 *", 131_058, b'h'),
];

/// Whether a line with so many digits is read so.
fn is_read_at(alloc: Global, form: Form, line: &str, count: usize, fault: u8) -> bool {
    match "6".repeat(alloc, count) {
        Ok(digits) => is_read_with(alloc, form, line, digits.as_str(), fault_text(fault)),
        Err(_) => false,
    }
}

#[test]
fn the_most_digits(rt: HostRuntime) {
    for (form, line, count, fault) in &DIGITS {
        assert!(rt;
            is_read_at(rt.alloc(), *form, line, *count, *fault),
            "{count}"
        );
    }
}
