//! The text of each fault.
use crate::forms::holds;
use crate::writing::{is_refused, is_shown, is_written};
use dt_layout::LayoutFault;
use dt_reports::{Fault, LineFault, Report, SetupFault, StepFault};
use dt_units::{Field, ParamFault};
use std::alloc::Global;
use std::fmt::Display;

/// The faults of a line by itself.
static LINE_FAULTS: [(LineFault, &str); 6] = [
    (LineFault::Word, "word"),
    (LineFault::Count, "count"),
    (LineFault::Number, "number"),
    (LineFault::Flow, "flow"),
    (LineFault::Hex, "hex"),
    (LineFault::Order, "order"),
];

/// Those of a line of a setup.
static SETUP_FAULTS: [(SetupFault, &str); 4] = [
    (SetupFault::Twice { n: 1 }, "twice 1"),
    (SetupFault::Unknown { n: 2 }, "unknown 2"),
    (SetupFault::Stray { n: 3 }, "stray 3"),
    (SetupFault::NoMemory, "out of memory"),
];

/// Those of an event.
static STEP_FAULTS: [(StepFault, &str); 6] = [
    (StepFault::BadFlow, "bad flow"),
    (StepFault::NoStation { n: 9 }, "no station 9"),
    (StepFault::NoCopy { n: 7 }, "no copy 7"),
    (StepFault::Lost { n: 0 }, "lost 0"),
    (
        StepFault::TooLate {
            held: 1001,
            charge: 1000,
        },
        "too late 1001 1000",
    ),
    (StepFault::NoMemory, "out of memory"),
];

/// Whether a fault is written in its line, and shown, as this text.
fn has_text(alloc: Global, fault: Fault, error: &impl Display, text: &str) -> bool {
    is_refused(alloc, fault, text) && is_shown(alloc, error, text)
}

#[test]
fn each_fault_of_a_line_has_its_text(rt: HostRuntime) {
    for (fault, text) in &LINE_FAULTS {
        let is = has_text(rt.alloc(), Fault::Line(*fault), fault, text);
        holds(&rt, is, text);
    }
}

#[test]
fn each_fault_of_a_setup_has_its_text(rt: HostRuntime) {
    for (fault, text) in &SETUP_FAULTS {
        let is = has_text(rt.alloc(), Fault::Setup(*fault), fault, text);
        holds(&rt, is, text);
    }
}

#[test]
fn each_fault_of_an_event_has_its_text(rt: HostRuntime) {
    for (fault, text) in &STEP_FAULTS {
        let is = has_text(rt.alloc(), Fault::Step(*fault), fault, text);
        holds(&rt, is, text);
    }
}

/// The parameters, each with the value 1 that it may not have.
static FIELDS: [(Field, &str); 10] = [
    (Field::Mpl, "param mpl 1"),
    (Field::R, "param r 1"),
    (Field::A, "param a 1"),
    (Field::Rto, "param rto 1"),
    (Field::Probe, "param probe 1"),
    (Field::Seg, "param seg 1"),
    (Field::Cap, "param cap 1"),
    (Field::Rcap, "param rcap 1"),
    (Field::Window, "param window 1"),
    (Field::RunLimit, "param run_limit 1"),
];

#[test]
fn each_parameter_has_its_name(rt: HostRuntime) {
    for (field, text) in &FIELDS {
        let fault = ParamFault {
            field: *field,
            value: 1,
        };
        let is = is_refused(rt.alloc(), Fault::Param(fault), text);
        holds(&rt, is, text);
    }
}

/// The faults of octets that don't read.
static LAYOUT_FAULTS: [(LayoutFault, &str); 9] = [
    (LayoutFault::Short { len: 15 }, "short 15"),
    (LayoutFault::Version { octet: 3 }, "version 3"),
    (
        LayoutFault::Length {
            told: 8207,
            there: 0,
        },
        "length 8207 0",
    ),
    (LayoutFault::Dead, "dead"),
    (LayoutFault::Protocol { octet: 0 }, "protocol 0"),
    (LayoutFault::Kind { octet: 4 }, "kind 4"),
    (LayoutFault::Flags { octet: 255 }, "flags 255"),
    (LayoutFault::Window { value: 65_537 }, "window 65537"),
    (LayoutFault::Size { len: 8193 }, "size 8193"),
];

/// Whether octets that don't read have their line, and show their text.
fn is_told(alloc: Global, fault: &LayoutFault, text: &str) -> bool {
    match format!(in alloc; "40 2 bad {text}\n") {
        Ok(line) => {
            is_written(alloc, Report::Bad { fault: *fault }, line.as_str())
                && is_shown(alloc, fault, text)
        }
        Err(_) => false,
    }
}

#[test]
fn octets_that_do_not_read_have_their_line(rt: HostRuntime) {
    for (fault, text) in &LAYOUT_FAULTS {
        holds(&rt, is_told(rt.alloc(), fault, text), text);
    }
}
