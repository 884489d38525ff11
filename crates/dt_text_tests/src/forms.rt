//! The rows of a text and their parts, and how a line is read.
use dt_text::{Form, read_line};
use std::alloc::Global;
use std::process::Abort;

/// Asserts of each row of a text that it holds.
pub fn all_hold(rt: &impl Abort, alloc: Global, rows: &str, test: fn(Global, &str) -> bool)
    requires { IsAlwaysCallable test }
{
    for row in rows.split('\n') {
        holds(rt, test(alloc, row), row);
    }
}

/// Asserts what is said of a row.
pub fn holds(rt: &impl Abort, is: bool, row: &str) {
    assert!(rt; is, "{row}");
}

/// The three parts of a row, between which stand bars. A part that isn't there is empty.
pub fn parts(row: &str) -> (&str, &str, &str) {
    let (first, rest) = row.split_once('|').unwrap_or((row, ""));
    let (second, third) = rest.split_once('|').unwrap_or((rest, ""));
    (first, second, third)
}

/// The form that a letter stands for: the script of a node, calls, or a schedule.
pub fn form_of(letter: &str) -> Form {
    match letter {
        "n" => Form::Script,
        "c" => Form::Calls,
        _ => Form::Schedule,
    }
}

/// Whether what a line is read as begins with this text.
pub fn is_read_as(alloc: Global, form: Form, line: &[u8], wanted: &str) -> bool {
    match format!(in alloc; "{:?}", read_line(form, line)) {
        Ok(said) => !wanted.is_empty() && said.as_str().starts_with(wanted),
        Err(_) => false,
    }
}

/// The same of a line with a text in the place of each `*`.
pub fn is_read_with(alloc: Global, form: Form, line: &str, text: &str, wanted: &str) -> bool {
    match line.replace(alloc, '*', text) {
        Ok(line) => is_read_as(alloc, form, line.as_bytes(), wanted),
        Err(_) => false,
    }
}

/// Whether the line of a row is read as the row says: a form, a line, and how that reads.
pub fn is_read(alloc: Global, row: &str) -> bool {
    let (form, line, wanted) = parts(row);
    is_read_as(alloc, form_of(form), line.as_bytes(), wanted)
}

/// The text that is wanted of a fault, by its letter: `-` of none.
pub fn fault_text(letter: u8) -> &'static str {
    match letter {
        b'-' => "Ok(",
        b'c' => "Err(Count)",
        b'n' => "Err(Number)",
        b'f' => "Err(Flow)",
        b'h' => "Err(Hex)",
        _ => "Err(Word)",
    }
}
