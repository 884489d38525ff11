//! What a line of the log is written as, and what else is put.
use dt_edges::{Failed, MemSink};
use dt_log::write_line;
use dt_reports::{Fault, LogLine, Report};
use std::alloc::Global;
use std::fmt::Display;

/// Whether a put into a sink with so much room ends so and leaves this text there.
pub fn leaves(
    alloc: Global,
    room: usize,
    put: fn(&mut MemSink) -> Result<(), Failed>,
    end: Result<(), Failed>,
    text: &[u8],
) -> bool
    requires { IsAlwaysCallable put }
{
    match MemSink::new(alloc, room, &[]) {
        Ok(mut sink) => put(&mut sink) == end && sink.as_slice() == text,
        Err(_) => false,
    }
}

/// Whether a line is written as this text.
pub fn is_line(alloc: Global, line: &LogLine<'_>, text: &[u8]) -> bool {
    match MemSink::new(alloc, 512, &[]) {
        Ok(mut sink) => write_line(line, &mut sink).is_ok() && sink.as_slice() == text,
        Err(_) => false,
    }
}

/// Whether the report of node 2 at moment 40 is written as this line.
pub fn is_written(alloc: Global, report: Report<'_>, text: &str) -> bool {
    let line = LogLine {
        moment: 40,
        node: Some(2),
        report,
    };
    is_line(alloc, &line, text.as_bytes())
}

/// Whether line 9 with this fault is written with this text.
pub fn is_refused(alloc: Global, fault: Fault, text: &str) -> bool {
    match format!(in alloc; "line 9: {text}\n") {
        Ok(line) => is_written(alloc, Report::Fault { line: 9, fault }, line.as_str()),
        Err(_) => false,
    }
}

/// Whether an error shows this text.
pub fn is_shown(alloc: Global, error: &impl Display, text: &str) -> bool {
    match error.to_string(alloc) {
        Ok(shown) => shown.as_str() == text,
        Err(_) => false,
    }
}
