//! Trials with how each ends.
use dt_edges::MemWire;
use dt_trial::{Trial, ends, is_cut_short, tried_over};
use std::alloc::Global;
use std::process::Abort;

/// A trial, and how it ends: its status, its output and what is said on standard error.
pub(crate) struct TrialRow {
    pub trial: Trial<'static>,
    pub status: u8,
    pub out: &'static [u8],
    pub said: &'static [u8],
}

/// What the row at a place says holds.
pub(crate) fn holds(rt: &impl Abort, is: bool, place: usize) {
    assert!(rt; is, "row {place}");
}

/// Whether the trial is run, and ends so.
pub(crate) fn ends_so(
    alloc: Global,
    trial: &Trial<'_>,
    status: u8,
    out: &[u8],
    said: &[u8],
) -> bool {
    ends(alloc, trial, status, out, said) == Ok(true)
}

/// What is said where an input is served or refused, or a wire or a clock fails.
pub(crate) fn said_of(status: u8) -> &'static [u8] {
    match status {
        0 => b"",
        5 => b"wire failed\n",
        6 => b"clock stands still\n",
        _ => b"input refused\n",
    }
}

/// Whether the trial is run over a wire, and ends with this status, what is said of it, and this output.
pub(crate) fn ends_over(
    alloc: Global,
    trial: &Trial<'_>,
    wire: &mut MemWire,
    status: u8,
    out: &str,
) -> bool {
    match tried_over(alloc, trial, wire) {
        Ok(left) => left.has(status, out.as_bytes(), said_of(status)),
        Err(_) => false,
    }
}

/// The place of the first of these trials that ends otherwise than its row says.
pub(crate) fn first_other(alloc: Global, rows: &[TrialRow]) -> Option<usize> {
    for (place, row) in rows.iter().enumerate() {
        if !ends_so(alloc, &row.trial, row.status, row.out, row.said) {
            return Some(place);
        }
    }
    None
}

/// Whether the trial ends at its first read and at its second one, where that fails.
pub(crate) fn is_read_in_vain(alloc: Global, trial: &Trial<'_>) -> bool {
    for failing_reads in &[[1], [2]] {
        let failing = Trial {
            failing_reads,
            ..*trial
        };
        if !ends_so(alloc, &failing, 7, b"", b"read failed\n") {
            return false;
        }
    }
    true
}

/// Whether the trial is cut off at each room below that for what it writes.
pub(crate) fn is_cut_off(alloc: Global, trial: &Trial<'_>, whole: &[u8]) -> bool {
    for room in 0..whole.len() {
        let less = Trial {
            out_room: room,
            ..*trial
        };
        if is_cut_short(alloc, &less, whole) != Ok(true) {
            return false;
        }
    }
    true
}
