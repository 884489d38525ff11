//! What a row says is asserted, and told where it fails.
use std::process::Abort;

/// Asserted of the row that this text names.
pub fn holds(rt: &impl Abort, is: bool, row: &str) {
    assert!(rt; is, "{row}");
}

/// Asserted of one number beside another.
pub fn holds_at(rt: &impl Abort, is: bool, one: usize, other: usize) {
    assert!(rt; is, "{one} beside {other}");
}
