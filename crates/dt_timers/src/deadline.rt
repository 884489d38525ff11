//! A deadline in a table: a time, and the number of the place that has this time.

/// A moment and the place that it stands in.
#[derive(Clone, Copy)]
pub struct Deadline {
    pub moment: u64,
    pub place: usize,
}
