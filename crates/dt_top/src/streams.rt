//! The objects that a run borrows: its input, its output, its wire and its clock.

/// What a run is lent: where its input comes from and where its output goes, the wire and the clock.
#[derive(Drop)]
pub struct Streams<'a, S, K, W, C> {
    /// Where the input comes from.
    pub source: &'a mut S,
    /// Where the output goes.
    pub out: &'a mut K,
    pub wire: &'a mut W,
    pub clock: &'a mut C,
}
