//! The times from which on the acts of a send record and of a receive record are due, one for each kind.

/// From when on each kind of act of a send record is due, if nothing else is called: readings of the
/// sending station's clock, in milliseconds. A kind that is due at no moment from now on has none. A
/// moment that has passed says that the kind is due now.
#[derive(Clone, Copy, PartialEq, Eq)]
pub struct SendMoments {
    /// `give` after the first transmission of the leftmost segment.
    pub give_up: Option<u64>,
    /// `send` after the record was touched, where nothing is outstanding.
    pub release: Option<u64>,
    /// `rto` after the last transmission of a segment that may go out again: the least such moment.
    pub resend: Option<u64>,
    /// 0, or `spacing` after the last crossing where the octets to come begin at one.
    pub send: Option<u64>,
    /// `probe` after the record was touched, where the window is used up and nothing is outstanding.
    pub meet: Option<u64>,
}

/// From when on each kind of act of a receive record is due, if nothing else is called: readings of
/// the receiving station's clock, in milliseconds. Without a record there is no moment.
#[derive(Clone, Copy, PartialEq, Eq)]
pub struct RecvMoments {
    /// `receive` after the last acceptance.
    pub release: Option<u64>,
    /// When the acknowledgement that is owed goes out.
    pub ack: Option<u64>,
}
