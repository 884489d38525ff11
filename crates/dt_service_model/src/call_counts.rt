//! Counts of the messages that a service has dropped, one count for each cause.

/// How many messages were dropped, by cause: 2^64 - 1 each at most.
#[derive(Clone, Copy, Debug, PartialEq, Eq)]
pub struct CallCounts {
    /// Replies to calls of this life that have ended.
    pub late: u64,
    /// Messages at a caller with another life: replies to calls of a former start.
    pub old: u64,
    /// Messages at a caller with a number that no call of its flow had: above 0 it is an alarm, as a life
    /// was used before or two nodes have one number.
    pub strange: u64,
    /// Requests at a service whose name is open: above 0 it is an alarm, as a client's life was used before.
    pub reused: u64,
    /// Messages that had begun: at a run mark, at a new begin mark, or with the station's receiver.
    pub cut: u64,
    /// Messages above 65,536 octets.
    pub long: u64,
    /// Whole messages below eight octets.
    pub short: u64,
}
