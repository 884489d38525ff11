//! The answers to an arriving packet: the receiver's action on data, and the host's reply to any packet.

/// What a receiver does with a packet: the outcome of its table of cases.
#[derive(Clone, Copy)]
pub enum Action {
    /// Nothing.
    Drop,
    /// Accepts the octets as a new run, and makes the record.
    Make,
    /// Replies with the packet's own number.
    TellNumber,
    /// Replies with the number that is expected.
    TellExpected,
    /// Accepts the octets, which are the next ones.
    Accept,
    /// Accepts the octets as a new run: those before them were passed over.
    Skip,
    /// Tells that a closing packet came, and changes nothing.
    Close,
}

/// What a host answers to a packet that came.
#[derive(Clone, Copy, PartialEq, Eq)]
pub enum Arrived {
    /// Nothing: the host is silent until this moment of its clock, in milliseconds.
    Quiet { until: u64 },
    /// `count` octets were accepted, 1 to 8,192, as a new run or following the ones before.
    Accepted { run: bool, count: u32 },
    /// An acknowledgement goes out at once, with this number and the free room of the queue, 0 to
    /// 65,536 octets.
    Replied { number: u32, window: u32 },
    /// Nothing.
    Dropped,
    /// `count` octets were acknowledged, 0 to 65,536.
    Acked { count: u32 },
    /// A closing packet says that no more octets of its run follow: its number is the one that is
    /// expected. Nothing changes.
    Closing { number: u32 },
}
