//! The moments of a turn, which the wire and the clock of a machine share.
use std::cell::Cell;

/// What a wire and a clock tell each other, in nanoseconds: when a datagram was handed over that no
/// reading was taken for, and the last reading. So the moment of a turn is that at which its datagram was
/// found not to have waited too long, and what a turn gives is sent only while its moment isn't long
/// past, however long the machine held the program up in between.
#[derive(Drop)]
pub struct Moments {
    found: Cell<Option<u64>>,
    read: Cell<Option<u64>>,
}

impl Moments {
    /// Before any take and any reading.
    pub fn new() -> Self {
        Moments {
            found: Cell::new(None),
            read: Cell::new(None),
        }
    }

    /// Notes that a datagram was handed over.
    pub(crate) fn note_found(&self, now: u64) {
        self.found.set(Some(now));
    }

    /// When the last datagram was handed over, if no reading was taken since.
    pub(crate) fn take_found(&self) -> Option<u64> {
        let found = self.found.get();
        self.found.set(None);
        found
    }

    /// Notes a reading.
    pub(crate) fn note_read(&self, now: u64) {
        self.read.set(Some(now));
    }

    /// The last reading.
    pub(crate) fn last_read(&self) -> Option<u64> {
        self.read.get()
    }
}
