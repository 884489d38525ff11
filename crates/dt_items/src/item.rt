//! An octet of a flow with its three marks: message begin, message end and run.
ghost use Rattle.std.specs.Prelude.{◌≡◌, ◌%◌, nat_lt};
ghost use Rattle.dt_items.specs.Unmarked.{is_unmarked};

/// An octet of a flow with its marks. A message begins at a begin mark and ends with the next end
/// mark. A run mark says that the receiver doesn't know what stood before the octet.
#[derive(Clone, Copy)]
pub struct Item {
    pub octet: u8,
    /// The octet is the first of a message.
    pub begin: bool,
    /// The octet is the last of a message.
    pub end: bool,
    /// The octet is the first of a run, or follows octets that were passed over.
    pub run: bool,
}

impl Item {
    /// Its octet and its marks as one number, which is below 256 exactly where it has no mark. A machine
    /// reads it by one load, and many of them together, where the four fields would take four.
    pub(crate) fn whole(&self) -> u32
        ensures unmarked { nat_lt result 256 ≡ is_unmarked self.now }
        ensures octet { result % 256 ≡ self.now.octet }
    {
        let low = u32::from(self.octet) + 256 * u32::from(self.begin);
        low + 65536 * u32::from(self.end) + 16_777_216 * u32::from(self.run)
    }

    /// Whether it has none of the marks.
    pub fn is_unmarked(&self) -> bool
        ensures { result ≡ is_unmarked self.now }
    {
        self.whole() < 256
    }
}
