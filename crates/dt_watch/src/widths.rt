//! The greatest width of an interval.
ghost use Rattle.std.specs.Prelude.{◌≡◌, ◌<◌, ◌^◌, max};

/// The greatest width of an interval in this span, and in the one before, in microseconds: 0 where it
/// had none.
#[derive(Clone, Copy)]
pub struct Widths {
    pub present: u64,
    pub former: u64,
    ghost present_bounded: { present < 2 ^ 50 },
    ghost former_bounded: { former < 2 ^ 50 },
}

impl Widths {
    /// No width.
    pub fn new() -> Widths
        ensures present { result.present ≡ 0 }
        ensures former { result.former ≡ 0 }
    {
        Widths {
            present: 0,
            former: 0,
        }
    }

    /// The interval has this width.
    pub fn widen(&mut self, width: u64)
        requires { width < 2 ^ 50 }
        ensures present { self.new.present ≡ max self.old.present width }
        ensures former { self.new.former ≡ self.old.former }
    {
        self.present = self.present.max(width);
    }

    /// A span ends.
    pub fn turn(&mut self)
        ensures present { self.new.present ≡ 0 }
        ensures former { self.new.former ≡ self.old.present }
    {
        self.former = self.present;
        self.present = 0;
    }

    /// The greatest of both spans.
    pub fn widest(&self) -> u64
        ensures value { result ≡ max self.now.present self.now.former }
        ensures most { result < 2 ^ 50 }
    {
        self.present.max(self.former)
    }
}
