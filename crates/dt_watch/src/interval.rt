//! The interval in which a clock is, at a reading of another.
ghost use Rattle.std.specs.Prelude.{◌≡◌, ◌<◌, ◌≤◌, ◌^◌, IfSome, None, max};
ghost use Rattle.dt_watch.specs.Intervals.{is_possible, widened};

use crate::clock_bounds::ClockBounds;
use crate::lower::Lower;
use crate::readings::{Bound, Reading};
use crate::upper::Upper;
use crate::widths::Widths;

/// The readings of a datagram: its sender's when it was made, the one of the receiver's clock that had surely
/// passed then, 0 where none is known, and the receiver's when it came.
#[derive(Clone, Copy)]
pub struct Passage {
    pub made: Reading,
    pub sure: Reading,
    pub came: Reading,
}

/// Where this clock is at a reading of a peer's, by the datagrams of one opening of it, and how wide that
/// interval was.
#[derive(Clone, Copy)]
pub struct Interval {
    pub lower: Lower,
    pub upper: Upper,
    pub widths: Widths,
}

impl Interval {
    ghost use Rattle.dt_watch.specs.Intervals.{lower_seen, upper_seen};
    ghost use Rattle.dt_watch.specs.Lower.{lower_at, turned};
    ghost use Rattle.dt_watch.specs.Upper.{upper_at};

    /// Nothing was seen.
    pub fn new(bounds: ClockBounds) -> Interval
        ensures lower { result.lower ≡ record { bounds = bounds; present = None; former = None } }
        ensures upper { result.upper ≡ record { bounds = bounds; present = None; former = None } }
        ensures widths { max result.widths.present result.widths.former ≡ 0 }
    {
        Interval {
            lower: Lower::new(bounds),
            upper: Upper::new(bounds),
            widths: Widths::new(),
        }
    }

    /// A datagram came. `false` where the interval is empty then, beyond the grain: a clock stood, was set or
    /// drifts too much, and nothing of this opening can be believed any more.
    pub fn see(&mut self, passage: &Passage) -> bool
        ensures lower { self.new.lower ≡ lower_seen self.old.lower passage.now }
        ensures upper { self.new.upper ≡ upper_seen self.old.upper passage.now }
        ensures possible { result ≡ is_possible (upper_at self.new.upper passage.now.made.micros) (lower_at self.new.lower passage.now.made.micros) }
        ensures widest { self.new.widths.present ≡ widened self.old.widths.present passage.now.sure.micros (upper_at self.new.upper passage.now.made.micros) (lower_at self.new.lower passage.now.made.micros) }
        ensures former { self.new.widths.former ≡ self.old.widths.former }
    {
        self.bound(passage);
        let least = self.lower.at(passage.made);
        match self.upper.at(passage.made) {
            Some(most) => {
                if passage.sure.micros != 0 && least != 0 {
                    self.widths.widen(most.saturating_sub(least));
                }
                least <= most
            }
            None => true,
        }
    }

    /// Both bounds of a datagram are seen.
    fn bound(&mut self, passage: &Passage)
        ensures lower { self.new.lower ≡ lower_seen self.old.lower passage.now }
        ensures upper { self.new.upper ≡ upper_seen self.old.upper passage.now }
        ensures widths { self.new.widths ≡ self.old.widths }
    {
        if passage.sure.micros != 0 {
            self.lower.see(Bound {
                reading: passage.sure,
                at: passage.made,
            });
        }
        self.upper.see(Bound {
            reading: passage.came,
            at: passage.made,
        });
    }

    /// A span ends: the bounds and the width of the one before it are forgotten.
    pub fn turn(&mut self)
        ensures lower { self.new.lower ≡ record self.old.lower { present = None; former = turned self.old.lower.present self.old.lower.former } }
        ensures upper { self.new.upper ≡ record self.old.upper { present = None; former = turned self.old.upper.present self.old.upper.former } }
        ensures present { self.new.widths.present ≡ 0 }
        ensures former { self.new.widths.former ≡ self.old.widths.present }
    {
        self.lower.turn();
        self.upper.turn();
        self.widths.turn();
    }

    /// How long, in microseconds, stops are counted that weren't seen: the greatest width of this span and of
    /// the one before.
    pub fn uncertain(&self) -> u64
        ensures value { result ≡ max self.now.widths.present self.now.widths.former }
        ensures most { result < 2 ^ 51 }
    {
        self.widths.widest()
    }
}
