//! What is known of the clocks of one opening of a peer and of this end.
ghost use Rattle.std.specs.Prelude.{◌≡◌, ◌<◌, ◌^◌, false};
ghost use Rattle.dt_watch.specs.Clockings.{is_over, span_of};

use crate::clock_bounds::ClockBounds;
use crate::interval::{Interval, Passage};
use crate::lower::Lower;
use crate::readings::{Bound, Reading};

/// When spans of an opening began, by this clock.
#[derive(Clone, Copy)]
pub struct Spans {
    /// When the first datagram of the opening came, or the first one after a silence.
    pub since: Reading,
    /// When the last one came.
    pub last: Reading,
    /// When the span of what was heard of the peer's clock began.
    pub heard: Reading,
    /// When the span of the interval began.
    pub interval: Reading,
}

/// What is known of the clocks of one opening of a peer and of this end.
#[derive(Clone, Copy)]
pub struct Clocks {
    /// What the peer's clock has surely passed, at readings of this one.
    pub heard: Lower,
    /// Where this clock is, at readings of the peer's.
    pub interval: Interval,
    /// The interval was empty once: nothing of the opening is believed any more.
    pub is_broken: bool,
    pub spans: Spans,
}

/// A span of the interval that began then has 16 s, and at first as much as was over since `since`, 0.25 s at
/// least: what the first datagrams were delayed by is soon forgotten.
fn span_of(since: Reading, began: Reading) -> u64
    ensures value { result ≡ span_of since.micros began.micros }
    ensures most { result < 2 ^ 25 }
{
    let age = began.micros.saturating_sub(since.micros);
    age.clamp(250_000, 16_000_000)
}

/// Whether more than `span` is over since then.
fn is_over(since: Reading, came: Reading, span: u64) -> bool
    requires { span < 2 ^ 25 }
    ensures { result ≡ is_over since.micros came.micros span }
{
    since.micros + span < came.micros
}

/// After so many microseconds in which nothing came, everything that was heard of the clocks is forgotten.
const SILENCE: u64 = 30_000_000;

/// And sooner nothing is passed on that was heard before.
const HALF_SILENCE: u64 = 24_000_000;

impl Clocks {
    ghost use Rattle.dt_watch.specs.Clockings.{BeginsOrTurns, Begins, Hears, Turns, sure_now};

    /// Nothing was heard of the opening, whose first datagram comes.
    pub fn new(bounds: ClockBounds, came: Reading) -> Clocks
        ensures begins { Begins result bounds came }
        ensures sound { result.is_broken ≡ false }
    {
        Clocks {
            heard: Lower::new(bounds),
            interval: Interval::new(bounds),
            is_broken: false,
            spans: Spans {
                since: came,
                last: came,
                heard: came,
                interval: came,
            },
        }
    }

    /// A datagram of the opening came. After a silence everything is forgotten; else spans that are over end.
    /// Then what the datagram says is seen. Where the interval is empty then, nothing of the opening is
    /// believed any more.
    pub fn hear(&mut self, passage: &Passage)
        ensures { Hears self.old self.new passage.now }
    {
        self.begin_or_turn(passage.came);
        self.spans.last = passage.came;
        self.heard.see(Bound {
            reading: passage.made,
            at: passage.came,
        });
        if !self.interval.see(passage) {
            self.is_broken = true;
        }
    }

    /// What the peer's clock had surely passed where this one read `made`, as it is passed on: 0, nothing,
    /// after a silence.
    pub fn sure(&self, made: Reading) -> u64
        ensures value { result ≡ sure_now self.now made.micros }
        ensures most { result < 2 ^ 49 }
    {
        if is_over(self.spans.last, made, HALF_SILENCE) {
            0
        } else {
            self.heard.at(made)
        }
    }

    fn begin_or_turn(&mut self, came: Reading)
        ensures { BeginsOrTurns self.old self.new came }
    {
        if is_over(self.spans.last, came, SILENCE) {
            let is_broken = self.is_broken;
            *self = Clocks::new(self.heard.bounds, came);
            self.is_broken = is_broken;
        } else {
            self.turn(came);
        }
    }

    /// Spans that are over end. That of what was heard is half as long as that of the interval, so that the
    /// width before a stop is counted for longer than a reading from before it is passed on.
    fn turn(&mut self, came: Reading)
        ensures { Turns self.old self.new came }
    {
        let half = span_of(self.spans.since, self.spans.heard) / 2;
        if is_over(self.spans.heard, came, half) {
            self.heard.turn();
            self.spans.heard = came;
        }
        let whole = span_of(self.spans.since, self.spans.interval);
        if is_over(self.spans.interval, came, whole) {
            self.interval.turn();
            self.spans.interval = came;
        }
    }
}
