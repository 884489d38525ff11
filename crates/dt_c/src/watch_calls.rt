//! The calls of a watch, on what its handle holds.
ghost use Rattle.std.specs.Prelude.{◌≡◌, true};
ghost use Rattle.dt_c.specs.Watching.{AgeIs, AroundIs, Beginning, BeginningWatch, Growing, Hearing, HearingWatch, Judging, JudgingWatch, MayEnterIs, OpeningWatch, Shrinking, SureIs, WatchFits, WindowIs, aim_or_none, cut_or_none, empty_watch, fits_watch, status_of_clocks, waited_or_most};

use crate::c_structs::{INVALID, NEVER, NONE, NOT_OPEN, OK};
use crate::watch_slots::WatchSlot;
use crate::watch_structs::{
    CArrival, CPassage, WATCH_OPTIONS_SIZE, WatchOptions, is_reading, judgement_code,
};
use dt_watch::{ClockBounds, Openings, Reading, Route, Watch, Window, aim, cut, waited_ms};

pub fn empty_watch_slot() -> WatchSlot
    ensures { result ≡ empty_watch }
{
    WatchSlot {
        watch: None,
        window: None,
    }
}

/// Whether each number for a watch is in its range.
fn fits_watch(options: &WatchOptions) -> bool
    ensures { result ≡ fits_watch options.now }
{
    options.drift <= 1000
        && options.grain <= 1_000_000
        && is_reading(options.gap)
        && is_reading(options.at)
}

/// The watch that the options describe.
fn watch_of(options: &WatchOptions) -> Watch
    requires { fits_watch options.now ≡ true }
    ensures { WatchFits result options.now }
{
    let bounds = ClockBounds {
        drift: options.drift,
        grain: options.grain,
    };
    let gap = Reading {
        micros: options.gap,
    };
    let openings = Openings::new(options.fingerprint, gap, options.grain);
    Watch::new(bounds, openings, Reading { micros: options.at })
}

/// What is heard of clocks: [`NONE`] where nothing is believed any more.
fn clocks_status(is_broken: bool) -> u8
    ensures { result ≡ status_of_clocks is_broken }
{
    if is_broken { NONE } else { OK }
}

/// The aim of a governor, 0 where an argument is 2^50 or more.
pub fn aim_of(base: u64, budget: u64, resend: u64) -> u64
    ensures { result ≡ aim_or_none base budget resend }
{
    if base < 1 << 50 && resend < 1 << 50 {
        aim(&Route {
            base,
            budget,
            resend,
        })
    } else {
        0
    }
}

/// The cut of a governor, 0 where the queue isn't above the aim, or an argument is 2^50 or more.
pub fn cut_of(queue: u64, base: u64, aim: u64) -> u32
    ensures { result ≡ cut_or_none queue base aim }
{
    if queue < 1 << 50 && base < 1 << 50 && aim < queue {
        cut(queue, base, aim)
    } else {
        0
    }
}

/// What the node is told of an age, which no life reaches where it is 2^52 or more.
pub fn waited_of(age: u64, charge: u32) -> u32
    ensures { result ≡ waited_or_most age charge }
{
    if age < 1 << 52 {
        waited_ms(age, charge)
    } else {
        u32::MAX
    }
}

/// The first datagram of an opening comes.
fn begin_watch(watch: &mut Watch, second: bool, came: u64) -> u8
    ensures { BeginningWatch result second came watch.old watch.new }
{
    if is_reading(came) {
        watch.begin(second, Reading { micros: came });
        OK
    } else {
        INVALID
    }
}

/// A datagram came.
fn hear_watch(watch: &mut Watch, second: bool, passage: &CPassage) -> u8
    ensures { HearingWatch result second passage.now watch.old watch.new }
{
    if passage.is_fit() {
        watch.hear(second, &passage.passage());
        clocks_status(watch.is_broken(second))
    } else {
        INVALID
    }
}

/// A datagram is judged.
fn judge_watch(watch: &mut Watch, arrival: &CArrival) -> u8
    ensures { JudgingWatch result arrival.now watch.old watch.new }
{
    if arrival.is_fit() {
        judgement_code(watch.judge(&arrival.arrival()))
    } else {
        INVALID
    }
}

impl WatchSlot {
    pub(crate) fn open(&mut self, options: &WatchOptions) -> u8
        ensures { OpeningWatch result options.now self.old self.new }
    {
        if options.size != WATCH_OPTIONS_SIZE || !fits_watch(options) {
            return INVALID;
        }
        let Some(window) = Window::new(options.segment, options.most) else {
            return INVALID;
        };
        self.watch = Some(watch_of(options));
        self.window = Some(window);
        OK
    }

    pub(crate) fn begin(&mut self, second: bool, came: u64) -> u8
        ensures { Beginning result second came self.old self.new }
    {
        match &mut self.watch {
            Some(watch) => begin_watch(watch, second, came),
            None => NOT_OPEN,
        }
    }

    pub(crate) fn hear(&mut self, second: bool, passage: &CPassage) -> u8
        ensures { Hearing result second passage.now self.old self.new }
    {
        match &mut self.watch {
            Some(watch) => hear_watch(watch, second, passage),
            None => NOT_OPEN,
        }
    }

    pub(crate) fn judge(&mut self, arrival: &CArrival) -> u8
        ensures { Judging result arrival.now self.old self.new }
    {
        match &mut self.watch {
            Some(watch) => judge_watch(watch, arrival),
            None => NOT_OPEN,
        }
    }

    pub(crate) fn sure(&mut self, second: bool, made: u64) -> u64
        ensures { SureIs result second made self.old self.new }
    {
        match (&self.watch, Reading::new(made)) {
            (Some(watch), Some(made)) => watch.sure(second, made),
            _ => 0,
        }
    }

    pub(crate) fn around(&mut self, second: bool, at: u64) -> u64
        ensures { AroundIs result second at self.old self.new }
    {
        match (&self.watch, Reading::new(at)) {
            (Some(watch), Some(at)) => watch.around(second, at),
            _ => 0,
        }
    }

    pub(crate) fn age(&mut self, second: bool, came: u64, sure: u64) -> u64
        ensures { AgeIs result second came sure self.old self.new }
    {
        match (&self.watch, Reading::new(came), Reading::new(sure)) {
            (Some(watch), Some(came), Some(sure)) => {
                watch.age(second, came, sure).unwrap_or(NEVER)
            }
            _ => NEVER,
        }
    }

    pub(crate) fn window(&mut self) -> u64
        ensures { WindowIs result self.old self.new }
    {
        match &self.window {
            Some(window) => window.octets,
            None => 0,
        }
    }

    pub(crate) fn admits(&mut self, under_way: u64, octets: u64) -> u8
        ensures { MayEnterIs result under_way octets self.old self.new }
    {
        match &self.window {
            Some(window) => u8::from(window.admits(under_way, octets)),
            None => 0,
        }
    }

    pub(crate) fn grow(&mut self, fast: bool) -> u8
        ensures { Growing result fast self.old self.new }
    {
        let Some(window) = &mut self.window else {
            return NOT_OPEN;
        };
        window.grow(fast);
        OK
    }

    pub(crate) fn shrink(&mut self, thousandths: u32) -> u8
        ensures { Shrinking result thousandths self.old self.new }
    {
        let Some(window) = &mut self.window else {
            return NOT_OPEN;
        };
        window.shrink(thousandths);
        OK
    }
}
