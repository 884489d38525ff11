//! Worked numbers.
use crate::{
    Arrival, Bound, ClockBounds, Clocks, Interval, Judgement, Lower, Openings, Passage, Reading,
    Window, age, waited_ms,
};

const BOUNDS: ClockBounds = ClockBounds {
    drift: 100,
    grain: 2,
};

fn at(micros: u32) -> Reading {
    Reading {
        micros: u64::from(micros),
    }
}

/// A stamp of 5 s that was heard at 9 s: 0.1 s later the other clock has passed 5.1 s, less 20 us of drift
/// and the grain.
fn heard() -> u64 {
    let mut lower = Lower::new(BOUNDS);
    lower.see(Bound {
        reading: at(5_000_000),
        at: at(9_000_000),
    });
    lower.see(Bound {
        reading: at(5_050_000),
        at: at(9_090_000),
    });
    lower.at(at(9_100_000))
}

#[test]
fn sure_is_the_greatest_less_the_drift(rt: HostRuntime) {
    assert!(rt; heard() == 5_099_978);
}

#[test]
fn node_is_told_what_exceeds_the_charge(rt: HostRuntime) {
    assert!(rt; waited_ms(60_100, 50) == 12);
    assert!(rt; waited_ms(2_000, 50) == 0);
}

/// Flights of 20 ms each way, and then a stop of the receiver's clock: what is counted as the age of a
/// datagram that flies for 20 ms, or none where it rings.
fn age_after(stop: u32) -> Option<u64> {
    let mut interval = Interval::new(BOUNDS);
    let first = Passage {
        made: at(1_000_000),
        sure: at(980_000),
        came: at(1_020_000),
    };
    let second = Passage {
        made: at(1_100_000),
        sure: at(1_079_978),
        came: at(1_120_000_u32.saturating_sub(stop)),
    };
    if !interval.see(&first) || !interval.see(&second) {
        return None;
    }
    age(second.came, second.sure, interval.uncertain())
}

#[test]
fn width_before_a_stop_counts(rt: HostRuntime) {
    assert!(rt; age_after(0) == Some(80_046));
    assert!(rt; age_after(38_000) == Some(42_026));
    assert!(rt; age_after(60_000).is_none());
}

/// Of two datagrams the one that was made first comes last: no bound says anything of when it was made, so its
/// width isn't counted.
fn width_of_a_reordered_datagram() -> u64 {
    let mut interval = Interval::new(BOUNDS);
    let passages = [(1_000_000, 1_001_000), (999_000, 1_001_500)];
    for (made, came) in passages {
        interval.see(&Passage {
            made: at(made),
            sure: at(made - 1000),
            came: at(came),
        });
    }
    interval.uncertain()
}

#[test]
fn reordered_datagram_counts_no_width(rt: HostRuntime) {
    assert!(rt; width_of_a_reordered_datagram() == 2004);
}

/// The first exchange took 600 ms, and each later one 2 ms: what is counted for stops a second later is 2 ms
/// and the drift, since spans are short at first.
fn width_after_a_slow_start() -> u64 {
    let mut clocks = Clocks::new(BOUNDS, at(1_000_000));
    for step in 0..20_u32 {
        let came = 1_000_000 + 100_000 * step;
        let flight = if step == 0 { 300_000 } else { 1000 };
        clocks.hear(&Passage {
            made: at(came - flight),
            sure: at(came - 2 * flight),
            came: at(came),
        });
    }
    clocks.interval.uncertain()
}

#[test]
fn slow_start_is_forgotten(rt: HostRuntime) {
    assert!(rt; width_after_a_slow_start() < 2200);
}

fn arrival(opening: u64, sure: u32, came: u32) -> Arrival {
    Arrival {
        fingerprint: 7,
        opening,
        sure: at(sure),
        came: at(came),
        is_frame: true,
    }
}

#[test]
fn newer_reading_makes_an_opening_the_present_one(rt: HostRuntime) {
    let mut openings = Openings::new(7, at(500), 2);
    assert!(rt; openings.judge(&arrival(1, 0, 10)) == Judgement::Unproved);
    assert!(rt; openings.judge(&arrival(1, 5, 20)) == Judgement::Present);
    assert!(rt; openings.judge(&arrival(2, 0, 30)) == Judgement::Unproved);
    assert!(rt; openings.judge(&arrival(2, 7, 40)) == Judgement::Former);
    assert!(rt; openings.judge(&arrival(2, 8, 50)) == Judgement::Early);
    assert!(rt; openings.judge(&arrival(1, 10, 60)) == Judgement::Former);
    assert!(rt; openings.judge(&arrival(2, 8, 520)) == Judgement::Present);
    assert!(rt;
        openings.judge(&Arrival {
            fingerprint: 8,
            ..arrival(2, 9, 530)
        }) == Judgement::OtherParameters
    );
}

fn window_holds(window: &mut Window) -> bool {
    let first = window.octets == 16_000 && window.admits(0, 100_000) && window.admits(15_000, 1000);
    let full = !window.admits(15_001, 1000);
    window.shrink(900);
    let least = window.octets == 8000;
    window.grow(false);
    first && full && least && window.octets == 12_000
}

#[test]
fn window_has_eight_segments_at_least(rt: HostRuntime) {
    let mut window = Window::new(1000, 64_000_000).expect(&rt, "a window");
    assert!(rt; window_holds(&mut window));
}
