//! A clock of the memory, reading by reading.
use dt_edges::{Clock, MemClock};
use std::process::Abort;

/// What a clock of two readings tells, call by call.
static READINGS: [u64; 3] = [1000, 1040, 1040];

fn tells(rt: &impl Abort, clock: &mut MemClock) {
    for reading in &READINGS {
        assert!(rt; clock.now() == *reading);
    }
}

#[test]
fn a_clock_repeats_its_last_reading(rt: HostRuntime) {
    let mut clock = MemClock::new(rt.alloc(), &[1000, 1040]).expect(&rt, "memory");
    tells(&rt, &mut clock);
}
