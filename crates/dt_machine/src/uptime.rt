//! The time since the machine was started.
use std::time;
use std::time::Duration;

/// The clock that goes on while the machine is suspended, Linux's CLOCK_BOOTTIME.
const BOOT_TIME: i32 = 7;

/// The time of that clock. None where the machine hasn't got it.
fn boot_time() -> Option<Duration> {
    let mut time = libc::types::timespec {
        tv_sec: 0,
        tv_nsec: 0,
    };
    if libc::clock_gettime(BOOT_TIME, &mut time) != 0 {
        return None;
    }
    let seconds = u64::try_from(time.tv_sec).ok()?;
    let nanoseconds = u64::try_from(time.tv_nsec).ok()?;
    Some(Duration::from_secs(seconds).saturating_add(Duration::from_nanos(nanoseconds)))
}

/// The time since the machine was started, in nanoseconds, with that for which it was suspended. Where
/// the machine has no such clock, that of its monotonic one, which may stand still meanwhile. None where
/// both fail.
pub fn uptime<R: time::Clock>(rt: &R) -> Option<u64> {
    let time = match boot_time() {
        Some(time) => time,
        None => rt.monotonic().ok()?,
    };
    u64::try_from(time.as_nanos()).ok()
}
