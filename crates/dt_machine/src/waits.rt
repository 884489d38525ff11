//! How long a datagram may wait in this machine.
ghost use Rattle.std.specs.Prelude.{◌≡◌};
ghost use Rattle.dt_machine.specs.Waits.{is_late, may_have_waited};

/// The longest wait, in nanoseconds: 20 ms.
const MOST_WAIT: u64 = 20_000_000;

/// Whether a datagram may have waited longer than 20 ms by the moment `now`, where its socket was last
/// found empty at the moment `empty` and it came since. The moments are in nanoseconds, by one clock.
pub fn may_have_waited(empty: u64, now: u64) -> bool
    ensures { result ≡ may_have_waited empty now }
{
    now.saturating_sub(empty) > MOST_WAIT
}

/// Whether the moment of a turn, if there is one, is longer past than 20 ms by the moment `now`. Both are in
/// nanoseconds.
pub fn is_late(read: Option<u64>, now: u64) -> bool
    ensures { result ≡ is_late read now }
{
    match read {
        Some(read) => may_have_waited(read, now),
        None => false,
    }
}
