//! How old a datagram is at most, and what the node is told of it.
ghost use Rattle.std.specs.Prelude.{◌≡◌, ◌+◌, ◌<◌, ◌≤◌, ◌^◌, ◌↔◌, IfSome, IsNone};
ghost use Rattle.dt_watch.specs.Ages.{age_of, waited_of};

use crate::readings::Reading;

/// How old a datagram is at most, in microseconds of the receiver's clock: what that read when the datagram
/// came, less the reading `sure` that it had passed when the datagram was made, and `uncertain`
/// microseconds for stops of clocks that weren't seen. `None` where `sure` is later than `came`: a
/// clock is wrong.
pub fn age(came: Reading, sure: Reading, uncertain: u64) -> Option<u64>
    requires { uncertain < 2 ^ 51 }
    ensures none { IsNone result ↔ (came.micros < sure.micros) }
    ensures value { IfSome result (λ age. age ≡ age_of came.micros sure.micros uncertain) }
    ensures most { IfSome result (λ age. age < 2 ^ 52) }
{
    if came.micros < sure.micros {
        None
    } else {
        Some(came.micros - sure.micros + uncertain)
    }
}

/// How many milliseconds the node is told that a datagram of this age waited, in microseconds, beside the
/// charge of its link: what the age in milliseconds, rounded up, and one more are above the charge. At most
/// 2^32 - 1, which no life of a packet reaches.
pub fn waited_ms(age: u64, charge: u32) -> u32
    requires { age < 2 ^ 52 }
    ensures { result ≡ waited_of age charge }
{
    let waited = ((age + 999) / 1000 + 1).saturating_sub(u64::from(charge));
    u32::try_from(waited).unwrap_or(u32::MAX)
}
