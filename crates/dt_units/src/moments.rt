//! Moments, of which each may be none: nothing is to come then.
ghost use Rattle.std.specs.Prelude.{◌≡◌};
ghost use Rattle.dt_units.specs.Moments.{earlier};

/// The lesser of two moments, in milliseconds of one clock; the other where one is none, and none
/// where both are.
pub fn earlier(moment: Option<u64>, other: Option<u64>) -> Option<u64>
    ensures { result ≡ earlier moment other }
{
    match (moment, other) {
        (Some(moment), Some(other)) => Some(moment.min(other)),
        (Some(moment), None) => Some(moment),
        (None, other) => other,
    }
}
