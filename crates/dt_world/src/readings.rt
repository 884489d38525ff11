//! What the clock of a station reads.
ghost use Rattle.std.specs.Prelude.{◌≡◌, ◌+◌};

use dt_flow_model::Reading;
use dt_notes::Moment;

/// What a station's clock reads that is ahead of the world's moment by `zero` ms.
pub fn read_clock(now: Moment, zero: u32) -> Reading
    ensures { result.ms ≡ now.ms + zero }
{
    Reading {
        ms: now.ms + u64::from(zero),
    }
}
