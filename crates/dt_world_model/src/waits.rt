//! What a packet pays for waiting.
ghost use Rattle.std.specs.Prelude.{◌≡◌, ◌<◌, ◌≤◌, IfNone, IfSome};
ghost use Rattle.dt_world_model.specs.Relay.{time_charge};

use dt_flow_model::Reading;

/// What a packet of this life in milliseconds pays that waited since a moment: the time until now, and
/// one millisecond more. None where its life isn't above that, and then it is gone. A packet that waits
/// since a later moment has waited no time.
pub fn wait_charge(life: u32, since: u64, now: Reading) -> Option<u32>
    ensures charge { IfSome result (λ charge. (charge ≡ time_charge now.ms since) × (charge < life)) }
    ensures none { IfNone result (life ≤ time_charge now.ms since) }
{
    let charge = now.ms.saturating_sub(since) + 1;
    if u64::from(life) <= charge {
        return None;
    }
    Some(charge as u32)
}
