//! What is true of every schedule. Each law is the contract of a public function with an empty body.
ghost use Rattle.std.specs.Prelude.{ℕ, IfSome, List};
ghost use Rattle.dt_world_model.specs.WorldFacts.{SafeWorld};
ghost use Rattle.dt_replay.specs.Schedules.{world_after_lines, world_of};

/// The world of every schedule is safe, after each of its lines and at its end. Whatever the octets
/// of the schedule are, where a line is refused it holds of the world up to there.
pub fn world_of_a_schedule_is_safe()
    ensures all_along { (count : ℕ) (octets : List ℕ) → IfSome (world_after_lines count octets) (λ w. SafeWorld w) }
    ensures whole { (octets : List ℕ) → IfSome (world_of octets) (λ w. SafeWorld w) }
{}
