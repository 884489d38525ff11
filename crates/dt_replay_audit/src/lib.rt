//! What `replay` writes passes the audit. The function has an empty body and is called for its
//! contract alone.
#![tactic(auto)]

ghost use Rattle.std.specs.Prelude.{ℕ, ◌<◌, ◌≤◌, ◌≡◌, ◌^◌, List, false, length};
ghost use Rattle.dt_text.specs.InputLines.{lines_of, most_input};
ghost use Rattle.dt_replay.specs.Schedules.{replay_text};
ghost use Rattle.dt_audit.specs.Audits.{has_flaw};

/// THE LOG OF A SCHEDULE PASSES THE AUDIT. Whatever the octets of the schedule are, and whatever its
/// lines make happen in their world, the text that is written of it has no flaw: each of its lines
/// reads, none is stray and none breaks a promise. Where a line is refused it holds of the log up to
/// there, the refusal among it. The schedule has fewer than 2^32 lines: a life's number has 32 bits and
/// a moment has 64, and each line starts at most one station again, and lets less than 2^32 ms pass. A
/// schedule has no more lines than octets, so it holds of each that isn't too long for `replay`.
pub fn log_of_a_schedule_passes()
    ensures lines { (octets : List ℕ) → length (lines_of octets) ≤ length octets }
    ensures passes { (octets : List ℕ) → length (lines_of octets) < 2 ^ 32 → has_flaw (replay_text octets) ≡ false }
    ensures log_passes { (octets : List ℕ) → length octets ≤ most_input → has_flaw (replay_text octets) ≡ false }
{}
