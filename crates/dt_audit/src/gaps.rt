//! Sorted ranges of a sender's unsent places from earlier lives, with a binary search for one place.
ghost use Rattle.std.specs.Prelude.{◌≡◌, ◌≤◌, OnErr, OnOk};
ghost use Rattle.std.specs.List.{list_any};
ghost use Rattle.dt_audit.specs.FlowNotes.{Rise, gaps_end, holds, with_gap};

use dt_items::NoMemory;

/// Places of an earlier life of the sender that weren't sent: from one on up to another.
#[derive(Clone, Copy)]
pub struct Gap {
    pub from: u64,
    pub to: u64,
}

/// Whether a place is in a gap, where gaps follow one another. The cost grows with the logarithm of
/// their number.
pub fn is_among(gaps: &[Gap], place: u64) -> bool
    requires { Rise 0 gaps.now }
    ensures { result ≡ list_any (holds place) gaps.now }
{
    let passed = gaps.partition_point(|gap| gap.to <= place);
    passed < gaps.len() && gaps[passed].from <= place
}

/// The places from one on up to another are a gap after all others, where there are any. `NoMemory`
/// leaves the gaps as they were.
#[tactic(auto, using(crate::proofs::Seeking::gap_added))]
pub fn remember(gaps: &mut Vec<Gap>, from: u64, to: u64) -> Result<(), NoMemory>
    requires rise { Rise 0 gaps.old.items }
    requires behind { gaps_end 0 gaps.old.items ≤ from }
    requires order { from ≤ to }
    ensures ok { OnOk result (gaps.new.items ≡ with_gap from to gaps.old.items) }
    ensures rise { OnOk result (Rise 0 gaps.new.items) }
    ensures behind { OnOk result (gaps_end 0 gaps.new.items ≤ to) }
    ensures err { OnErr result (gaps.new.items ≡ gaps.old.items) }
{
    if from < to {
        gaps.push(Gap { from, to })?;
    }
    Ok(())
}
