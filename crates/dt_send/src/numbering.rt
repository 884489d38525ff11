//! The numbers of offsets, and the crossings among offsets.
ghost use Rattle.std.specs.Prelude.{◌≡◌, ◌^◌, ◌<◌};
ghost use Rattle.dt_flow_model.specs.Numbering.{number_of, is_crossing, up_to_crossing};

use dt_units::Rules;

/// How many numbers there are.
const NUMBERS: u64 = 1 << 32;

/// The sequence number of an offset.
pub fn number_at(rules: &Rules, offset: u64) -> u32
    requires { offset < 2 ^ 63 }
    ensures { result ≡ number_of rules.now offset }
{
    ((u64::from(rules.params().start) + offset) % NUMBERS) as u32
}

/// Whether the offset is a crossing.
pub fn crosses(rules: &Rules, offset: u64) -> bool
    ensures { result ≡ is_crossing rules.now offset }
{
    offset % rules.quantum() == 0
}

/// How many octets there are up to the next crossing above the offset.
pub fn crossing_after(rules: &Rules, offset: u64) -> u64
    ensures value { result ≡ up_to_crossing rules.now offset }
    ensures some { 0 < result }
{
    let quantum = rules.quantum();
    quantum - offset % quantum
}
