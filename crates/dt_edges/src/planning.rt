//! Which calls of the forms in memory fail.
ghost use Rattle.std.specs.Prelude.{◌≡◌, IfOk};
ghost use Rattle.dt_edges.specs.Counts.{is_planned};

use dt_items::NoMemory;
use std::alloc::Global;

/// Whether call number `call`, counted from 1, is among those that fail.
pub(crate) fn fails(failing: &[u64], call: u64) -> bool
    ensures { result ≡ is_planned failing.now call }
{
    failing.iter().any(|number| *number == call)
}

/// The numbers of failing calls, as they are kept.
pub(crate) fn call_numbers(alloc: Global, failing: &[u32]) -> Result<Vec<u64>, NoMemory>
    ensures { IfOk result (λ v. v.items ≡ failing.now) }
{
    Ok(
        failing
            .iter()
            .map(|number| u64::from(*number))
            .collect(alloc)?,
    )
}
