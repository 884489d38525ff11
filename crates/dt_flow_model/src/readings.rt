//! A reading of a station's clock in milliseconds, with the proof that it is at most 2^62.
ghost use Rattle.std.specs.Prelude.{◌≤◌};
ghost use Rattle.dt_flow_model.specs.Keeping.{most_moment};

/// A reading of a station's clock in milliseconds, at most 2^62.
#[derive(Clone, Copy, Drop)]
pub struct Reading {
    pub ms: u64,
    ghost bounded: { ms ≤ most_moment },
}
