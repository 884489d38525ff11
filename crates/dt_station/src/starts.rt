//! The start of a node: its first one, or a restart at a given time.
ghost use Rattle.std.specs.Prelude.{◌≤◌};
ghost use Rattle.std.specs.Option.{ForSome};
ghost use Rattle.dt_flow_model.specs.Keeping.{most_moment};

/// When a node starts: for the first time, or again at this moment, in milliseconds, at most 2^62.
#[derive(Clone, Copy)]
pub(crate) struct Start {
    pub(crate) again: Option<u64>,
    ghost bounded: { ForSome again (λ now. now ≤ most_moment) },
}
