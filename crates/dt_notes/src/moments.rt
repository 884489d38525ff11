//! A time of the world in milliseconds, with the proof that it is at most 2^61.
ghost use Rattle.std.specs.Prelude.{◌≤◌};
ghost use Rattle.dt_notes.specs.Moments.{most_now};

/// A moment of the world in milliseconds: 0 to 2^61.
#[derive(Clone, Copy)]
pub struct Moment {
    pub ms: u64,
    ghost timely: { ms ≤ most_now },
}
