//! How far two clocks go apart.
ghost use Rattle.std.specs.Prelude.{◌≡◌, ◌<◌, ◌≤◌, ◌^◌, ◌↔◌, IfSome, IsSome};

/// How far two clocks go apart, both read in microseconds.
#[derive(Clone, Copy)]
pub struct ClockBounds {
    /// Half of how many parts in a million of a span of the second clock the spans of both differ by: 0 to
    /// 1,000. For two clocks that are each within d parts of the true time it is d + 1.
    pub drift: u32,
    /// How many microseconds the reading of both adds, at most, to the difference of two spans: 0 to
    /// 1,000,000. For clocks that are read in steps it is three steps.
    pub grain: u32,
    ghost slow: { drift ≤ 1000 },
    ghost fine: { grain ≤ 1000000 },
}

impl ClockBounds {
    ghost use Rattle.dt_watch.specs.Drift.{drift_over};

    /// These bounds. `None` where one is out of its range.
    pub fn new(drift: u32, grain: u32) -> Option<ClockBounds>
        ensures some { IsSome result ↔ ((drift ≤ 1000) × (grain ≤ 1000000)) }
        ensures value { IfSome result (λ bounds. (bounds.drift ≡ drift) × (bounds.grain ≡ grain)) }
    {
        if drift <= 1000 && grain <= 1_000_000 {
            Some(ClockBounds { drift, grain })
        } else {
            None
        }
    }

    /// By how many microseconds the spans of the two clocks differ, at most, beside the grain, where one of
    /// the two went on by `span` microseconds: twice the drift of it, rounded up.
    #[tactic(auto, using(crate::proofs::Drifting::drift_within), unfolding(crate::specs::Drift::drift_over))]
    pub fn drift_over(&self, span: u64) -> u64
        requires { span < 2 ^ 50 }
        ensures value { result ≡ drift_over self.now.drift span }
        ensures most { result ≤ span }
    {
        let parts = 2 * u64::from(self.drift) * span;
        (parts + 999_999) / 1_000_000
    }
}
