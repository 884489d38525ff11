//! How much may be under way to one peer.
ghost use Rattle.std.specs.Prelude.{◌≡◌, ◌+◌, ◌*◌, ◌<◌, ◌≤◌, ◌^◌, ◌↔◌, ◌⊎◌, IfSome, IsSome, IsTrue, min};

/// How many octets may be under way to one peer: handed in and not settled. From eight segments to `most`.
#[derive(Clone, Copy)]
pub struct Window {
    pub octets: u64,
    pub segment: u32,
    pub most: u64,
    ghost least: { 8 * segment ≤ octets },
    ghost within: { octets ≤ most },
    ghost bounded: { most < 2 ^ 40 },
}

impl Window {
    ghost use Rattle.dt_watch.specs.Windows.{larger, smaller};

    /// The first window: 16 segments, and `most` at most. `None` where `most` is less than eight segments,
    /// or 2^40 or more.
    pub fn new(segment: u32, most: u64) -> Option<Window>
        ensures some { IsSome result ↔ ((8 * segment ≤ most) × (most < 2 ^ 40)) }
        ensures value { IfSome result (λ w. (w.segment ≡ segment) × (w.most ≡ most) × (w.octets ≡ min (16 * segment) most)) }
    {
        if 8 * u64::from(segment) <= most && most < 1 << 40 {
            Some(Window {
                octets: most.min(16 * u64::from(segment)),
                segment,
                most,
            })
        } else {
            None
        }
    }

    /// Whether a message of `octets` may be handed in while `under_way` octets are under way: exactly where
    /// they fit into the window together, or nothing is under way.
    pub fn admits(&self, under_way: u64, octets: u64) -> bool
        ensures { IsTrue result ↔ ((under_way + octets ≤ self.now.octets) ⊎ (under_way ≡ 0)) }
    {
        under_way == 0 || (under_way <= self.octets && octets <= self.octets - under_way)
    }

    /// The window is larger: by half where `fast`, and else by a 64th of it or eight segments, whichever is
    /// more, half of it at most. It stays within `most`.
    pub fn grow(&mut self, fast: bool)
        ensures octets { self.new.octets ≡ larger self.old fast }
        ensures segment { self.new.segment ≡ self.old.segment }
        ensures most { self.new.most ≡ self.old.most }
    {
        let half = self.octets / 2;
        let step = (self.octets / 64).max(8 * u64::from(self.segment));
        let by = if fast { half } else { step.min(half) };
        self.octets = self.most.min(self.octets + by);
    }

    /// The window is smaller by so many thousandths of it, half of it at most. It stays eight segments at
    /// least.
    pub fn shrink(&mut self, thousandths: u32)
        ensures octets { self.new.octets ≡ smaller self.old thousandths }
        ensures segment { self.new.segment ≡ self.old.segment }
        ensures most { self.new.most ≡ self.old.most }
    {
        let parts = u64::from(thousandths.min(500));
        let left = self.octets - self.octets * parts / 1000;
        self.octets = left.max(8 * u64::from(self.segment));
    }
}
