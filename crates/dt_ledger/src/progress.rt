//! Bounds of the latest life's rows: below one no row is open, and below the other none waits for its first sending.
ghost use Rattle.std.specs.Prelude.{◌≡◌, ◌<◌, ◌≤◌, false, min, true};
ghost use Rattle.dt_flow_model.specs.Ledger.{is_open};
ghost use Rattle.dt_ledger.specs.Rows.{progress_in};

use dt_flow_model::Fate;

/// The rows of a life that are still sought don't stand below this place.
#[derive(Clone, Copy)]
pub struct Passed {
    pub life: u32,
    pub below: usize,
}

impl Passed {
    /// The same for a life, of whose rows nothing may be known.
    pub fn of(self, life: u32) -> Passed
        ensures life { result.life ≡ life }
        ensures known { life ≡ self.life → result ≡ self }
        ensures unknown { (life ≡ self.life → ⊥) → result.below ≡ 0 }
    {
        if life == self.life {
            self
        } else {
            Passed { life, below: 0 }
        }
    }

    /// What is still passed once rows from a place on got the fate: an Open one is sought again.
    pub fn reopened(self, fate: Fate, place: usize) -> Passed
        ensures life { result.life ≡ self.life }
        ensures below { result.below ≤ self.below }
        ensures closed { is_open fate ≡ false → result.below ≡ self.below }
        ensures again { is_open fate ≡ true → result.below ≡ min self.below place }
    {
        match fate {
            Fate::Open => Passed {
                below: self.below.min(place),
                ..self
            },
            Fate::Acked | Fate::Uncertain => self,
        }
    }
}

/// How far the rows of the latest life were settled and sent.
#[derive(Clone, Copy)]
pub struct Progress {
    /// No row is of a later life.
    pub latest: u32,
    /// Below it no row of its life is open.
    pub settled: Passed,
    /// Below it no row of its life waits for its first transmission.
    pub sent: Passed,
}

impl Progress {
    /// Rows of this life come next, after `count` others. A life that is later than all before begins there.
    pub fn begin(&mut self, life: u32, count: usize)
        ensures { self.new ≡ progress_in life count self.old }
    {
        if self.latest < life {
            let passed = Passed { life, below: count };
            *self = Progress {
                latest: life,
                settled: passed,
                sent: passed,
            };
        }
    }
}
