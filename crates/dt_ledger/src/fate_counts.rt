//! Counts of the rows of the octets that a flow took, by fate: unsettled, acknowledged or uncertain.
ghost use Rattle.std.specs.Prelude.{◌≡◌, ◌+◌, ◌^◌, ◌<◌};
ghost use Rattle.dt_ledger.specs.Rows.{and_one, count_of};

use dt_flow_model::Fate;

/// How many rows there are of each fate.
#[derive(Clone, Copy)]
pub struct FateCounts {
    pub unsettled: u64,
    pub acked: u64,
    pub uncertain: u64,
}

impl FateCounts {
    fn leave(&mut self, fate: Fate)
        requires { 0 < count_of fate self.old }
        ensures { and_one fate self.new ≡ self.old }
    {
        match fate {
            Fate::Open => self.unsettled -= 1,
            Fate::Acked => self.acked -= 1,
            Fate::Uncertain => self.uncertain -= 1,
        }
    }

    fn enter(&mut self, fate: Fate)
        requires { self.old.unsettled + self.old.acked + self.old.uncertain + 1 < 2 ^ 64 }
        ensures { self.new ≡ and_one fate self.old }
    {
        match fate {
            Fate::Open => self.unsettled += 1,
            Fate::Acked => self.acked += 1,
            Fate::Uncertain => self.uncertain += 1,
        }
    }

    /// One row has another fate than before.
    pub fn change(&mut self, before: Fate, fate: Fate)
        requires there { 0 < count_of before self.old }
        requires fits { self.old.unsettled + self.old.acked + self.old.uncertain < 2 ^ 64 }
        ensures { (rest : FateCounts) → self.old ≡ and_one before rest → self.new ≡ and_one fate rest }
    {
        self.leave(before);
        self.enter(fate);
    }
}
