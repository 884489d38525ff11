//! Whether it pays to look for a datagram again and again before it is waited for.
ghost use Rattle.std.specs.Prelude.{◌≡◌, ◌<◌, false};
ghost use Rattle.dt_machine.specs.Hastes.{came_soon, first_haste, is_brisk, met, missed, rested, waited};

/// How long after the begin of a take a datagram still comes soon, in nanoseconds: 50 microseconds.
pub const SOON: u64 = 50_000;

/// What looks in vain weigh before any was tried: four datagrams running are to come soon.
const FIRST_VAIN: u16 = 3;

/// What looks in vain weigh at most.
const MOST_VAIN: u16 = 1023;

/// How soon datagrams come, by which a take looks for one again and again, or waits at once. To be woken
/// costs both sides more than some looks do, so these pay where a peer answers soon and has a processor
/// of its own. A peer that has to share this one runs only while the take waits. So looks are tried after
/// some datagrams running that came soon, and after more of them for each time at which looks were in
/// vain: none came, or none sooner than at the waits before.
#[derive(Clone, Copy)]
pub struct Haste {
    /// How many datagrams running came soon, 65,535 at most.
    soon: u16,
    /// What the looks in vain weigh: looks are tried where more datagrams than this came soon.
    vain: u16,
    /// How long the shortest of the waits that brought them was, in nanoseconds, 50 microseconds at most.
    wait: u64,
}

impl Haste {
    /// Before any datagram: looks aren't tried.
    pub fn new() -> Self
        ensures begins { result ≡ first_haste }
        ensures rests { is_brisk result ≡ false }
    {
        Haste {
            soon: 0,
            vain: FIRST_VAIN,
            wait: SOON,
        }
    }

    /// Whether looks are tried.
    pub fn is_brisk(self) -> bool
        ensures { result ≡ is_brisk self }
    {
        self.vain < self.soon
    }

    /// Whether the last wait brought a datagram that came soon.
    pub fn came_soon(self) -> bool
        ensures came { result ≡ came_soon self }
    {
        0 < self.soon
    }

    /// After looks that found something `took` nanoseconds after the take's begin. Where the waits were
    /// longer, looks in vain weigh half as much.
    pub fn met(self, took: u64) -> Self
        ensures { result ≡ met took self }
    {
        if self.wait < took {
            return self.missed();
        }
        Haste {
            soon: self.soon,
            vain: self.vain / 2,
            wait: self.wait,
        }
    }

    /// After looks in vain, which aren't tried again at once: they weigh twice as much and one more.
    pub fn missed(self) -> Self
        ensures weighs { result ≡ missed self }
        ensures rests { is_brisk result ≡ false }
    {
        Haste {
            soon: 0,
            vain: self.vain.saturating_mul(2).saturating_add(1).min(MOST_VAIN),
            wait: SOON,
        }
    }

    /// After a wait that a datagram ended `took` nanoseconds after the take's begin. Where it didn't come
    /// soon, looks aren't tried.
    pub fn waited(self, took: u64) -> Self
        ensures follows { result ≡ waited took self }
        ensures rests { 50000 < took → is_brisk result ≡ false }
    {
        if took > SOON {
            return self.rested();
        }
        Haste {
            soon: self.soon.saturating_add(1),
            vain: self.vain,
            wait: self.wait.min(took),
        }
    }

    /// After a wait that no datagram ended: looks aren't tried.
    pub fn rested(self) -> Self
        ensures follows { result ≡ rested self }
        ensures rests { is_brisk result ≡ false }
    {
        Haste {
            soon: 0,
            vain: self.vain,
            wait: SOON,
        }
    }
}
