//! A datagram on a shelf.
ghost use Rattle.std.specs.Prelude.{◌≡◌};
ghost use Rattle.dt_early.specs.Early.{is_alive, waited_by};

use dt_units::Flow;
use std::marker::Model;

/// A datagram on a shelf, with the data that it has.
#[derive(Drop)]
pub struct Held {
    /// The link on which it came.
    pub link: u16,
    pub flow: Flow,
    /// The sequence number of its first octet.
    pub number: u32,
    /// As it came.
    pub octets: Vec<u8>,
    /// Its life, as it came, in milliseconds.
    pub life: u32,
    /// How long it had waited when it was put here, in milliseconds.
    pub waited: u32,
    /// The moment at which it was put here, in milliseconds.
    pub since: u64,
}

impl Model for Held {
    ghost use Rattle.dt_early.specs.Early.{Early};

    ghost Value = { Early };

    ghost view = { λ h. record { link = h.link; flow = h.flow; number = h.number; octets = h.octets.items; life = h.life; waited = h.waited; since = h.since } };
}

impl Held {
    /// Whether it has life left after its time here, which is the time since it was put here and one
    /// millisecond more.
    pub fn is_alive(&self, now: u64) -> bool
        ensures { result ≡ is_alive now self.now }
    {
        let left = u64::from(self.life).saturating_sub(u64::from(self.waited));
        now.saturating_sub(self.since) < left.saturating_sub(1)
    }

    /// How long it has waited, with its time here, and 2^32 - 1 at most.
    pub fn waited_by(&self, now: u64) -> u32
        ensures { result ≡ waited_by now self.now }
    {
        let here = now.saturating_sub(self.since).saturating_add(1);
        let waited = here.saturating_add(u64::from(self.waited));
        waited.min(u64::from(u32::MAX)) as u32
    }
}
