//! A table of deadlines, one or none for each place, with the earliest deadline at constant cost.
ghost use Rattle.std.specs.Prelude.{ℕ, ◌≡◌, ◌<◌, ◌≤◌, [], length, set, MatchOption, None, OnErr, OnOk};
ghost use Rattle.dt_timers.specs.Deadlines.{HasNoMoment, IsFirst, moment_at};

use crate::lazy_tournament::LazyTournament;
use dt_items::NoMemory;
use std::alloc::Global;
use std::marker::Model;

/// Moments in places, each of which has one or none, and the least of them. A contract sees the list of
/// the places. Moments are any numbers of 64 bits, and what they count is the caller's.
///
/// The least moment is at hand, and a moment is changed at a cost that grows with the number of places
/// as its logarithm does; that of the place that was set last at one that doesn't. Memory is taken by [`Deadlines::hold`] alone: two tree nodes of 16 octets for
/// each place, doubled as places are wanted. There are 2^32 places at most.
#[derive(Drop)]
pub struct Deadlines {
    tournament: LazyTournament,
}

impl Model for Deadlines {
    ghost use Rattle.std.specs.Prelude.{ℕ, List, Option, map};
    ghost use Rattle.dt_timers.specs.Deadlines.{StandInPlace, moment_of};

    ghost Value = { List (Option ℕ) };

    ghost view = { λ d. map moment_of d.tournament };

    ghost invariant = { λ d. StandInPlace d.tournament };
}

impl Deadlines {
    /// No places. It takes no memory; what later calls take is taken of `alloc`.
    pub fn new(alloc: Global) -> Deadlines
        ensures { result ≡ [] }
    {
        Deadlines {
            tournament: LazyTournament::new(alloc),
        }
    }

    /// How many places there are.
    pub fn room(&self) -> usize
        ensures { result ≡ length self.now }
    {
        self.tournament.room()
    }

    /// Sees to it that there are more places than `count`, where there are `count` at least. Those that
    /// are made have no moment. `NoMemory` comes only where there aren't more yet, and leaves all as it
    /// was. The cost doesn't grow where there are more already, and else is that of putting each moment
    /// into its place.
    pub fn hold(&mut self, count: usize) -> Result<(), NoMemory>
        requires { count ≤ length self.old }
        ensures ok { OnOk result (count < length self.new) }
        ensures room { length self.old ≤ length self.new }
        ensures same { (i : ℕ) → moment_at self.new i ≡ moment_at self.old i }
        ensures err { OnErr result (self.new ≡ self.old) }
        ensures memory { OnErr result (length self.old ≡ count) }
    {
        if count == self.tournament.room() {
            self.tournament.double()?;
        }
        Ok(())
    }

    /// The moment of a place. It takes no memory, and its cost doesn't grow.
    pub fn at(&self, place: usize) -> Option<u64>
        requires { place < length self.now }
        ensures { result ≡ moment_at self.now place }
    {
        Some(self.tournament.at(place)?.moment)
    }

    /// Sets the moment of a place, or takes it away. It takes no memory. The cost doesn't grow where the
    /// place has that moment already.
    pub fn set(&mut self, place: usize, moment: Option<u64>)
        requires { place < length self.old }
        ensures { self.new ≡ set self.old place moment }
    {
        self.tournament.place(place, moment);
    }

    /// The least moment and its place, the first place where several have that moment. None comes
    /// exactly where no place has a moment. It takes no memory, and its cost doesn't grow.
    pub fn first(&self) -> Option<(u64, usize)>
        ensures { MatchOption result (HasNoMoment (moment_at self.now)) (λ first. IsFirst (moment_at self.now) first.0 first.1) }
    {
        let first = self.tournament.soonest()?;
        Some((first.moment, first.place))
    }
}
