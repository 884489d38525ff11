//! A tournament that plays late.
ghost use Rattle.std.specs.Prelude.{ℕ, ◌≡◌, ◌<◌, [], length, set, IsTrue, OnErr, OnOk};
ghost use Rattle.dt_timers.specs.Latest.{is_in};
ghost use Rattle.dt_timers.specs.Tournaments.{IsSoonestOf, deadline_in, node};

use crate::deadline::Deadline;
use crate::deadline_nodes::{DeadlineNode, sooner};
use crate::tournament::Tournament;
use dt_items::NoMemory;
use std::alloc::Global;
use std::marker::Model;

/// A tournament in which the deadline that was put last isn't played yet: it is kept beside the tree, in
/// which its place is empty, until another place gets one. A contract sees the list of all places.
///
/// Most deadlines are of a moment that comes at once, and are taken away before another place gets one.
/// These cost nothing that grows.
#[derive(Drop)]
pub struct LazyTournament {
    played: Tournament,
    latest: DeadlineNode,
}

impl Model for LazyTournament {
    ghost use Rattle.std.specs.Prelude.{List, Option};
    ghost use Rattle.dt_timers.specs.declared.deadline.Deadline.{Deadline};
    ghost use Rattle.dt_timers.specs.Latest.{IsApart, with_latest};

    ghost Value = { List (Option Deadline) };

    ghost view = { λ t. with_latest t.latest t.played };

    ghost invariant = { λ t. IsApart t.latest t.played };
}

impl LazyTournament {
    /// No places. It takes no memory.
    pub fn new(alloc: Global) -> LazyTournament
        ensures { result ≡ [] }
    {
        LazyTournament {
            played: Tournament::new(alloc),
            latest: DeadlineNode::none(),
        }
    }

    /// How many places there are.
    pub fn room(&self) -> usize
        ensures { result ≡ length self.now }
    {
        self.played.room()
    }

    /// The same deadlines in twice as many places, or in one where there is none. `NoMemory` leaves all
    /// as it was. The cost is that of all nodes.
    pub fn double(&mut self) -> Result<(), NoMemory>
        ensures more { OnOk result (length self.old < length self.new) }
        ensures same { OnOk result ((i : ℕ) → node self.new i ≡ node self.old i) }
        ensures err { OnErr result (self.new ≡ self.old) }
    {
        self.played.double()
    }

    /// Puts a moment into a place, or none. The cost is that of the tree's height at most, twice, and
    /// doesn't grow where the place has that moment already, or has the moment that was put last.
    pub fn place(&mut self, place: usize, moment: Option<u64>)
        requires { place < length self.old }
        ensures { self.new ≡ set self.old place (deadline_in place moment) }
    {
        if !self.has(place, moment) {
            self.change(place, moment);
        }
    }

    /// Whether a place has this moment, or none where it is none.
    fn has(&self, place: usize, moment: Option<u64>) -> bool
        requires { place < length self.now }
        ensures { IsTrue result → node self.now place ≡ deadline_in place moment }
    {
        let latest = self.latest.deadline();
        let placed = DeadlineNode::of(place, moment);
        if is_in(latest, place) {
            self.latest.is(&placed)
        } else {
            self.played.has(place, &placed)
        }
    }

    /// The same as [`LazyTournament::place`], where most often another moment is put. What puts none is small, and
    /// stands where it is called.
    #[inline(never)]
    fn change(&mut self, place: usize, moment: Option<u64>)
        requires { place < length self.old }
        ensures { self.new ≡ set self.old place (deadline_in place moment) }
    {
        let latest = self.latest.deadline();
        let placed = DeadlineNode::of(place, moment);
        if is_in(latest, place) {
            self.latest = placed;
            return;
        }
        if moment.is_none() {
            self.played.place(place, None);
            return;
        }
        if let Some(latest) = latest {
            self.played.place(latest.place, Some(latest.moment));
        }
        self.played.place(place, None);
        self.latest = placed;
    }

    /// The deadline of a place, or none. The cost doesn't grow.
    pub fn at(&self, place: usize) -> Option<Deadline>
        requires { place < length self.now }
        ensures { result ≡ node self.now place }
    {
        let latest = self.latest.deadline();
        if is_in(latest, place) {
            latest
        } else {
            self.played.at(place)
        }
    }

    /// The soonest of all places, or none where all are empty. The cost doesn't grow.
    pub fn soonest(&self) -> Option<Deadline>
        ensures { IsSoonestOf self.now result }
    {
        sooner(&self.latest, &self.played.soonest()).deadline()
    }
}

/// Whether a deadline stands in this place.
fn is_in(deadline: Option<Deadline>, place: usize) -> bool
    ensures { result ≡ is_in deadline place }
{
    match deadline {
        Some(deadline) => deadline.place == place,
        None => false,
    }
}
