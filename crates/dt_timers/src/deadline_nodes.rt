//! A deadline or none in 16 octets, as a node of the tournament tree, and the choice of the earlier of two.
ghost use Rattle.std.specs.Prelude.{◌≡◌, ◌<◌, ◌^◌, IsTrue, None};
ghost use Rattle.dt_timers.specs.Order.{goes_before, sooner_of};
ghost use Rattle.dt_timers.specs.Tournaments.{deadline_in};

use crate::deadline::Deadline;
use std::marker::Model;
use std::mem::size_of;

/// What stands for the moment and for the place where there is no deadline. So it comes after all others,
/// with no test for itself.
const GREATEST: u64 = u64::MAX;

/// A deadline or none. A contract sees the deadline.
#[derive(Clone, Copy)]
pub struct DeadlineNode {
    moment: u64,
    place: u64,
}

// A table has two for each place.
const _: () = prove!(size_of::<DeadlineNode>() == 16);

impl Model for DeadlineNode {
    ghost use Rattle.std.specs.Prelude.{ℕ, ◌≡◌, Option};
    ghost use Rattle.std.proofs.Common.{ap, ◌∙◌};
    ghost use Rattle.dt_timers.specs.declared.deadline.Deadline.{Deadline};
    ghost use Rattle.dt_timers.specs.Nodes.{deadline_seen, greatest, moment_back, moment_kept, place_back, place_kept};

    ghost Value = { Option Deadline };

    ghost view = { λ n. deadline_seen n.moment n.place };

    ghost invariant = { λ n. n.place ≡ greatest → n.moment ≡ greatest };

    ghost inverse = { λ d. record { moment = moment_kept d; place = place_kept d } };

    ghost inverse_ok = { λ n h.
        ap (λ (m : ℕ). record { moment = m; place = place_kept (deadline_seen n.moment n.place) }) (moment_back n.moment n.place h)
        ∙ ap (λ (p : ℕ). record { moment = n.moment; place = p }) (place_back n.moment n.place) };
}

impl DeadlineNode {
    /// No deadline.
    pub fn none() -> DeadlineNode
        ensures { result ≡ None }
    {
        DeadlineNode {
            moment: GREATEST,
            place: GREATEST,
        }
    }

    /// The deadline of a place, where it has a moment.
    pub fn of(place: usize, moment: Option<u64>) -> DeadlineNode
        requires { place < 2 ^ 32 }
        ensures { result ≡ deadline_in place moment }
    {
        match moment {
            Some(moment) => DeadlineNode {
                moment,
                place: place as u64,
            },
            None => DeadlineNode::none(),
        }
    }

    /// The deadline, if there is one.
    pub fn deadline(&self) -> Option<Deadline>
        ensures { result ≡ self.now }
    {
        if self.place == GREATEST {
            None
        } else {
            Some(Deadline {
                moment: self.moment,
                place: self.place as usize,
            })
        }
    }

    /// Whether it is the other one.
    pub fn is(&self, other: &DeadlineNode) -> bool
        ensures { IsTrue result → self.now ≡ other.now }
    {
        self.moment == other.moment && self.place == other.place
    }

    /// Whether it comes before another deadline: its moment is less, or its place where the moments are
    /// equal.
    fn goes_before(&self, other: &DeadlineNode) -> bool
        ensures { result ≡ goes_before self.now other.now }
    {
        self.moment < other.moment || (self.moment == other.moment && self.place < other.place)
    }
}

/// The one of two deadlines that comes first, of which each may be none.
pub fn sooner(one: &DeadlineNode, other: &DeadlineNode) -> DeadlineNode
    ensures { result ≡ sooner_of one.now other.now }
{
    if other.goes_before(one) { *other } else { *one }
}
