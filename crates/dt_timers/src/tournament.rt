//! The soonest of many deadlines, by a tournament.
ghost use Rattle.std.specs.Prelude.{ℕ, ◌≡◌, ◌+◌, ◌<◌, ◌≤◌, ◌^◌, ◌/◌, [], length, set, IsTrue, OnErr, OnOk};
ghost use Rattle.dt_timers.specs.Tournaments.{ArePlayed, ArePlayedBut, IsSoonestOf, deadline_in, node};

use crate::deadline::Deadline;
use crate::deadline_nodes::{DeadlineNode, sooner};
use dt_items::NoMemory;
use std::alloc::Global;
use std::marker::Model;

/// The most places: their numbers are of 32 bits.
const MOST_ROOM: usize = 1 << 32;

/// Places for deadlines, of which the soonest is at hand. A contract sees the list of its places.
///
/// The nodes of a tree lie in one vector: its second half are the places, and each node before them
/// holds the sooner of the two below it.
#[derive(Drop)]
pub struct Tournament {
    room: usize,
    nodes: Vec<DeadlineNode>,
}

impl Model for Tournament {
    ghost use Rattle.std.specs.Prelude.{◌≡◌, ◌+◌, ◌^◌, ◌≤◌, List, Option, drop, length};
    ghost use Rattle.dt_timers.specs.declared.deadline.Deadline.{Deadline};
    ghost use Rattle.dt_timers.specs.Tournaments.{ArePlayed};

    ghost Value = { List (Option Deadline) };

    ghost view = { λ t. drop t.room t.nodes.items };

    ghost invariant = { λ t. (length t.nodes.items ≡ t.room + t.room) × ArePlayed t.nodes.items × (t.room ≤ 2 ^ 32) };
}

impl Tournament {
    /// No places. It takes no memory.
    pub fn new(alloc: Global) -> Tournament
        ensures { result ≡ [] }
    {
        Tournament {
            room: 0,
            nodes: Vec::new(alloc),
        }
    }

    /// How many places there are.
    pub fn room(&self) -> usize
        ensures { result ≡ length self.now }
    {
        self.room
    }

    /// The same deadlines in twice as many places, or in one where there is none. `NoMemory` leaves all
    /// as it was. The cost is that of all nodes.
    pub fn double(&mut self) -> Result<(), NoMemory>
        ensures more { OnOk result (length self.old < length self.new) }
        ensures same { OnOk result ((i : ℕ) → node self.new i ≡ node self.old i) }
        ensures err { OnErr result (self.new ≡ self.old) }
        ensures few { OnOk result (length self.new ≤ 2 ^ 32) }
    {
        let room = self.nodes.len().max(1);
        if room > MOST_ROOM {
            return Err(NoMemory);
        }
        self.nodes.resize(room + room, DeadlineNode::none())?;
        self.nodes
            .copy_within(self.room..self.room + self.room, room);
        play_all(&mut self.nodes);
        self.room = room;
        Ok(())
    }

    /// Puts a moment into a place, or none. The cost is that of the tree's height at most, and doesn't
    /// grow where the place has that moment already.
    pub fn place(&mut self, place: usize, moment: Option<u64>)
        requires { place < length self.old }
        ensures { self.new ≡ set self.old place (deadline_in place moment) }
    {
        let leaf = self.room + place;
        let placed = DeadlineNode::of(place, moment);
        if self.nodes[leaf].is(&placed) {
            return;
        }
        self.nodes[leaf] = placed;
        play_from(&mut self.nodes, leaf);
    }

    /// The deadline of a place, or none. The cost doesn't grow.
    pub fn at(&self, place: usize) -> Option<Deadline>
        requires { place < length self.now }
        ensures { result ≡ node self.now place }
    {
        self.nodes[self.room + place].deadline()
    }

    /// Whether a place has this deadline, or none where it is none.
    pub fn has(&self, place: usize, deadline: &DeadlineNode) -> bool
        requires { place < length self.now }
        ensures { IsTrue result → node self.now place ≡ deadline.now }
    {
        self.nodes[self.room + place].is(deadline)
    }

    /// The soonest of all places, or none where all are empty. The cost doesn't grow.
    pub fn soonest(&self) -> DeadlineNode
        ensures { IsSoonestOf self.now result }
    {
        if self.room == 0 {
            DeadlineNode::none()
        } else {
            self.nodes[1]
        }
    }
}

/// Plays all nodes, from the last one up.
fn play_all(nodes: &mut [DeadlineNode])
    requires even { (half : ℕ) × (length nodes.old ≡ half + half) }
    ensures played { ArePlayed nodes.new }
    ensures places { (k : ℕ) → length nodes.old ≤ k + k → node nodes.new k ≡ node nodes.old k }
{
    let mut at = nodes.len() / 2;
    while at > 1 {
        at -= 1;
        nodes[at] = sooner(&nodes[2 * at], &nodes[2 * at + 1]);
    }
}

/// The node that is played against another one.
fn rival(at: usize) -> usize
    requires some { 2 ≤ at }
    requires within { at < 2 ^ 63 }
    ensures even { at ≡ at / 2 + at / 2 → result ≡ at + 1 }
    ensures odd { at ≡ at / 2 + at / 2 + 1 → result + 1 ≡ at }
{
    if at % 2 == 0 { at + 1 } else { at - 1 }
}

/// Plays again the nodes above one whose deadline changed, up to the first that stays as it was: those
/// above it stay too.
fn play_from(nodes: &mut [DeadlineNode], leaf: usize)
    requires within { leaf < length nodes.old }
    requires some { 1 ≤ leaf }
    requires even { (half : ℕ) × (length nodes.old ≡ half + half) }
    requires played { ArePlayedBut (leaf / 2) nodes.old }
    ensures played { ArePlayed nodes.new }
    ensures places { (k : ℕ) → length nodes.old ≤ k + k → node nodes.new k ≡ node nodes.old k }
{
    let mut at = leaf;
    // That of the node at hand, which isn't read again.
    let mut winner = nodes[leaf];
    while at > 1 {
        winner = sooner(&winner, &nodes[rival(at)]);
        at /= 2;
        if nodes[at].is(&winner) {
            return;
        }
        nodes[at] = winner;
    }
}
