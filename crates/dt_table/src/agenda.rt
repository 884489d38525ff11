//! The due times of the records of a table, by kind and place, with a lookup of the earliest of each kind.
ghost use Rattle.std.specs.Prelude.{ℕ, suc, ◌≡◌, ◌≢◌, ◌<◌, ◌≤◌, length, set, IfOk, OnErr, OnOk};
ghost use Rattle.dt_table.specs.Agendas.{HasRoom, IsFirstPlace, moment_of_kind, no_note, note_at};
ghost use Rattle.dt_table.specs.Places.{slot};

use dt_items::NoMemory;
use dt_timers::Deadlines;
use std::alloc::Global;
use std::marker::Model;

/// What is noted of records by their places: of each kind a moment, in milliseconds, or none. A contract
/// sees a list of moments for each kind.
///
/// The first moment of a kind is at hand, and a note is changed at a cost that grows with the number of
/// places as its logarithm does. Memory is taken by [`Agenda::new`], and by [`Agenda::hold`] for places.
#[derive(Drop)]
pub struct Agenda {
    tables: Vec<Deadlines>,
}

impl Model for Agenda {
    ghost use Rattle.dt_table.specs.Agendas.{Tables};

    ghost Value = { Tables };

    ghost view = { λ a. a.tables.items };
}

impl Agenda {
    /// No places, for notes of so many kinds.
    pub fn new(alloc: Global, kinds: usize) -> Result<Agenda, NoMemory>
        ensures kinds { IfOk result (λ agenda. length agenda ≡ kinds) }
        ensures none { IfOk result (λ agenda. (i : ℕ) → note_at agenda i ≡ no_note kinds) }
    {
        let mut tables = Vec::with_capacity(alloc, kinds)?;
        for _kind in 0..kinds {
            tables.push(Deadlines::new(alloc))?;
        }
        Ok(Agenda { tables })
    }

    /// How many places there are for notes of the last kind: at least as many as all kinds have, where
    /// there is a kind. Only what calls cost rests on it.
    pub fn room(&self) -> usize
        ensures { (count : ℕ) → 0 < length self.now → HasRoom count self.now → count ≤ result }
    {
        match self.tables.last() {
            Some(table) => table.room(),
            None => 0,
        }
    }

    /// Sees to it that there are more places than `count`, where there are `count` at least. Nothing is
    /// noted in those that are made. `NoMemory` comes only where a kind hasn't more yet; after it no
    /// place is lost, and each note stands.
    pub fn hold(&mut self, count: usize) -> Result<(), NoMemory>
        requires { HasRoom count self.old }
        ensures ok { OnOk result (HasRoom (suc count) self.new) }
        ensures room { HasRoom count self.new }
        ensures same { (i : ℕ) → note_at self.new i ≡ note_at self.old i }
        ensures memory { OnErr result (HasRoom (suc count) self.old → ⊥) }
    {
        for kind in 0..self.tables.len() {
            let table = &mut self.tables[kind];
            table.hold(count)?;
        }
        Ok(())
    }

    /// Notes the moments of the record in a place: one of each kind, where there are as many.
    pub fn note(&mut self, place: usize, moments: &[Option<u64>])
        requires { HasRoom (suc place) self.old }
        ensures here { length moments.now ≡ length self.old → note_at self.new place ≡ moments.now }
        ensures others { (i : ℕ) → i ≢ place → note_at self.new i ≡ note_at self.old i }
        ensures room { (count : ℕ) → HasRoom count self.old → HasRoom count self.new }
    {
        for kind in 0..self.tables.len().min(moments.len()) {
            self.note_one(place, kind, moment_in(moments, kind));
        }
    }

    /// Notes the moment of one kind anew.
    pub fn note_one(&mut self, place: usize, kind: usize, moment: Option<u64>)
        requires room { HasRoom (suc place) self.old }
        requires kind { kind < length self.old }
        ensures here { note_at self.new place ≡ set (note_at self.old place) kind moment }
        ensures others { (i : ℕ) → i ≢ place → note_at self.new i ≡ note_at self.old i }
        ensures room { (count : ℕ) → HasRoom count self.old → HasRoom count self.new }
    {
        let table = &mut self.tables[kind];
        table.set(place, moment);
    }

    /// Nothing is noted in a place any more.
    pub fn forget(&mut self, place: usize)
        requires { HasRoom (suc place) self.old }
        ensures here { note_at self.new place ≡ no_note (length self.old) }
        ensures others { (i : ℕ) → i ≢ place → note_at self.new i ≡ note_at self.old i }
        ensures room { (count : ℕ) → HasRoom count self.old → HasRoom count self.new }
    {
        for kind in 0..self.tables.len() {
            self.note_one(place, kind, None);
        }
    }

    /// The note of a place moves to another, or stays where it is.
    pub fn shift(&mut self, from: usize, to: usize)
        requires from { HasRoom (suc from) self.old }
        requires to { HasRoom (suc to) self.old }
        ensures from { to ≢ from → note_at self.new from ≡ no_note (length self.old) }
        ensures to { note_at self.new to ≡ note_at self.old from }
        ensures others { (i : ℕ) → i ≢ from → i ≢ to → note_at self.new i ≡ note_at self.old i }
        ensures room { (count : ℕ) → HasRoom count self.old → HasRoom count self.new }
    {
        if to == from {
            return;
        }
        for kind in 0..self.tables.len() {
            let moment = self.tables[kind].at(from);
            self.note_one(to, kind, moment);
        }
        self.forget(from);
    }

    /// The least moment of a kind, and the first place that has it. None comes exactly where no place
    /// has a moment of that kind.
    pub fn first(&self, kind: usize) -> Option<(u64, usize)>
        requires { kind < length self.now }
        ensures { IsFirstPlace (moment_of_kind self.now kind) result }
    {
        self.tables[kind].first()
    }
}

/// The moment of a kind, or none beyond the last.
fn moment_in(moments: &[Option<u64>], kind: usize) -> Option<u64>
    ensures { result ≡ slot moments.now kind }
{
    match moments.get(kind) {
        Some(moment) => *moment,
        None => None,
    }
}
