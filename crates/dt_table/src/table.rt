//! A table of flow records in the order of their making, with the times at which each record is due.
ghost use Rattle.std.specs.Prelude.{ℕ, suc, ◌≡◌, ◌≢◌, ◌<◌, ◌++◌, ◌∷◌, [], length, set, IfOk, IfSome, IfNone, OnErr, OnOk, Some, None};
ghost use Rattle.std.specs.Map.{lookup};
ghost use Rattle.std.specs.Option.{option_copied};
ghost use Rattle.dt_table.specs.Agendas.{HasRoom, note_at};
ghost use Rattle.dt_table.specs.Places.{StandOnce, equal_flows, place_in, present};
ghost use Rattle.dt_table.specs.Tables.{IsPlaced, rows};

use crate::agenda::Agenda;
use crate::places::Places;
use dt_items::NoMemory;
use dt_units::Flow;
use std::alloc::Global;

/// Records of flows, each in its place, and what is noted of them there.
///
/// A record that is made stands after all others, and one that goes leaves its place empty, so that the
/// order of the places is that of making. Where a place is wanted, there is none, and half of them are
/// empty or more, the records close up.
#[derive(Drop)]
pub struct Table<A> {
    pub places: Places,
    pub slots: Vec<Option<(Flow, A)>>,
    pub agenda: Agenda,
}

impl<A: Drop> Table<A> {
    /// No records, of which so many kinds of moments are noted. What later calls take is taken of
    /// `alloc`.
    pub fn new(alloc: Global, kinds: usize) -> Result<Table<A>, NoMemory>
        ensures table { IfOk result (λ table. IsPlaced kinds table.places table.slots.items table.agenda) }
        ensures none { IfOk result (λ table. table.slots.items ≡ []) }
    {
        Ok(Table {
            places: Places::new(alloc),
            slots: Vec::new(alloc),
            agenda: Agenda::new(alloc, kinds)?,
        })
    }

    /// The place of a flow's record.
    pub fn place(&self, flow: &Flow) -> Option<usize>
        requires { IsPlaced (length self.now.agenda) self.now.places self.now.slots.items self.now.agenda }
        ensures here { IfSome result (λ place. place_in flow.now self.now.places ≡ Some place) }
        ensures within { IfSome result (λ place. place < length self.now.slots.items) }
        ensures room { IfSome result (λ place. HasRoom (suc place) self.now.agenda) }
        ensures none { IfNone result (lookup (equal_flows flow.now) (present self.now.slots.items) ≡ None) }
        ensures once { StandOnce self.now.places }
    {
        self.places.find(flow)
    }

    /// The record of a flow.
    pub fn find(&self, flow: &Flow) -> Option<&A>
        requires { IsPlaced (length self.now.agenda) self.now.places self.now.slots.items self.now.agenda }
        ensures { option_copied result ≡ lookup (equal_flows flow.now) (present self.now.slots.items) }
    {
        let place = self.place(flow)?;
        match &self.slots[place] {
            Some((_, found)) => Some(found),
            None => unreachable!(),
        }
    }

    /// A record that was made stands after all others, with this note. `NoMemory` leaves the records and
    /// their notes as they were.
    pub fn add(&mut self, flow: &Flow, made: A, note: &[Option<u64>]) -> Result<(), NoMemory>
        requires placed { IsPlaced (length self.old.agenda) self.old.places self.old.slots.items self.old.agenda }
        requires kinds { length note.now ≡ length self.old.agenda }
        requires none { lookup (equal_flows flow.now) (present self.old.slots.items) ≡ None }
        ensures placed { IsPlaced (length self.old.agenda) self.new.places self.new.slots.items self.new.agenda }
        ensures ok { OnOk result (rows self.new.slots.items (note_at self.new.agenda) ≡ rows self.old.slots.items (note_at self.old.agenda) ++ ((flow.now, made), note.now) ∷ []) }
        ensures err { OnErr result (rows self.new.slots.items (note_at self.new.agenda) ≡ rows self.old.slots.items (note_at self.old.agenda)) }
    {
        self.close_up();
        let place = self.slots.len();
        self.agenda.hold(place)?;
        self.places.hold(place)?;
        self.slots.push(None)?;
        self.places.assign(place, flow)?;
        self.agenda.note(place, note);
        self.slots[place] = Some((*flow, made));
        Ok(())
    }

    /// Where no place is left after the records and half of the places are empty or more, the records
    /// close up. The cost is that of all places, and it is paid once for as many records that are made.
    fn close_up(&mut self)
        requires { IsPlaced (length self.old.agenda) self.old.places self.old.slots.items self.old.agenda }
        ensures placed { IsPlaced (length self.old.agenda) self.new.places self.new.slots.items self.new.agenda }
        ensures rows { rows self.new.slots.items (note_at self.new.agenda) ≡ rows self.old.slots.items (note_at self.old.agenda) }
    {
        let count = self.slots.len();
        let taken = self.places.count();
        if count < self.agenda.room() || taken > count / 2 {
            return;
        }
        let mut to = 0;
        for from in 0..count {
            let Some((flow, moved)) = self.slots[from].take() else {
                continue;
            };
            self.places.shift(&flow, from, to);
            self.agenda.shift(from, to);
            self.slots[to] = Some((flow, moved));
            to += 1;
        }
        self.slots.truncate(to);
    }

    /// The record of a flow goes, with its note.
    pub fn remove(&mut self, place: usize, flow: &Flow)
        requires placed { IsPlaced (length self.old.agenda) self.old.places self.old.slots.items self.old.agenda }
        requires here { place_in flow.now self.old.places ≡ Some place }
        ensures placed { IsPlaced (length self.old.agenda) self.new.places self.new.slots.items self.new.agenda }
        ensures slots { self.new.slots.items ≡ set self.old.slots.items place None }
        ensures notes { (i : ℕ) → i ≢ place → note_at self.new.agenda i ≡ note_at self.old.agenda i }
    {
        self.slots[place] = None;
        self.places.leave(place, flow);
        self.agenda.forget(place);
    }
}
