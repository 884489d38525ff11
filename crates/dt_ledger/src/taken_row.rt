//! The ledger's row of an octet that was taken.
ghost use Rattle.std.specs.Prelude.{◌≡◌, None, Some};
ghost use Rattle.dt_flow_model.specs.Ledger.{is_open, is_open_in, is_unsent, open_row};
ghost use Rattle.dt_ledger.specs.Rows.{with_fate};

use crate::optional_moments::{Instant, OptionalMoment};
use dt_flow_model::{Fate, Taken};
use dt_items::Item;
use std::marker::Model;
use std::mem::size_of;

/// Whether nothing was reported of an octet with this fate.
pub fn is_open(fate: Fate) -> bool
    ensures { result ≡ is_open fate }
{
    matches!(fate, Fate::Open)
}

/// A row of the ledger for an octet that a flow took, in 16 octets.
#[derive(Drop)]
pub struct TakenRow {
    first: OptionalMoment,
    life: u32,
    octet: u8,
    begin: bool,
    end: bool,
    fate: Fate,
}

const _: () = prove!(size_of::<TakenRow>() == 16);

impl Model for TakenRow {
    ghost use Rattle.dt_flow_model.specs.declared.rows.Taken.{Taken};

    ghost Value = { Taken };

    ghost view = { λ row. record { life = row.life; octet = row.octet; begin = row.begin; end = row.end; first = row.first; fate = row.fate } };
}

impl TakenRow {
    /// The row of an octet that is taken: it has no fate and no first moment.
    pub fn open(life: u32, item: Item) -> TakenRow
        ensures { result ≡ open_row life None item }
    {
        TakenRow {
            first: OptionalMoment::none(),
            life,
            octet: item.octet,
            begin: item.begin,
            end: item.end,
            fate: Fate::Open,
        }
    }

    /// What the ledger says of the octet.
    pub fn taken(&self) -> Taken
        ensures { result ≡ self.now }
    {
        Taken {
            life: self.life,
            octet: self.octet,
            begin: self.begin,
            end: self.end,
            first: self.first.get(),
            fate: self.fate,
        }
    }

    /// What became of the octet.
    pub fn fate(&self) -> Fate
        ensures { result ≡ self.now.fate }
    {
        self.fate
    }

    /// Whether the octet was taken in this life and has no fate.
    pub fn is_open_in(&self, life: u32) -> bool
        ensures { result ≡ is_open_in life self.now }
    {
        is_open(self.fate) && self.life == life
    }

    /// Whether the octet has no first moment.
    pub fn is_unsent(&self) -> bool
        ensures { result ≡ is_unsent self.now.first }
    {
        self.first.get().is_none()
    }

    /// The octet has this fate from now on.
    pub fn settle(&mut self, fate: Fate)
        ensures { self.new ≡ with_fate fate self.old }
    {
        self.fate = fate;
    }

    /// The octet has this first moment from now on.
    pub fn note_first(&mut self, at: Instant)
        ensures { self.new ≡ record self.old { first = Some at.milliseconds } }
    {
        self.first = OptionalMoment::at(at);
    }
}
