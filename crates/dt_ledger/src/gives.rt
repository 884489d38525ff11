//! The octets that a flow's receiver was given, in order, with one entry for all octets that were given together.
ghost use Rattle.std.specs.Prelude.{◌≡◌, ◌+◌, ◌^◌, ◌<◌, ◌↔◌, [], ◌++◌, length, IfSome, IsNone, OnErr, OnOk};
ghost use Rattle.dt_flow_model.specs.Ledger.{top};
ghost use Rattle.dt_ledger.specs.Gives.{rows_given};

use crate::given_octets::GivenOctets;
use dt_items::NoMemory;
use std::alloc::Global;
use std::marker::Model;
use std::mem::size_of;

/// Octets that were given together, in 32 octets of memory beside their own.
#[derive(Clone, Copy)]
pub struct Give {
    /// The place of the first of them.
    pub place: u64,
    /// The moment when they were given.
    pub at: u64,
    /// How many there are.
    pub count: u64,
    /// The life of the receiving station.
    pub life: u32,
    /// The first has a run mark.
    pub run: bool,
    /// The first begins a message.
    pub begin: bool,
    /// The last ends a message.
    pub end: bool,
}

const _: () = prove!(size_of::<Give>() == 32);

/// For how many octets the first give makes room at least.
const FIRST_OCTETS: usize = 64;

/// The rows of the octets that were given to a flow's receiver, in the order of their giving.
#[derive(Drop)]
pub struct GivenRows {
    gives: Vec<Give>,
    octets: Vec<u8>,
}

impl Model for GivenRows {
    ghost use Rattle.std.specs.Prelude.{List};
    ghost use Rattle.dt_flow_model.specs.declared.rows.Given.{Given};
    ghost use Rattle.dt_ledger.specs.Gives.{HaveOctets, given_in_all};

    ghost Value = { List Given };

    ghost view = { λ g. given_in_all g.gives.items g.octets.items };

    ghost invariant = { λ g. HaveOctets g.gives.items g.octets.items };
}

impl GivenRows {
    /// No rows.
    pub fn new(alloc: Global) -> GivenRows
        ensures { result ≡ [] }
    {
        GivenRows {
            gives: Vec::new(alloc),
            octets: Vec::new(alloc),
        }
    }

    /// The number of rows.
    pub fn count(&self) -> u64
        ensures { result ≡ length self.now }
    {
        self.octets.len() as u64
    }

    /// The place of the last row, or none where there is no row.
    pub fn last_place(&self) -> Option<u64>
        ensures none { IsNone result ↔ (self.now ≡ []) }
        ensures last { IfSome result (λ place. place + 1 ≡ top self.now) }
        ensures below { IfSome result (λ place. place + 1 < 2 ^ 62) }
    {
        match self.gives.last() {
            Some(give) => Some(give.place + give.count - 1),
            None => None,
        }
    }

    /// Octets are given: a row each. `NoMemory` leaves the rows as they were.
    pub fn give(&mut self, given: &GivenOctets<'_>) -> Result<(), NoMemory>
        ensures ok { OnOk result (self.new ≡ self.old ++ rows_given given.entry.now) }
        ensures err { OnErr result (self.new ≡ self.old) }
    {
        let payload = given.payload;
        if payload.octets.is_empty() {
            return Ok(());
        }
        // Octets that come one message after another grow less often.
        let least = if self.octets.is_empty() {
            FIRST_OCTETS
        } else {
            0
        };
        self.gives.reserve(1)?;
        self.octets.reserve(payload.octets.len().max(least))?;
        self.octets.extend_from_slice(payload.octets)?;
        self.gives.push_reserved(Give {
            place: given.place,
            at: given.at,
            count: payload.octets.len() as u64,
            life: given.life,
            run: given.run,
            begin: payload.begin,
            end: payload.end,
        });
        Ok(())
    }
}
