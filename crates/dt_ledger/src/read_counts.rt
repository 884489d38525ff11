//! Counts of the octets that were read from a flow, one for each life of the receiving station.
ghost use Rattle.std.specs.Prelude.{◌≡◌, ◌+◌, ◌^◌, ◌<◌, [], ◌∷◌, OnErr, OnOk};
ghost use Rattle.dt_flow_model.specs.Ledger.{HasNoEntry, note_read};
ghost use Rattle.dt_ledger.specs.Reads.{read_of_all, reads_in};

use dt_flow_model::ReadCount;
use dt_items::NoMemory;
use indexmap::IndexMap;
use std::alloc::Global;
use std::marker::Model;

/// How many octets were read in each life of the receiving station, in the order of the first reads.
///
/// The count of the first of these lives stands in place, so that no memory is taken for a station that
/// doesn't start again.
#[derive(Drop)]
pub struct ReadCounts {
    first: Option<ReadCount>,
    /// Of the other lives.
    later: IndexMap<u32, u64>,
    /// Over all lives.
    all: u64,
}

impl Model for ReadCounts {
    ghost use Rattle.std.specs.Prelude.{◌≡◌, List};
    ghost use Rattle.dt_flow_model.specs.declared.rows.ReadCount.{ReadCount};
    ghost use Rattle.dt_ledger.specs.Reads.{AreReads, all_reads, reads_in};

    ghost Value = { List ReadCount };

    ghost view = { λ r. all_reads r.first (reads_in r.later.entries) };

    ghost invariant = { λ r. AreReads r.first (reads_in r.later.entries) r.all };
}

/// `count` more octets were read in a life.
fn add(by_life: &mut IndexMap<u32, u64>, life: u32, count: u64) -> Result<(), NoMemory>
    requires { read_of_all (reads_in by_life.old.entries) + count < 2 ^ 62 }
    ensures ok { OnOk result (reads_in by_life.new.entries ≡ note_read life count (reads_in by_life.old.entries)) }
    ensures err { OnErr result (by_life.new.entries ≡ by_life.old.entries) }
    ensures memory { OnErr result (HasNoEntry life (reads_in by_life.old.entries)) }
{
    if let Some(read) = by_life.get_mut(&life) {
        *read += count;
        return Ok(());
    }
    by_life.insert(life, count)?;
    Ok(())
}

/// `count` more octets were read in a life: in the first one or in another.
fn add_in(
    first: &mut ReadCount,
    later: &mut IndexMap<u32, u64>,
    life: u32,
    count: u64,
) -> Result<(), NoMemory>
    requires { read_of_all (first.old ∷ reads_in later.old.entries) + count < 2 ^ 62 }
    ensures ok { OnOk result (first.new ∷ reads_in later.new.entries ≡ note_read life count (first.old ∷ reads_in later.old.entries)) }
    ensures err { OnErr result (first.new ∷ reads_in later.new.entries ≡ first.old ∷ reads_in later.old.entries) }
    ensures memory { OnErr result (HasNoEntry life (first.old ∷ reads_in later.old.entries)) }
{
    if first.life == life {
        first.count += count;
        return Ok(());
    }
    add(later, life, count)
}

impl ReadCounts {
    /// Nothing was read.
    pub fn new(alloc: Global) -> ReadCounts
        ensures { result ≡ [] }
    {
        ReadCounts {
            first: None,
            later: IndexMap::new(alloc),
            all: 0,
        }
    }

    /// How many octets were read, over all lives.
    pub fn all(&self) -> u64
        ensures { result ≡ read_of_all self.now }
    {
        self.all
    }

    /// `count` more octets were read in a life. `NoMemory` comes only where nothing was read in it yet,
    /// and leaves the counts as they were.
    pub fn note(&mut self, life: u32, count: u64) -> Result<(), NoMemory>
        requires { read_of_all self.old + count < 2 ^ 62 }
        ensures ok { OnOk result (self.new ≡ note_read life count self.old) }
        ensures err { OnErr result (self.new ≡ self.old) }
        ensures memory { OnErr result (HasNoEntry life self.old) }
    {
        let Some(first) = &mut self.first else {
            self.first = Some(ReadCount { life, count });
            self.all = count;
            return Ok(());
        };
        add_in(first, &mut self.later, life, count)?;
        self.all += count;
        Ok(())
    }
}
