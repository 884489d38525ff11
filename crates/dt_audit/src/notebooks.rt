//! What is kept of a log.
ghost use Rattle.std.specs.Prelude.{◌≡◌, ◌+◌, ◌^◌, ℕ, OnOk};
ghost use Rattle.dt_audit.specs.Books.{begin_again, begun, change_flow, follow_fact, follow_line, life_in, lives_of};
ghost use Rattle.dt_audit.specs.FlowNotes.{TakenWithin, by_notes};
ghost use Rattle.dt_audit.specs.Noting.{NotesTo};

use crate::facts::Fact;
use crate::flaws::Flaw;
use crate::flow_facts::{FlowFact, Lives};
use crate::flow_notes::FlowNotes;
use crate::reading::read_log;
use dt_items::NoMemory;
use dt_units::Flow;
use indexmap::IndexMap;
use std::alloc::Global;
use std::marker::Model;

/// What is kept of a log: the lives of the nodes that began again, and the notes of each flow that was
/// spoken of. A flow and a node are found in constant time.
#[derive(Drop)]
pub struct Notebook {
    alloc: Global,
    lives: IndexMap<u32, u32>,
    flows: IndexMap<Flow, FlowNotes>,
}

impl Model for Notebook {
    ghost use Rattle.dt_audit.specs.Books.{Book};
    ghost use Rattle.dt_audit.specs.FlowNotes.{Notes};

    ghost Value = { Book Notes };

    ghost view = { λ b. record { lives = b.lives.entries; flows = b.flows.entries } };
}

impl Notebook {
    /// Nothing was read. What later calls take is taken of `alloc`.
    pub fn new(alloc: Global) -> Notebook
        ensures { result ≡ begun by_notes }
    {
        Notebook {
            alloc,
            lives: IndexMap::new(alloc),
            flows: IndexMap::new(alloc),
        }
    }

    /// The life of a node, which is 0 where it didn't begin again.
    fn life_of(&self, node: u32) -> u32
        ensures { result ≡ life_in self.now.lives node }
    {
        self.lives.get(&node).copied().unwrap_or(0)
    }

    /// The lives of the nodes of a flow.
    fn lives_of(&self, flow: &Flow) -> Lives
        ensures { result ≡ lives_of self.now.lives flow.now }
    {
        Lives {
            sender: self.life_of(flow.from.0),
            receiver: self.life_of(flow.to.0),
        }
    }

    /// What a line says of a flow. The first line that speaks of it takes memory.
    fn change(&mut self, flow: &Flow, change: FlowFact) -> Result<Option<Flaw>, NoMemory>
        requires room { TakenWithin (2 ^ 61) self.old.flows }
        ensures notes { NotesTo (change_flow by_notes flow.now change self.old) result self.new }
        ensures grows { (most : ℕ) → TakenWithin most self.old.flows → OnOk result (TakenWithin (most + 4294967295) self.new.flows) }
    {
        let lives = self.lives_of(flow);
        if let Some(notes) = self.flows.get_mut(flow) {
            return notes.follow(lives, change);
        }
        let mut notes = FlowNotes::new(self.alloc);
        if let Some(flaw) = notes.follow(lives, change)? {
            return Ok(Some(flaw));
        }
        self.flows.insert(*flow, notes)?;
        Ok(None)
    }

    /// A node begins again.
    fn begin_again(&mut self, node: u32, life: u32) -> Result<Option<Flaw>, NoMemory>
        ensures notes { NotesTo (begin_again by_notes node life self.old) result self.new }
        ensures flows { OnOk result (self.new.flows ≡ self.old.flows) }
    {
        if u64::from(life) != u64::from(self.life_of(node)) + 1 {
            return Ok(Some(Flaw::Stray));
        }
        self.lives.insert(node, life)?;
        Ok(None)
    }

    /// What a fact does.
    #[tactic(auto, using(crate::proofs::Entries::taken_more))]
    fn follow_fact(&mut self, fact: &Fact) -> Result<Option<Flaw>, NoMemory>
        requires room { TakenWithin (2 ^ 61) self.old.flows }
        ensures notes { NotesTo (follow_fact by_notes fact.now self.old) result self.new }
        ensures grows { (most : ℕ) → TakenWithin most self.old.flows → OnOk result (TakenWithin (most + 4294967295) self.new.flows) }
    {
        match *fact {
            Fact::Took { flow, count } => self.change(&flow, FlowFact::Took { count }),
            Fact::Sent {
                flow,
                number,
                length,
            } => self.change(&flow, FlowFact::Sent { number, length }),
            Fact::Settled { flow, count } => self.change(&flow, FlowFact::Settled { count }),
            Fact::Uncertain { flow, count } => self.change(&flow, FlowFact::Uncertain { count }),
            Fact::Accepted {
                flow,
                number,
                length,
                run,
            } => self.change(
                &flow,
                FlowFact::Accepted {
                    number,
                    length,
                    run,
                },
            ),
            Fact::Restarted { node, life } => self.begin_again(node, life),
            Fact::Other => Ok(None),
        }
    }

    /// What a line does, or the flaw that it has, after which what is kept is of no use.
    #[tactic(auto, using(crate::proofs::Entries::taken_more))]
    pub fn follow_line(&mut self, line: &[u8]) -> Result<Option<Flaw>, NoMemory>
        requires room { TakenWithin (2 ^ 61) self.old.flows }
        ensures notes { NotesTo (follow_line by_notes line.now self.old) result self.new }
        ensures grows { (most : ℕ) → TakenWithin most self.old.flows → OnOk result (TakenWithin (most + 4294967295) self.new.flows) }
    {
        match read_log(line) {
            Ok(fact) => self.follow_fact(&fact),
            Err(fault) => Ok(Some(Flaw::Line(fault))),
        }
    }
}
