//! Messages are put together from pieces.
ghost use Rattle.std.specs.Prelude.{◌≡◌, ◌+◌, true, false, IfOk, OnErr, OnOk, length, option_map};
ghost use Rattle.dt_messages.specs.Joining.{MessageValue, counted_up, fits, grown, is_idle, joiner_after, lost, message_with, new_joiner, piece_with};

use dt_items::NoMemory;
use std::alloc::Global;
use std::marker::Model;
use std::mem;

/// The marks of a piece: `run` and `begin` of its first octet, and `end` of its last.
#[derive(Clone, Copy, Debug, PartialEq, Eq)]
pub struct Marks {
    pub run: bool,
    pub begin: bool,
    pub end: bool,
}

/// A whole message.
#[derive(Drop)]
pub struct Message {
    pub octets: Vec<u8>,
    /// Octets before it were left out, or may have been: since the whole message before it a run mark was
    /// read, or a message was longer than the longest.
    pub gap: bool,
}

impl Model for Message {
    ghost Value = { MessageValue };

    ghost view = { λ m. record { octets = m.octets.items; gap = m.gap } };
}

/// Puts messages together from the pieces that are read of one flow.
///
/// A message is whole from a begin mark to the next end mark, where no octet but its first has a run
/// mark. A begin mark begins one anew, and after a run mark the octets before it are no part of any. One
/// that is longer than the longest is dropped and counted once it has outgrown that, and the next whole
/// message has a gap.
#[derive(Drop)]
pub struct Joiner {
    longest: Option<usize>,
    begun: Option<Vec<u8>>,
    gap: bool,
    dropped: u64,
}

impl Model for Joiner {
    ghost use Rattle.std.specs.Prelude.{option_map};
    ghost use Rattle.dt_messages.specs.Joining.{JoinerValue};

    ghost Value = { JoinerValue };

    ghost view = { λ j. record { longest = j.longest; begun = option_map (λ (v : _). v.items) j.begun; gap = j.gap; dropped = j.dropped } };
}

impl Joiner {
    /// No message has begun. A message has `longest` octets at most, or as many as there is memory for.
    pub fn new(longest: Option<usize>) -> Joiner
        ensures { result ≡ new_joiner longest }
    {
        Joiner {
            longest,
            begun: None,
            gap: false,
            dropped: 0,
        }
    }

    /// A piece goes on it. Answers the message that it makes whole, if it does. `NoMemory` where there is
    /// none for the octets; then nothing has changed. The cost is the piece, and what a `Vec` costs that
    /// grows.
    pub fn join(
        &mut self,
        alloc: Global,
        marks: Marks,
        octets: &[u8],
    ) -> Result<Option<Message>, NoMemory>
        ensures whole { IfOk result (λ whole. whole ≡ message_with self.old (piece_with marks octets.now)) }
        ensures after { OnOk result (self.new ≡ joiner_after self.old (piece_with marks octets.now)) }
        ensures same { OnErr result (self.new ≡ self.old) }
    {
        self.grow(alloc, marks, octets)?;
        if !marks.end {
            return Ok(None);
        }
        let Some(octets) = self.begun.take() else {
            return Ok(None);
        };
        let gap = mem::replace(&mut self.gap, false);
        Ok(Some(Message { octets, gap }))
    }

    /// Octets that were read are lost: what was begun is dropped, and a gap is reported with the next whole
    /// message.
    pub fn lose(&mut self)
        ensures { self.new ≡ lost self.old }
    {
        self.begun = None;
        self.gap = true;
    }

    /// Whether nothing is begun and no gap is to be reported: but for its count it is as a new one.
    pub fn is_idle(&self) -> bool
        ensures { result ≡ is_idle self.now }
    {
        self.begun.is_none() && !self.gap
    }

    /// How many messages were longer than the longest: 2^64 - 1 at most.
    pub fn dropped(&self) -> u64
        ensures { result ≡ self.now.dropped }
    {
        self.dropped
    }

    /// A piece goes on what was begun, whether it ends it or not.
    fn grow(&mut self, alloc: Global, marks: Marks, octets: &[u8]) -> Result<(), NoMemory>
        ensures grown { OnOk result (self.new ≡ grown self.old (piece_with marks octets.now)) }
        ensures same { OnErr result (self.new ≡ self.old) }
    {
        if marks.begin {
            self.begin(alloc, octets)?;
        } else if marks.run {
            self.begun = None;
        } else {
            self.extend(octets)?;
        }
        self.gap = self.gap || marks.run;
        Ok(())
    }

    /// A message begins with these octets.
    fn begin(&mut self, alloc: Global, octets: &[u8]) -> Result<(), NoMemory>
        ensures begun { OnOk result (self.new ≡ grown self.old (piece_with (record { run = false; begin = true; end = false }) octets.now)) }
        ensures same { OnErr result (self.new ≡ self.old) }
    {
        if !self.fits(octets.len()) {
            self.drop_begun();
            return Ok(());
        }
        self.begun = Some(Vec::from_slice(alloc, octets)?);
        Ok(())
    }

    /// These octets go on what was begun, if anything was.
    fn extend(&mut self, octets: &[u8]) -> Result<(), NoMemory>
        ensures extended { OnOk result (self.new ≡ grown self.old (piece_with (record { run = false; begin = false; end = false }) octets.now)) }
        ensures same { OnErr result (self.new ≡ self.old) }
    {
        let Some(begun) = &self.begun else {
            return Ok(());
        };
        if !self.fits(begun.len() + octets.len()) {
            self.drop_begun();
            return Ok(());
        }
        if let Some(begun) = &mut self.begun {
            begun.extend_from_slice(octets)?;
        }
        Ok(())
    }

    /// A message has outgrown the longest. It is left out, so the next one has a gap.
    fn drop_begun(&mut self)
        ensures { self.new ≡ record (lost self.old) { dropped = counted_up self.old.dropped } }
    {
        self.lose();
        self.dropped = self.dropped.saturating_add(1);
    }

    /// Whether a message may have `count` octets.
    fn fits(&self, count: usize) -> bool
        ensures { result ≡ fits self.now.longest count }
    {
        match self.longest {
            Some(longest) => count <= longest,
            None => true,
        }
    }
}
