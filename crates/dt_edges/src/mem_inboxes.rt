//! What comes on a wire in memory.
ghost use Rattle.std.specs.Prelude.{ℕ, ◌≡◌, ◌+◌, ◌<◌, ◌≤◌, ◌++◌, ◌∷◌, List, [], length, replicate, slice_get, Some, None, OnOk, OnErr, IfSome, IsSome, vec_len, vec_capacity};
ghost use Rattle.std.specs.List.{All};
ghost use Rattle.std.specs.Option.{option_map, option_and_then};
ghost use Rattle.dt_edges.specs.Counts.{last_count, next_count};
ghost use Rattle.dt_edges.specs.declared.mem_inboxes.Found.{Found};
ghost use Rattle.dt_edges.specs.Spans.{datagram_at, cut_span, IsEntry, answers_of};
ghost use Rattle.dt_edges.specs.Wires.{handed, cut_to, entry_at, used_after, arrivals_after};

use crate::spans::Span;
use dt_items::NoMemory;
use std::alloc::Global;
use std::marker::Model;

/// What a take found, and how many takes right before it found that no entry was left.
#[derive(Clone, Copy)]
pub struct Found {
    idle: u64,
    datagram: Option<Span>,
}

/// Entries that come one after another, each a datagram or nothing, and what takes found. Takes need
/// no memory: each entry has room for what is found there.
#[derive(Drop)]
pub struct MemInbox {
    octets: Vec<u8>,
    entries: Vec<Option<Span>>,
    found: Vec<Found>,
    /// How many takes found that no entry was left, since the last that found one.
    idle: u64,
    answered: u64,
}

impl Model for MemInbox {
    ghost use Rattle.std.specs.Prelude.{◌≤◌, ◌++◌, map, replicate, length, Some, None, if◌then◌else◌, nat_lt, vec_len, vec_capacity};
    ghost use Rattle.std.specs.List.{All};
    ghost use Rattle.std.specs.Option.{option_map};
    ghost use Rattle.dt_edges.specs.Counts.{last_count};
    ghost use Rattle.dt_edges.specs.Wires.{Arrivals};
    ghost use Rattle.dt_edges.specs.Spans.{datagram_at, IsEntry, answers_of};
    ghost use Rattle.dt_edges.specs.declared.mem_inboxes.Found.{Found};

    ghost Value = { Arrivals };

    ghost view = { λ i. record {
      entries = map (option_map (datagram_at i.octets.items)) i.entries.items;
      used = vec_len i.found;
      answered = i.answered;
      taken = if nat_lt i.answered last_count then Some (answers_of i.octets.items i.found.items ++ replicate i.idle None) else None;
    } };

    ghost invariant = { λ i. record {
      used : vec_len i.found ≤ vec_len i.entries;
      room : vec_len i.entries ≤ vec_capacity i.found;
      counted : i.idle ≤ i.answered;
      entries : All (IsEntry (length i.octets.items)) i.entries.items;
      answers : All (λ (f : Found). IsEntry (length i.octets.items) f.datagram) i.found.items;
    } };
}

/// Makes room for one more entry, and for what is found at each.
fn make_room(entries: &mut Vec<Option<Span>>, found: &mut Vec<Found>) -> Result<(), NoMemory>
    requires { vec_len found.old ≤ vec_len entries.old }
    ensures entries { (entries.new.items ≡ entries.old.items) × (vec_len entries.new ≡ vec_len entries.old) }
    ensures found { (found.new.items ≡ found.old.items) × (vec_len found.new ≡ vec_len found.old) }
    ensures room { OnOk result ((vec_len entries.new < vec_capacity entries.new) × (vec_len entries.new < vec_capacity found.new)) }
    ensures kept { vec_capacity found.old ≤ vec_capacity found.new }
{
    entries.reserve(1)?;
    found.reserve(entries.len() - found.len() + 1)?;
    Ok(())
}

/// The first octets of a datagram, as many as there is room for.
fn cut(entry: Option<Span>, room: usize) -> Option<Span>
    ensures { result ≡ option_map (cut_span room) entry }
{
    entry.map(|span| Span {
        end: span.end.min(span.start.saturating_add(room)),
        ..span
    })
}

/// Answers a take: the next entry, cut to the room, or nothing where the entries are used up. Notes
/// what was found.
fn answer(
    entries: &[Option<Span>],
    found: &mut Vec<Found>,
    idle: &mut u64,
    room: usize,
) -> Option<Span>
    requires used { vec_len found.old ≤ length entries.now }
    requires space { length entries.now ≤ vec_capacity found.old }
    ensures next { result ≡ option_map (cut_span room) (option_and_then (λ entry. entry) (slice_get entries.now (vec_len found.old))) }
    ensures used { vec_len found.new ≡ used_after entries.now (vec_len found.old) }
    ensures space { vec_capacity found.new ≡ vec_capacity found.old }
    ensures counted { idle.new ≤ next_count idle.old }
    ensures entries { (len : ℕ) → All (λ (f : Found). IsEntry len f.datagram) found.old.items → IsEntry len result → All (λ (f : Found). IsEntry len f.datagram) found.new.items }
    ensures noted { (octets : List ℕ) → idle.old < last_count → answers_of octets found.new.items ++ replicate idle.new None ≡ answers_of octets found.old.items ++ replicate idle.old None ++ option_map (datagram_at octets) result ∷ [] }
{
    if found.len() == entries.len() {
        *idle = idle.saturating_add(1);
        return None;
    }
    let datagram = cut(entries[found.len()], room);
    found.push_reserved(Found {
        idle: *idle,
        datagram,
    });
    *idle = 0;
    datagram
}

/// Hands a datagram over.
fn hand_over(octets: &[u8], datagram: Option<Span>, buf: &mut [u8]) -> Option<(u16, usize)>
    requires entry { IsEntry (length octets.now) datagram }
    requires room { IfSome datagram (λ span. span.end ≤ span.start + length buf.old) }
    ensures link { IfSome result (λ d. d.0 ≤ 255) }
    ensures within { IfSome result (λ d. d.1 ≤ length buf.old) }
    ensures handed { handed result buf.new ≡ option_map (datagram_at octets.now) datagram }
{
    let span = datagram?;
    let octets = &octets[span.start..span.end];
    buf[..octets.len()].copy_from_slice(octets);
    Some((span.link, octets.len()))
}

impl MemInbox {
    pub(crate) fn new(alloc: Global) -> Self
        ensures { result ≡ record { entries = []; used = 0; answered = 0; taken = Some [] } }
    {
        MemInbox {
            octets: Vec::new(alloc),
            entries: Vec::new(alloc),
            found: Vec::new(alloc),
            idle: 0,
            answered: 0,
        }
    }

    /// Appends an entry: a datagram.
    pub(crate) fn add(&mut self, link: u16, octets: &[u8]) -> Result<(), NoMemory>
        requires { link ≤ 255 }
        ensures added { OnOk result (self.new ≡ record self.old { entries = self.old.entries ++ Some (record { link = link; octets = octets.now }) ∷ [] }) }
        ensures unchanged { OnErr result (self.new ≡ self.old) }
    {
        make_room(&mut self.entries, &mut self.found)?;
        let start = self.octets.len();
        self.octets.extend_from_slice(octets)?;
        self.entries.push_reserved(Some(Span {
            link,
            start,
            end: self.octets.len(),
        }));
        Ok(())
    }

    /// Appends an entry: nothing.
    pub(crate) fn add_nothing(&mut self) -> Result<(), NoMemory>
        ensures added { OnOk result (self.new ≡ record self.old { entries = self.old.entries ++ None ∷ [] }) }
        ensures unchanged { OnErr result (self.new ≡ self.old) }
    {
        make_room(&mut self.entries, &mut self.found)?;
        self.entries.push_reserved(None);
        Ok(())
    }

    /// Uses the next entry, and hands its datagram over, cut to the buffer. None where that entry is
    /// nothing or the entries are used up.
    pub(crate) fn next(&mut self, buf: &mut [u8]) -> Option<(u16, usize)>
        ensures link { IfSome result (λ d. d.0 ≤ 255) }
        ensures within { IfSome result (λ d. d.1 ≤ length buf.old) }
        ensures found { handed result buf.new ≡ cut_to (length buf.old) (entry_at self.old.entries self.old.used) }
        ensures tells { self.new.answered < last_count → IsSome self.new.taken }
        ensures after { self.new ≡ arrivals_after (length buf.old) self.old }
    {
        self.answered = self.answered.saturating_add(1);
        let datagram = answer(&self.entries, &mut self.found, &mut self.idle, buf.len());
        hand_over(&self.octets, datagram, buf)
    }
}
