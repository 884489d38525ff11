//! What gives of a wire in memory have taken.
ghost use Rattle.std.specs.Prelude.{◌≡◌, [], cond, length, slice_get, Some, None, IfOk, MatchOption};
ghost use Rattle.dt_edges.specs.Wires.{has_room, departed};

use crate::spans::Span;
use dt_items::NoMemory;
use std::alloc::Global;
use std::marker::Model;

/// Datagrams that were sent, and the room for them: the most octets in all, and the most datagrams.
#[derive(Drop)]
pub struct MemOutbox {
    room: usize,
    octets: Vec<u8>,
    spans: Vec<Span>,
}

impl Model for MemOutbox {
    ghost use Rattle.std.specs.Prelude.{◌≡◌, ◌≤◌, map, length, vec_len, vec_capacity};
    ghost use Rattle.std.specs.List.{All};
    ghost use Rattle.dt_edges.specs.Wires.{Departures, octets_in};
    ghost use Rattle.dt_edges.specs.Spans.{datagram_at, IsWithin};

    ghost Value = { Departures };

    ghost view = { λ o. record { room = o.room; given = map (datagram_at o.octets.items) o.spans.items } };

    ghost invariant = { λ o. record {
      octets_fit : vec_len o.octets ≤ o.room;
      octets_room : o.room ≤ vec_capacity o.octets;
      spans_fit : vec_len o.spans ≤ o.room;
      spans_room : o.room ≤ vec_capacity o.spans;
      within : All (IsWithin (length o.octets.items)) o.spans.items;
      in_all : octets_in (map (datagram_at o.octets.items) o.spans.items) ≡ vec_len o.octets;
    } };
}

impl MemOutbox {
    pub(crate) fn with_room(alloc: Global, room: usize) -> Result<Self, NoMemory>
        ensures { IfOk result (λ o. o ≡ record { room = room; given = [] }) }
    {
        Ok(MemOutbox {
            room,
            octets: Vec::with_capacity(alloc, room)?,
            spans: Vec::with_capacity(alloc, room)?,
        })
    }

    /// Keeps a datagram, if there is room.
    pub(crate) fn keep(&mut self, link: u16, octets: &[u8]) -> bool
        ensures room { result ≡ has_room self.old (length octets.now) }
        ensures kept { self.new ≡ cond result (departed (record { link = link; octets = octets.now }) self.old) self.old }
    {
        if octets.len() > self.room - self.octets.len() || self.spans.len() == self.room {
            return false;
        }
        let start = self.octets.len();
        match self.octets.extend_from_slice(octets) {
            Ok(()) => (),
            Err(_) => unreachable!(),
        }
        self.spans.push_reserved(Span {
            link,
            start,
            end: self.octets.len(),
        });
        true
    }

    /// The datagram of this number, counted from 0: its link and its octets.
    pub(crate) fn get(&self, number: usize) -> Option<(u16, &[u8])>
        ensures { MatchOption result (slice_get self.now.given number ≡ None) (λ d. slice_get self.now.given number ≡ Some (record { link = d.0; octets = d.1.now })) }
    {
        let span = *self.spans.get(number)?;
        Some((span.link, &self.octets[span.start..span.end]))
    }
}
