//! `Queue`, the accepted octets of a flow with their marks, from which each read takes a piece of one message.
ghost use Rattle.std.specs.Prelude.{◌≡◌, ◌+◌, ◌-◌, ◌^◌, ◌<◌, ◌≤◌, ◌↔◌, [], ◌∷◌, ◌++◌, drop, take, length, slice_get, IfOk, IfSome, IfNone, IsNone, IsSome};
ghost use Rattle.circular_buffer.specs.Buffer.{buffer};
ghost use Rattle.dt_items.specs.Unread.{Backlog, marked, unmarked, unmarked_item, octets_of, goes_on, first_piece, following, last_item, piece_told, IsLongestPiece, TakesPiece};

use crate::item::Item;
use crate::marked_octets::MarkedOctets;
use crate::memory::NoMemory;
use crate::octets::{copy_octets, item_in, unmarked_from};
use crate::piece::Piece;
use circular_buffer::HeapCircularBuffer;
use std::alloc::Global;
use std::marker::Model;

/// The octets that were accepted and not read yet, with their marks: a list of items, the next to be
/// read first, and a room, which is the most items that there may be. The memory for the room is
/// taken when the queue is made.
#[derive(Drop)]
pub struct Queue {
    ring: HeapCircularBuffer<Item>,
}

impl Model for Queue {
    ghost Value = { Backlog };

    ghost view = { λ q. record { items = q.ring.items; room = q.ring.capacity } };

    ghost invariant = { λ q. (length q.ring.items ≤ q.ring.capacity) × (q.ring.capacity < 2 ^ 32) };
}

/// Whether an item goes on the piece of the item before it.
fn goes_on(before: &Item, item: &Item) -> bool
    ensures { result ≡ goes_on before.now item.now }
{
    !(before.end || item.begin || item.run)
}

/// How many of the items, at most `most`, go on the piece of the item before them. Those without a
/// mark do, and then one more whose only mark is the end mark.
fn following_len(before: &Item, items: &HeapCircularBuffer<Item>, most: usize) -> usize
    ensures value { result ≡ length (following most before.now items.now.items) }
    ensures within { (result ≤ most) × (result ≤ length items.now.items) }
{
    if before.end {
        return 0;
    }
    let count = unmarked_from(items, 0, most);
    if count == most || count == items.len() {
        return count;
    }
    if goes_on(before, &item_in(items, count)) {
        count + 1
    } else {
        count
    }
}

/// The last of the first item and of `more` after it.
fn last_of(first: &Item, items: &HeapCircularBuffer<Item>, more: usize) -> Item
    requires { more ≤ length items.now.items }
    ensures { result ≡ last_item first.now (take more items.now.items) }
{
    if more == 0 {
        *first
    } else {
        item_in(items, more - 1)
    }
}

/// Copies the octets of the first item, and of those after it that go on its piece, as many as fit, to
/// the front of the buffer, and answers the piece.
fn copy_piece(first: &Item, items: &HeapCircularBuffer<Item>, buf: &mut [u8]) -> Piece
    requires { 0 < length buf.old }
    ensures copied { let left = drop (result.len - 1) items.now.items in
        TakesPiece (length buf.old) (first.now ∷ items.now.items) buf.old result left buf.new }
    ensures within { (0 < result.len) × (result.len ≤ length items.now.items + 1) }
{
    let more = following_len(first, items, buf.len() - 1);
    buf[0] = first.octet;
    copy_octets(items, 0, more, &mut buf[1..]);
    Piece {
        len: more + 1,
        begin: first.begin,
        end: last_of(first, items, more).end,
        run: first.run,
    }
}

/// Takes the items that go on the piece of the first one, as many as fit in the buffer with it, and
/// writes the octets of all to the front of the buffer.
fn take_piece(first: &Item, ring: &mut HeapCircularBuffer<Item>, buf: &mut [u8]) -> Piece
    requires { 0 < length buf.old }
    ensures taken { let items = first.now ∷ ring.old.items in
        TakesPiece (length buf.old) items buf.old result ring.new.items buf.new }
    ensures capacity { ring.new.capacity ≡ ring.old.capacity }
{
    let piece = copy_piece(first, ring, buf);
    ring.truncate_front(ring.len() - (piece.len - 1));
    piece
}

/// How many items are made before they are appended.
const STAGE: usize = 128;

/// The item of an octet without marks.
fn unmarked(octet: u8) -> Item
    ensures { result ≡ unmarked_item octet }
{
    Item {
        octet,
        begin: false,
        end: false,
        run: false,
    }
}

/// Writes the items of octets without marks to the front of the stage, and leaves its rest.
fn fill_unmarked(stage: &mut [Item], octets: &[u8])
    requires { length octets.now ≤ length stage.old }
    ensures len { length stage.new ≡ length stage.old }
    ensures items { take (length octets.now) stage.new ≡ unmarked octets.now }
{
    for i in 0..octets.len() {
        stage[i] = unmarked(octets[i]);
    }
}

/// Appends octets without marks, which fit into the ring: as many at a time as the stage holds.
fn append_unmarked(ring: &mut HeapCircularBuffer<Item>, octets: &[u8])
    requires { length ring.old.items + length octets.now ≤ ring.old.capacity }
    ensures { ring.new ≡ buffer (ring.old.items ++ unmarked octets.now) ring.old.capacity }
{
    let mut stage = [unmarked(0); STAGE];
    let mut done = 0;
    while done < octets.len() {
        let count = STAGE.min(octets.len() - done);
        fill_unmarked(&mut stage, &octets[done..done + count]);
        ring.extend_from_slice(&stage[..count]);
        done += count;
    }
}

/// Appends octets that come together, with their marks: the first item gets the marks begin and run,
/// the last gets the mark end, and all other marks are off. They fit into the ring. The cost is that
/// of the octets, and no memory is taken.
pub fn append_marked(ring: &mut HeapCircularBuffer<Item>, added: &MarkedOctets<'_>, run: bool)
    requires { length ring.old.items + length added.now.octets.now ≤ ring.old.capacity }
    ensures { ring.new ≡ buffer (ring.old.items ++ marked added.now.octets.now added.now.begin added.now.end run) ring.old.capacity }
{
    let octets = added.octets;
    if octets.is_empty() {
        return;
    }
    let last = octets.len() - 1;
    ring.push_back(added.item_at(0, run));
    if 0 < last {
        append_unmarked(ring, &octets[1..last]);
        ring.push_back(added.item_at(last, run));
    }
}

impl Queue {
    /// An empty queue for at most `room` items. Takes the memory for all of them.
    pub fn with_room(alloc: Global, room: u32) -> Result<Queue, NoMemory>
        ensures { IfOk result (λ queue. queue ≡ record { items = []; room = room }) }
    {
        Ok(Queue {
            ring: HeapCircularBuffer::with_capacity(alloc, room as usize)?,
        })
    }

    /// The number of unread items.
    pub fn len(&self) -> u32
        ensures value { result ≡ length self.now.items }
        ensures within { length self.now.items ≤ self.now.room }
    {
        self.ring.len() as u32
    }

    /// How many more items there may be.
    pub fn free(&self) -> u32
        ensures { result + length self.now.items ≡ self.now.room }
    {
        self.ring.capacity() as u32 - self.len()
    }

    /// The ring that holds the unread items, the next to be read first. Its capacity is the room.
    pub fn ring(&self) -> &HeapCircularBuffer<Item>
        ensures { result.now ≡ buffer self.now.items self.now.room }
    {
        &self.ring
    }

    /// Appends the octets. The first gets the begin and run marks, the last gets the end mark, and
    /// all other marks are off. There is at least one octet, and no more than [`Queue::free`] says.
    /// The cost is that of the octets, and no memory is taken.
    pub fn push_all(&mut self, octets: &[u8], begin: bool, end: bool, run: bool)
        requires some { 0 < length octets.now }
        requires fits { length self.old.items + length octets.now ≤ self.old.room }
        ensures { let added = marked octets.now begin end run in
            self.new ≡ record self.old { items = self.old.items ++ added } }
    {
        let added = MarkedOctets { octets, begin, end };
        append_marked(&mut self.ring, &added, run);
    }

    /// Takes the most items that fit in the buffer, which isn't empty, such that an end mark stands
    /// only on the last and a begin or run mark only on the first. Their octets are written to the
    /// front of the buffer, and the rest of it stays. None comes exactly where nothing is unread, and
    /// then nothing changes. It takes no memory, and costs the number of items that it takes.
    pub fn read_into(&mut self, buf: &mut [u8]) -> Option<Piece>
        requires { 0 < length buf.old }
        ensures none { IsNone result ↔ (self.old.items ≡ []) }
        ensures piece { result ≡ piece_told (first_piece (length buf.old) self.old.items) }
        ensures longest { IsLongestPiece (length buf.old) self.old.items (first_piece (length buf.old) self.old.items) }
        ensures rest { self.old.items ≡ first_piece (length buf.old) self.old.items ++ self.new.items }
        ensures room { self.new.room ≡ self.old.room }
        ensures octets { let piece = first_piece (length buf.old) self.old.items in
            buf.new ≡ octets_of piece ++ drop (length piece) buf.old }
        ensures len { IfSome result (λ piece. (0 < piece.len) × (piece.len ≤ length buf.old)) }
    {
        let first = self.ring.pop_front()?;
        Some(take_piece(&first, &mut self.ring, buf))
    }
}
