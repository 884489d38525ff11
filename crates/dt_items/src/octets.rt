//! Items of a ring: those without marks, and the octets of all.
ghost use Rattle.std.specs.Prelude.{◌≡◌, ◌+◌, ◌^◌, ◌<◌, ◌≤◌, ◌++◌, max, true, length, take, drop, slice_get, Some};
ghost use Rattle.dt_items.specs.Unread.{octets_of};
ghost use Rattle.dt_items.specs.Unmarked.{unmarked_count};

use crate::item::Item;
use circular_buffer::HeapCircularBuffer;

/// The item at a place of the ring.
pub fn item_in(items: &HeapCircularBuffer<Item>, place: usize) -> Item
    requires { place < length items.now.items }
    ensures { slice_get items.now.items place ≡ Some result }
{
    match items.get(place) {
        Some(item) => *item,
        None => unreachable!(),
    }
}

/// The items from a place on: those up to the end of the ring's block, and those that wrapped round.
fn items_from(items: &HeapCircularBuffer<Item>, from: usize) -> (&[Item], &[Item])
    requires { from ≤ length items.now.items }
    ensures { result.0.now ++ result.1.now ≡ drop from items.now.items }
{
    let (front, back) = items.as_slices();
    if from < front.len() {
        (&front[from..], back)
    } else {
        (&back[from - front.len()..], &[])
    }
}

/// How many items are looked at together.
const BLOCK: usize = 64;

/// The greater of two numbers.
fn greater(one: u32, other: u32) -> u32
    ensures { result ≡ max one other }
{
    if one < other { other } else { one }
}

/// Whether no item has a mark. The greatest of their numbers is found with no branch for each.
fn are_unmarked(items: &[Item]) -> bool
    ensures { result ≡ true → unmarked_count items.now ≡ length items.now }
{
    let mut greatest = 0;
    for i in 0..items.len() {
        greatest = greater(greatest, items[i].whole());
    }
    greatest < 256
}

/// How many of the items stand before the first that has a mark.
fn unmarked_in(items: &[Item]) -> usize
    ensures value { result ≡ unmarked_count items.now }
    ensures within { result ≤ length items.now }
{
    let mut done = 0;
    while BLOCK <= items.len() - done && are_unmarked(&items[done..done + BLOCK]) {
        done += BLOCK;
    }
    for i in done..items.len() {
        if !items[i].is_unmarked() {
            return i;
        }
    }
    items.len()
}

/// How many of the items from a place on, at most `most`, stand before the first that has a mark. The
/// cost is that of these items.
pub fn unmarked_from(items: &HeapCircularBuffer<Item>, from: usize, most: usize) -> usize
    requires { from ≤ length items.now.items }
    ensures value { result ≡ unmarked_count (take most (drop from items.now.items)) }
    ensures most { result ≤ most }
    ensures within { from + result ≤ length items.now.items }
{
    let (front, back) = items_from(items, from);
    let there = most.min(front.len());
    let count = unmarked_in(&front[..there]);
    if count < there {
        return count;
    }
    let left = (most - there).min(back.len());
    count + unmarked_in(&back[..left])
}

/// Copies the octets of the items to the front of the room, and leaves its rest.
fn copy_run(items: &[Item], room: &mut [u8])
    requires { length items.now ≤ length room.old }
    ensures { room.new ≡ octets_of items.now ++ drop (length items.now) room.old }
{
    for i in 0..items.len() {
        room[i] = (items[i].whole() % 256) as u8;
    }
}

/// Copies the octets of `count` items from a place on to the front of the room, and leaves its rest.
/// The cost is that of the items.
pub fn copy_octets(items: &HeapCircularBuffer<Item>, from: usize, count: usize, room: &mut [u8])
    requires there { from + count ≤ length items.now.items }
    requires fits { count ≤ length room.old }
    ensures { room.new ≡ octets_of (take count (drop from items.now.items)) ++ drop count room.old }
{
    let (front, back) = items_from(items, from);
    let first = count.min(front.len());
    copy_run(&front[..first], room);
    copy_run(&back[..count - first], &mut room[first..]);
}
