//! How many items of the ring go into a segment, and their octets on the way into a frame.
ghost use Rattle.std.specs.Prelude.{◌≡◌, ◌+◌, ◌^◌, ◌<◌, ◌≤◌, ◌==◌, ◌||◌, ◌&&◌, not, true, ◌++◌, length, drop, take};
ghost use Rattle.dt_items.specs.Unread.{octets_of};
ghost use Rattle.dt_layout.specs.declared.limits.TheConstants.{MOST_FRAME};
ghost use Rattle.dt_flow_model.specs.SendRecord.{cut_length};

use circular_buffer::HeapCircularBuffer;
use dt_items::{Item, copy_octets, item_in, unmarked_from};
use dt_layout::Frame;

/// Whether the item at this place isn't of the segment: the segment is full, or the item begins a
/// message after its first item.
fn is_beyond(item: &Item, place: usize, most: usize) -> bool
    ensures { result ≡ (place == most || (item.now.begin && not (place == 0))) }
{
    place == most || (item.begin && place != 0)
}

/// How many of the items from a place on go into one segment, at most `most`: a begin mark stands
/// only on its first and an end mark only on its last. The cost is that of the items that go.
pub fn cut_at(items: &HeapCircularBuffer<Item>, from: usize, most: usize) -> usize
    requires { from ≤ length items.now.items }
    ensures exact { result ≡ cut_length most true (drop from items.now.items) }
    ensures most { result ≤ most }
    ensures within { from + result ≤ length items.now.items }
{
    let there = items.len() - from;
    let mut i = 0;
    while i < there {
        let item = item_in(items, from + i);
        if is_beyond(&item, i, most) {
            return i;
        }
        if item.end {
            return i + 1;
        }
        // What has no mark goes too, as far as there is room.
        i += 1;
        i += unmarked_from(items, from + i, most - i);
    }
    there
}

/// How many octets are made at a time of items that are appended to a frame.
const STAGE: usize = 128;

/// Appends the octets of `count` items from a place on to the frame, as many at a time as the stage
/// holds. The cost is that of the items.
pub fn append_octets(items: &HeapCircularBuffer<Item>, from: usize, count: usize, frame: &mut Frame)
    requires there { from + count ≤ length items.now.items }
    requires bounded { length items.now.items < 2 ^ 63 }
    requires fits { length frame.old + count ≤ MOST_FRAME }
    ensures { frame.new ≡ frame.old ++ octets_of (take count (drop from items.now.items)) }
{
    let mut stage = [0; STAGE];
    let mut done = 0;
    while done < count {
        let more = STAGE.min(count - done);
        copy_octets(items, from + done, more, &mut stage);
        frame.append(&stage[..more]);
        done += more;
    }
}
