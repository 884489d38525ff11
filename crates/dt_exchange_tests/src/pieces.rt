//! Tests of how pieces become messages: each row has a piece, the message that it completes, and the drops so far.
use crate::fixtures::holds;
use dt_messages::{Joiner, Marks, Message};
use std::alloc::Global;
use std::process::Abort;

/// The marks of a piece (`r` run, `b` begin, `e` end) and its octets, then the message that it makes whole
/// and whether that has a gap, and how many messages were dropped by then.
type Row = (
    &'static [u8],
    &'static [u8],
    Option<(&'static [u8], bool)>,
    u64,
);

static ANY_LENGTH: [Row; 16] = [
    (b"rbe", b"one", Some((b"one", true)), 0),
    (b"be", b"two", Some((b"two", false)), 0),
    // in three pieces
    (b"b", b"th", None, 0),
    (b"", b"re", None, 0),
    (b"e", b"e", Some((b"three", false)), 0),
    // after a run mark the octets before it are no part of any, and those after it have no begin
    (b"b", b"lo", None, 0),
    (b"r", b"st", None, 0),
    (b"e", b"!", None, 0),
    (b"be", b"next", Some((b"next", true)), 0),
    (b"be", b"then", Some((b"then", false)), 0),
    // a begin mark begins anew
    (b"b", b"left", None, 0),
    (b"b", b"ne", None, 0),
    (b"e", b"w", Some((b"new", false)), 0),
    // octets outside of a message
    (b"", b"no", None, 0),
    (b"e", b"ne", None, 0),
    (b"rbe", b"end", Some((b"end", true)), 0),
];

static FOUR_AT_MOST: [Row; 13] = [
    (b"be", b"four", Some((b"four", false)), 0),
    // one that was too long is a gap at the next, once
    (b"be", b"five!", None, 1),
    (b"be", b"six", Some((b"six", true)), 1),
    (b"be", b"six", Some((b"six", false)), 1),
    // the rest of one that has outgrown it is no part of any, and isn't counted again
    (b"b", b"sev", None, 1),
    (b"", b"en", None, 2),
    (b"", b"more octets", None, 2),
    (b"e", b"s", None, 2),
    (b"b", b"ni", None, 2),
    (b"e", b"ne", Some((b"nine", true)), 2),
    (b"be", b"ten", Some((b"ten", false)), 2),
    (b"rb", b"eight", None, 3),
    (b"be", b"one", Some((b"one", true)), 3),
];

fn marks(letters: &[u8]) -> Marks {
    Marks {
        run: letters.contains(&b'r'),
        begin: letters.contains(&b'b'),
        end: letters.contains(&b'e'),
    }
}

fn is_whole(whole: &Option<Message>, wanted: &Option<(&[u8], bool)>) -> bool {
    match (whole, wanted) {
        (Some(message), Some((octets, gap))) => {
            message.octets.as_slice() == *octets && message.gap == *gap
        }
        (None, None) => true,
        _ => false,
    }
}

/// Whether a piece makes the message whole that its row says, if it makes one.
fn is_joined(alloc: Global, joiner: &mut Joiner, row: &Row) -> bool {
    match joiner.join(alloc, marks(row.0), row.1) {
        Ok(whole) => is_whole(&whole, &row.2) && joiner.dropped() == row.3,
        Err(_) => false,
    }
}

fn follows(rt: &impl Abort, alloc: Global, joiner: &mut Joiner, rows: &[Row]) {
    for (place, row) in rows.iter().enumerate() {
        let is = is_joined(alloc, joiner, row);
        holds(rt, is, place);
    }
}

/// Each piece goes as its row says, where messages have so many octets at most.
fn joins(rt: &impl Abort, alloc: Global, longest: Option<usize>, rows: &[Row]) {
    let mut joiner = Joiner::new(longest);
    follows(rt, alloc, &mut joiner, rows);
}

#[test]
fn messages_are_whole_from_begin_to_end(rt: HostRuntime) {
    joins(&rt, rt.alloc(), None, &ANY_LENGTH);
}

#[test]
fn longer_messages_are_dropped_and_counted(rt: HostRuntime) {
    joins(&rt, rt.alloc(), Some(4), &FOUR_AT_MOST);
}
