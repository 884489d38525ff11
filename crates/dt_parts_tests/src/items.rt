//! A queue of octets with marks, pushed and read piece by piece.
ghost use Rattle.std.specs.Prelude.{◌<◌, length};

use dt_items::{Piece, Queue};
use std::alloc::Global;
use std::process::Abort;

/// What is done with a queue. Of the marks `r` is run, `b` begin and `e` end.
enum Step {
    /// Octets are pushed with these marks.
    Push(&'static [u8], &'static [u8]),
    /// A read of at most so many octets gives these with these marks.
    Read(usize, &'static [u8], &'static [u8]),
    /// A read gives nothing.
    Nothing,
    /// All room is taken, which is so many octets.
    Full(u32),
}

fn has(marks: &[u8], mark: u8) -> bool {
    marks.contains(&mark)
}

fn is_piece(piece: Option<Piece>, len: usize, marks: &[u8]) -> bool {
    let expected = Piece {
        len,
        begin: has(marks, b'b'),
        end: has(marks, b'e'),
        run: has(marks, b'r'),
    };
    piece == Some(expected)
}

/// A buffer before a read.
static DOTS: [u8; 8] = [b'.'; 8];

/// Whether a buffer has these octets first, and the rest of it is as it was.
fn begins_with(buf: &[u8], octets: &[u8]) -> bool {
    match buf.get(octets.len()..) {
        Some(rest) => buf.starts_with(octets) && DOTS.starts_with(rest),
        None => false,
    }
}

/// Whether there is room for octets, which are then pushed.
fn is_pushed(queue: &mut Queue, octets: &[u8], marks: &[u8]) -> bool {
    let fit = !octets.is_empty() && octets.len() <= queue.free() as usize;
    if fit {
        queue.push_all(octets, has(marks, b'b'), has(marks, b'e'), has(marks, b'r'));
    }
    fit
}

/// Whether a read gives so many octets, with these marks, and no more are gone then.
fn gives(queue: &mut Queue, buf: &mut [u8], len: usize, marks: &[u8]) -> bool
    requires { 0 < length buf.old }
{
    let unread = queue.len() as usize;
    let piece = queue.read_into(buf);
    is_piece(piece, len, marks) && queue.len() as usize == unread.saturating_sub(len)
}

/// Whether a read of at most so many octets gives these.
fn is_read(queue: &mut Queue, most: usize, octets: &[u8], marks: &[u8]) -> bool {
    let mut buf = DOTS;
    0 < most
        && most <= 8
        && gives(queue, &mut buf[..most], octets.len(), marks)
        && begins_with(&buf, octets)
}

fn reads_nothing(queue: &mut Queue) -> bool {
    let mut buf = [b'.'; 2];
    queue.read_into(&mut buf).is_none() && begins_with(&buf, b"") && queue.len() == 0
}

fn is_full(queue: &Queue, room: u32) -> bool {
    let ring = queue.ring();
    queue.len() == room
        && queue.free() == 0
        && ring.len() == room as usize
        && ring.capacity() == room as usize
}

fn is_done(queue: &mut Queue, step: &Step) -> bool {
    match step {
        Step::Push(octets, marks) => is_pushed(queue, octets, marks),
        Step::Read(most, octets, marks) => is_read(queue, *most, octets, marks),
        Step::Nothing => reads_nothing(queue),
        Step::Full(room) => is_full(queue, *room),
    }
}

/// Does steps, each so many times.
fn do_steps(rt: &impl Abort, queue: &mut Queue, rounds: &[(u32, &[Step])]) {
    for (count, steps) in rounds {
        for _ in 0..*count {
            for step in *steps {
                let is = is_done(queue, step);
                assert!(rt; is);
            }
        }
    }
}

/// Does the same with a queue of so many octets.
fn do_with_room(rt: &impl Abort, alloc: Global, room: u32, rounds: &[(u32, &[Step])]) {
    let mut queue = Queue::with_room(alloc, room).expect(rt, "memory");
    do_steps(rt, &mut queue, rounds);
}

static IN_PIECES: [(u32, &[Step]); 1] = [(
    1,
    &[
        Step::Push(b"hello", b"rbe"),
        Step::Read(1, b"h", b"rb"),
        Step::Read(1, b"e", b""),
        Step::Read(1, b"l", b""),
        Step::Read(1, b"l", b""),
        Step::Read(1, b"o", b"e"),
        Step::Push(b"hello", b"be"),
        Step::Read(2, b"he", b"b"),
        Step::Read(2, b"ll", b""),
        Step::Read(2, b"o", b"e"),
        Step::Push(b"hello", b"rbe"),
        Step::Full(5),
        Step::Read(8, b"hello", b"rbe"),
        Step::Nothing,
    ],
)];

#[test]
fn a_message_is_read_in_pieces(rt: HostRuntime) {
    do_with_room(&rt, rt.alloc(), 5, &IN_PIECES);
}

/// Two messages, the first of which came in two segments; one that doesn't end, and one that begins; a
/// run mark in the middle.
static MESSAGES_AND_RUNS: [(u32, &[Step]); 1] = [(
    1,
    &[
        Step::Push(b"ab", b"b"),
        Step::Push(b"cd", b"e"),
        Step::Push(b"ef", b"be"),
        Step::Push(b"gh", b"b"),
        Step::Push(b"i", b"b"),
        Step::Push(b"jk", b"r"),
        Step::Push(b"l", b"e"),
        Step::Read(8, b"abcd", b"be"),
        Step::Read(8, b"ef", b"be"),
        Step::Read(8, b"gh", b"b"),
        Step::Read(8, b"i", b"b"),
        Step::Read(8, b"jkl", b"re"),
        Step::Nothing,
    ],
)];

#[test]
fn a_piece_is_of_one_message_and_of_one_run(rt: HostRuntime) {
    do_with_room(&rt, rt.alloc(), 12, &MESSAGES_AND_RUNS);
}

static FOR_LONG: [(u32, &[Step]); 3] = [
    (1, &[Step::Nothing]),
    (
        1000,
        &[
            Step::Push(b"abc", b"be"),
            Step::Read(1, b"a", b"b"),
            Step::Push(b"d", b"e"),
            Step::Read(8, b"bc", b"e"),
            Step::Read(8, b"d", b"e"),
        ],
    ),
    (1, &[Step::Nothing]),
];

#[test]
fn a_queue_is_filled_and_read_for_long(rt: HostRuntime) {
    do_with_room(&rt, rt.alloc(), 4, &FOR_LONG);
}

/// Kilobytes of one letter.
static GREATEST_ROOM: [(u32, &[Step]); 2] = [
    (64, &[Step::Push(&[b'x'; 1024], b"be")]),
    (1, &[Step::Full(65_536)]),
];

#[test]
fn a_queue_is_filled_to_the_greatest_room(rt: HostRuntime) {
    do_with_room(&rt, rt.alloc(), 65_536, &GREATEST_ROOM);
}
