//! Tests of the sources of octets: one in memory with a planned failure, and one over a reader.
use crate::rough::Rough;
use dt_edges::{Failed, MemSource, ReaderSource, Source};
use std::process::Abort;

/// What a take answers, and what its buffer begins with then.
type Take = (Result<usize, Failed>, &'static [u8]);

/// Whether a take into the first octets of a buffer, as many as that, is as its row says.
fn is_taken<S: Source>(source: &mut S, buf: &mut [u8; 8], most: usize, row: &Take) -> bool {
    let (answer, first) = row;
    match buf.get_mut(..most) {
        Some(room) => { !room.is_empty() && source.take(room) == *answer && buf.starts_with(first) }
        None => false,
    }
}

/// The takes of a source, with one buffer.
fn takes<S: Source>(rt: &impl Abort, source: &mut S, most: usize, rows: &[Take]) {
    let mut buf = [0; 8];
    for row in rows {
        assert!(rt; is_taken(source, &mut buf, most, row));
    }
}

/// The second fails.
static IN_MEMORY: [Take; 4] = [
    (Ok(3), b"hel"),
    (Err(Failed), b"hel"),
    (Ok(2), b"lol"),
    (Ok(0), b"lol"),
];

static OVER_A_READER: [Take; 6] = [
    (Ok(2), b"he"),
    (Err(Failed), b""),
    (Ok(2), b"ll"),
    (Err(Failed), b""),
    (Ok(1), b"o"),
    (Ok(0), b""),
];

#[test]
fn a_source_hands_over_and_fails_where_it_is_told(rt: HostRuntime) {
    let mut source = MemSource::new(rt.alloc(), b"hello", &[2]).expect(&rt, "memory");
    takes(&rt, &mut source, 3, &IN_MEMORY);
}

#[test]
fn a_reader_is_a_source(rt: HostRuntime) {
    let mut source = ReaderSource::new(Rough::new(b"hello".as_slice()));
    takes(&rt, &mut source, 8, &OVER_A_READER);
}
