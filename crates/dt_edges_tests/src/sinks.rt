//! Tests of sinks: in memory, over a writer, over standard error, and with a buffer before the sink.
use crate::rough::Rough;
use dt_edges::{Buffer, Buffered, Failed, MemSink, Sink, WriterSink, put_all};
use std::process::Abort;

/// What is put, and its answer.
enum Put {
    /// A piece in one call.
    Once(&'static [u8], Result<usize, Failed>),
    /// All of a text.
    All(&'static [u8], Result<(), Failed>),
}

/// Whether a put has its answer.
fn is_put<K: Sink>(sink: &mut K, row: &Put) -> bool {
    match row {
        Put::Once(piece, answer) => !piece.is_empty() && sink.put(piece) == *answer,
        Put::All(text, answer) => put_all(text, sink) == *answer,
    }
}

fn puts<K: Sink>(rt: &impl Abort, sink: &mut K, rows: &[Put]) {
    for row in rows {
        assert!(rt; is_put(sink, row));
    }
}

/// The third call fails, and there is room for eight octets.
static IN_MEMORY: [Put; 5] = [
    Put::All(b"", Ok(())),
    Put::All(b"abc", Ok(())),
    Put::All(b"def", Ok(())),
    Put::All(b"x", Err(Failed)),
    Put::All(b"ghi", Err(Failed)),
];

static OVER_A_WRITER: [Put; 5] = [
    Put::Once(b"hello", Ok(2)),
    Put::Once(b"llo", Err(Failed)),
    Put::Once(b"llo", Ok(2)),
    Put::All(b"o", Err(Failed)),
    Put::All(b"o!!", Ok(())),
];

/// With room for one octet.
static OVER_A_FULL_WRITER: [Put; 2] = [Put::Once(b"xy", Ok(1)), Put::Once(b"y", Err(Failed))];

#[test]
fn a_sink_takes_what_there_is_room_for(rt: HostRuntime) {
    let mut sink = MemSink::new(rt.alloc(), 8, &[3]).expect(&rt, "memory");
    puts(&rt, &mut sink, &IN_MEMORY);
    assert!(rt; sink.as_slice() == b"abcdefgh".as_slice());
}

#[test]
fn a_writer_is_a_sink(rt: HostRuntime) {
    let mut sink = WriterSink::new(Rough::new(Vec::<u8>::new(rt.alloc())));
    puts(&rt, &mut sink, &OVER_A_WRITER);
    assert!(rt; sink.get_ref().calm.as_slice() == b"hello!!".as_slice());
}

#[test]
fn a_full_writer_fails(rt: HostRuntime) {
    let mut room = [0; 1];
    let mut sink = WriterSink::new(room.as_mut_slice());
    puts(&rt, &mut sink, &OVER_A_FULL_WRITER);
}

static OCTETS: [u8; 3000] = [7; 3000];

/// Whether octets are put through the buffer, four times.
fn is_buffered(sink: &mut MemSink, buffer: &mut Buffer) -> bool {
    let mut log = Buffered { out: sink, buffer };
    for _ in 0..4 {
        if put_all(&OCTETS, &mut log).is_err() {
            return false;
        }
    }
    true
}

/// Whether more is put than the buffer holds, and the rest passed on.
fn passes_on(sink: &mut MemSink, buffer: &mut Buffer) -> bool {
    is_buffered(sink, buffer) && buffer.pass_on(sink) == Ok(()) && sink.as_slice().len() == 12_000
}

#[test]
fn a_buffer_passes_on(rt: HostRuntime) {
    let mut sink = MemSink::new(rt.alloc(), 20_000, &[]).expect(&rt, "memory");
    let mut buffer = Buffer::new(rt.alloc()).expect(&rt, "memory");
    assert!(rt; passes_on(&mut sink, &mut buffer));
}

#[test]
fn standard_error_is_a_sink(rt: HostRuntime) {
    let mut err = WriterSink::new(rt.stderr());
    let text = b"a test writes on standard error\n";
    assert!(rt; put_all(text, &mut err).is_ok());
}
