//! Inputs that are cut short, and inputs that are too long.
use crate::trial_rows::{ends_so, holds};
use dt_trial::{FREELY, Trial, tried};
use std::alloc::Global;

/// A setup with two stations, and a link each way.
const SETUP: &str = "params 1000 3000 200 500 800 100 4096 4096 512 2147483648
station 1 0
station 2 0
link 1 1 2 50 0
link 2 2 1 50 0
route 1 2 1
route 2 1 2
go
";

/// Whether a command that sends so many octets finds memory behind a text.
fn is_sent(text: &mut String, count: usize) -> bool {
    for _ in 0..count {
        if text.push_str("61").is_err() {
            return false;
        }
    }
    true
}

/// A schedule that sends so many octets.
fn sends(alloc: Global, count: usize) -> Option<String> {
    let mut text = String::from_str(alloc, SETUP).ok()?;
    if text.push_str("send 1:10>2:20 be ").is_ok() && is_sent(&mut text, count) {
        Some(text)
    } else {
        None
    }
}

/// Whether a schedule that sends so many octets ends so.
fn send_ends(alloc: Global, count: usize, status: u8, out: &[u8], said: &[u8]) -> bool {
    match sends(alloc, count) {
        Some(input) => {
            let trial = Trial {
                input: input.as_bytes(),
                ..FREELY
            };
            ends_so(alloc, &trial, status, out, said)
        }
        None => false,
    }
}

#[test]
fn a_message_is_too_long(rt: HostRuntime) {
    let alloc = rt.alloc();
    let log = b"0 1 refused 1:10>2:20 full 4096\nend 0\n";
    assert!(rt; send_ends(alloc, 65_536, 0, log, b""));
    assert!(rt; send_ends(alloc, 65_537, 3, b"line 9: hex\n", b"input refused\n"));
}

/// The commands that read an input.
static READERS: [&[&str]; 4] = [&["replay"], &["node"], &["calls"], &["audit"]];

/// Whether each of them says that this one is too long.
fn is_too_long(alloc: Global, input: &[u8]) -> bool {
    let said = b"input longer than 16777216 octets\n";
    for words in &READERS {
        let trial = Trial {
            words,
            input,
            ..FREELY
        };
        if !ends_so(alloc, &trial, 3, b"", said) {
            return false;
        }
    }
    true
}

/// Whether an input of one word is read.
fn is_read(alloc: Global, input: &[u8]) -> bool {
    let trial = Trial { input, ..FREELY };
    ends_so(alloc, &trial, 3, b"line 1: word\n", b"input refused\n")
}

#[test]
fn an_input_is_too_long(rt: HostRuntime) {
    let input = vec![in rt.alloc(); b'x'; 16_777_217].expect(&rt, "memory");
    assert!(rt; is_too_long(rt.alloc(), &input));
    assert!(rt; is_read(rt.alloc(), input.get(1..).unwrap_or(b"")));
}

/// A short exchange.
const WHOLE: &str = "params 1000 3000 200 500 800 100 4096 4096 512 2147483648
station 1 0
station 2 0
link 1 1 2 50 0
link 2 2 1 50 0
route 1 2 1
route 2 1 2
go
send 1:10>2:20 be 68656c6c6f
pass 40
arrive 0
pass 30
arrive 1
read 1:10>2:20 100
";

/// The lines of its log before the last two.
const EXCHANGE_LOG: &[u8] = b"0 1 took 1:10>2:20 5
0 1 sent 1:10>2:20 0 5 dbe
0 1 put 1 999 as 0
40 2 accepted 1:10>2:20 0 5 run
40 2 acked 1:10>2:20 5 4091
40 2 put 2 999 as 1
70 1 settled 1:10>2:20 5 4091
70 2 read 1:10>2:20 rbe 68656c6c6f
";

/// Whether a log of a refused input is a first part of the log above and then the fault of this line.
fn refuses(log: &[u8], line: &[u8]) -> bool {
    match log.strip_suffix(b"\n") {
        Some(lines) => {
            let (before, last) = match lines.iter().rposition(|octet| *octet == b'\n') {
                Some(place) => lines.split_at(place + 1),
                None => lines.split_at(0),
            };
            EXCHANGE_LOG.starts_with(before) && last.starts_with(line)
        }
        None => false,
    }
}

/// Whether a log is that of an input which is refused at the line of a number, as this is said.
fn is_refused_at(alloc: Global, log: &[u8], line: usize, said: &str) -> bool {
    match format!(in alloc; "line {line}: {said}") {
        Ok(begin) => refuses(log, begin.as_bytes()),
        Err(_) => false,
    }
}

/// Whether a log is that of an input with so many line feeds, which is refused at its last line or after it.
fn is_refused(alloc: Global, log: &[u8], feeds: usize) -> bool {
    is_refused_at(alloc, log, feeds.wrapping_add(1), "")
        || is_refused_at(alloc, log, feeds.wrapping_add(2), "order")
}

/// A cut input is accepted, or refused at its last line or after it.
fn is_cut(alloc: Global, input: &[u8]) -> bool {
    let trial = Trial { input, ..FREELY };
    let feeds = input.iter().filter(|octet| **octet == b'\n').count();
    match tried(alloc, &trial) {
        Ok(left) => match left.status {
            0 => true,
            3 => is_refused(alloc, left.out.as_slice(), feeds),
            _ => false,
        },
        Err(_) => false,
    }
}

#[test]
fn an_input_is_cut_short(rt: HostRuntime) {
    let octets = WHOLE.as_bytes();
    for count in 0..octets.len() {
        holds(&rt, is_cut(rt.alloc(), &octets[..count]), count);
    }
}
