//! The first fault of a line.
use crate::forms::{all_hold, fault_text, form_of, is_read_as, is_read_with, parts};
use dt_text::Form;
use std::alloc::Global;

/// Whether a word goes to the end of a line; `place` is how many words stand there.
fn puts_word(octets: &mut Vec<u8>, word: &str, place: usize) -> bool {
    (place == 0 || octets.push(b' ').is_ok()) && octets.extend_from_slice(word.as_bytes()).is_ok()
}

/// Whether a line is put whose words are `x` from a place on, but for the third word after `at T`, which
/// chooses the line: it is `x` only where the place is its own.
fn puts_spoiled(octets: &mut Vec<u8>, line: &str, place: usize) -> bool {
    let chooses = line.starts_with("at ");
    for (at, word) in line.split(' ').enumerate() {
        let stays = at < place || chooses && at == 2 && place != 2;
        if !puts_word(octets, if stays { word } else { "x" }, at) {
            return false;
        }
    }
    true
}

/// A form, the letters of faults, and a line. The line is read, has the fault Count with one word
/// more, and has these faults where a word and all after it are none of their kinds: the first letter
/// is that of the first word, and so on.
const FAULTS: &str = "s|wnnnnnnnnnnn|params 1 1 1 1 1 1 1 1 1 1 1
s|wnn|station 1 0
s|wnnnnn|link 1 1 2 50 0
s|wnnn|route 1 2 1
s|w|go
s|wn|pass 1
s|wfwh|send 1:10>2:20 be 61
s|wfn|read 1:10>2:20 1
s|wn|tick 1
s|wn|arrive 1
s|wn|lose 1
s|wn|restart 1
n|wnnnnnnnnnnn|params 1 1 1 1 1 1 1 1 1 1 1
n|wnw|me 1 again
n|wn|local 1.2.3.4:5
n|wnnnn|peer 1 1.2.3.4:5 50 0
n|wnn|route 2 1
n|wn|shelf 1
n|w|go
n|wnwfwh|at 1 send 1:10>2:20 be 61
n|wnwfn|at 1 read 1:10>2:20 1
n|wnw|at 1 stop
c|wnnnnnnnnnnn|params 1 1 1 1 1 1 1 1 1 1 1
c|wnn|station 1 0
c|wnnnnn|link 1 1 2 50 0
c|wnnn|route 1 2 1
c|w|go
c|wfh|call 1:10>2:20 61
c|wn|pass 1
c|wn|tick 1
c|wn|arrive 1
c|wn|lose 1
c|wn|restart 1";

/// Whether a line has this fault where its words from a place on are `x`.
fn has_fault(alloc: Global, form: Form, line: &str, place: usize, fault: u8) -> bool {
    let mut octets = Vec::new(alloc);
    puts_spoiled(&mut octets, line, place) && is_read_as(alloc, form, &octets, fault_text(fault))
}

/// Whether each word of a line has its fault.
fn has_faults(alloc: Global, form: Form, faults: &str, line: &str) -> bool {
    for (place, letter) in faults.as_bytes().iter().enumerate() {
        if !has_fault(alloc, form, line, place, *letter) {
            return false;
        }
    }
    !faults.is_empty()
}

/// Whether a line is read, and not with one word more.
fn is_whole(alloc: Global, form: Form, line: &str) -> bool {
    is_read_with(alloc, form, "* 1", line, "Err(Count)")
        && is_read_as(alloc, form, line.as_bytes(), "Ok(")
}

/// Whether the line of a row is whole and has the faults of the row.
fn is_refused(alloc: Global, row: &str) -> bool {
    let (letter, faults, line) = parts(row);
    let form = form_of(letter);
    is_whole(alloc, form, line) && has_faults(alloc, form, faults, line)
}

#[test]
fn the_first_fault_of_each_kind(rt: HostRuntime) {
    all_hold(&rt, rt.alloc(), FAULTS, is_refused);
}
