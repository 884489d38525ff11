//! The worked rows: each input of the folder is run as the program runs it, over the forms in memory,
//! and what is written and the status are compared with those that stand beside it. It is run again with
//! each room that is less than its log. What is printed is one line for each row. Each line of standard
//! input is `NAME WORD STATUS`.
#![tactic(auto)]

use dt_trial::{FREELY, Trial, Untried, is_cut_short, tried};
use std::alloc::Global;
use std::{fs, io};

/// The room for a log, in octets.
const ROOM: usize = 65_536;

/// Whether the run is cut off at each room that is less than its log. Of a log of more than 1,200 octets
/// every third room is tried.
fn is_cut_at_each_room(alloc: Global, trial: &Trial<'_>, log: &[u8]) -> bool {
    for room in 0..log.len() {
        let is_tried = log.len() <= 1_200 || room % 3 == 0;
        let less = Trial {
            out_room: room,
            ..*trial
        };
        if is_tried && is_cut_short(alloc, &less, log) != Ok(true) {
            return false;
        }
    }
    true
}

/// What is said of a row: whether the log and the status are those that stand beside it, and whether
/// less room gets a first part of the log.
fn said<'a>(
    alloc: Global,
    words: &'a [&'a str],
    input: &'a [u8],
    log: &[u8],
    status: &str,
) -> &'static str {
    let trial = Trial {
        words,
        input,
        out_room: ROOM,
        ..FREELY
    };
    match tried(alloc, &trial) {
        Err(Untried::NoReading) => "no reading",
        Err(Untried::NoMemory) => "no memory",
        Ok(left) if left.out.as_slice() != log => "another log",
        Ok(left) => match (left.status, status) {
            (0, "0") | (3, "3") | (5, "5") | (6, "6") if is_cut_at_each_room(alloc, &trial, log) =>
                { "holds" }
            (0, "0") | (3, "3") | (5, "5") | (6, "6") => "another log in less room",
            _ => "another status",
        },
    }
}

fn main(rt: HostRuntime) -> io::Result<()> {
    for line in rt.lines(rt.alloc()) {
        let line = line?;
        if let Some((name, rest)) = line.as_str().split_once(' ')
            && let Some((word, status)) = rest.split_once(' ')
        {
            let input = fs::read(&rt, format!(in rt.alloc(); "{name}.in")?.as_str())?;
            let log = fs::read(&rt, format!(in rt.alloc(); "{name}.out")?.as_str())?;
            let said = said(rt.alloc(), &[word], &input, &log, status);
            println!(rt; "{name} {said}")?;
        }
    }
    Ok(())
}
