//! The top call over the forms in memory: worked inputs of each command, each a row of a table, and each
//! way in which reading and writing can fail.
use crate::trial_rows::{ends_over, ends_so, holds, is_cut_off, is_read_in_vain, said_of};
use dt_edges::MemWire;
use dt_trial::{FREELY, RunResult, Trial, Untried, tried};
use std::alloc::Global;

/// The parameters of the worked schedules.
const PARAMS: &str = "params 1000 3000 200 500 800 100 4096 4096 512 2147483648\n";

/// The setup after them.
const SETUP: &str =
    "station 1 0\nstation 2 0\nlink 1 1 2 50 0\nlink 2 2 1 50 0\nroute 1 2 1\nroute 2 1 2\ngo\n";

/// Whether words do so with an input.
fn ends_as<'a>(alloc: Global, words: &'a [&'a str], input: &'a str, status: u8, out: &str) -> bool {
    let trial = Trial {
        words,
        input: input.as_bytes(),
        ..FREELY
    };
    ends_so(alloc, &trial, status, out.as_bytes(), said_of(status))
}

/// These texts, one after another.
fn joined(alloc: Global, texts: &[&str]) -> Option<String> {
    let mut all = String::new(alloc);
    for text in texts {
        all.push_str(text).ok()?;
    }
    Some(all)
}

/// Whether a command does so with these texts, one after another, as its input.
fn ends_on(alloc: Global, command: &str, texts: &[&str], status: u8, out: &str) -> bool {
    match joined(alloc, texts) {
        Some(input) => ends_as(alloc, &[command], input.as_str(), status, out),
        None => false,
    }
}

/// Whether a command that sends 250 octets finds memory behind a text.
fn is_long(input: &mut String) -> bool {
    for _ in 0..250 {
        if input.push_str("61").is_err() {
            return false;
        }
    }
    input.push_str("\n").is_ok()
}

/// A schedule with a message of 250 octets.
fn long_schedule(alloc: Global) -> Option<String> {
    let mut input = joined(alloc, &[PARAMS, SETUP, "send 1:10>2:20 be "])?;
    if is_long(&mut input) {
        Some(input)
    } else {
        None
    }
}

const LONG_LOG: &str = "0 1 took 1:10>2:20 250
0 1 sent 1:10>2:20 0 100 db
0 1 put 1 999 as 0
0 1 sent 1:10>2:20 100 100 -
0 1 put 1 999 as 1
0 1 sent 1:10>2:20 200 50 e
0 1 put 1 999 as 2
flow 1:10>2:20 taken 250 acked 0 uncertain 0 open 250 given 0 read 0
end 0
";

const FULL_LOG: &str = "0 1 took 1:10>2:20 8
0 1 sent 1:10>2:20 0 8 d
0 1 put 1 999 as 0
0 1 refused 1:10>2:20 full 0
flow 1:10>2:20 taken 8 acked 0 uncertain 0 open 8 given 0 read 0
end 0
";

const ROUND_LOG: &str = "0 1 took 1:10>2:20 10
0 1 sent 1:10>2:20 4294967292 4 db
0 1 put 1 999 as 0
0 1 sent 1:10>2:20 0 4 -
0 1 put 1 999 as 1
0 1 sent 1:10>2:20 4 2 e
0 1 put 1 999 as 2
flow 1:10>2:20 taken 10 acked 0 uncertain 0 open 10 given 0 read 0
end 0
";

const QUANTUM_LOG: &str = "0 1 took 1:10>2:20 10
0 1 sent 1:10>2:20 0 8 db
0 1 put 1 999 as 0
flow 1:10>2:20 taken 10 acked 0 uncertain 0 open 10 given 0 read 0
end 0
";

/// A message is sent, acknowledged and read.
const SHORT: &str =
    "send 1:10>2:20 be 68656c6c6f\npass 40\narrive 0\npass 30\narrive 1\nread 1:10>2:20 100\n";

const SHORT_LOG: &str = "0 1 took 1:10>2:20 5
0 1 sent 1:10>2:20 0 5 dbe
0 1 put 1 999 as 0
40 2 accepted 1:10>2:20 0 5 run
40 2 acked 1:10>2:20 5 4091
40 2 put 2 999 as 1
70 1 settled 1:10>2:20 5 4091
70 2 read 1:10>2:20 rbe 68656c6c6f
flow 1:10>2:20 taken 5 acked 5 uncertain 0 open 0 given 5 read 5
end 70
";

/// The parameters of a schedule, what stands after its setup, its log and its status.
static SCHEDULES: [(&str, &str, &str, u8); 15] = [
    (PARAMS, "", "end 0\n", 0),
    (PARAMS, "\n# nothing\n", "end 0\n", 0),
    (
        "params 1000 3000 200 500 800 100 8 4096 512 2147483648\n",
        "send 1:10>2:20 - 6161616161616161\nsend 1:10>2:20 - 61\n",
        FULL_LOG,
        0,
    ),
    (
        "params 1000 3000 200 500 800 4 4096 4096 512 2147483648 4294967292\n",
        "send 1:10>2:20 be 61616161616161616161\n",
        ROUND_LOG,
        0,
    ),
    (
        "params 1000 3000 200 500 800 100 4096 4096 512 8\n",
        "send 1:10>2:20 be 61616161616161616161\n",
        QUANTUM_LOG,
        0,
    ),
    (
        "params 1 3000 200 500 800 100 4096 4096 512 2147483648\n",
        "",
        "line 1: param mpl 1\n",
        3,
    ),
    (
        "params 1000 3000 200 500 800 100 4096 4096 512 2147483648 0 0\n",
        "",
        "line 1: count\n",
        3,
    ),
    (
        "params 4294967296 3000 200 500 800 100 4096 4096 512 2147483648\n",
        "",
        "line 1: number\n",
        3,
    ),
    (PARAMS, "pass 01\n", "line 9: number\n", 3),
    (PARAMS, "pass 1\n", "end 1\n", 0),
    (PARAMS, SHORT, SHORT_LOG, 0),
    (PARAMS, "send 1:10>2:20 be 68656c6c6\n", "line 9: hex\n", 3),
    (PARAMS, "hop 1\n", "line 9: word\n", 3),
    (PARAMS, "station 3 0\n", "line 9: order\n", 3),
    (PARAMS, "send 1:10>2:20 be 6", "line 9: hex\n", 3),
];

#[test]
fn worked_schedules(rt: HostRuntime) {
    for (place, (params, rest, log, status)) in SCHEDULES.iter().enumerate() {
        let texts = [*params, SETUP, *rest];
        let is = ends_on(rt.alloc(), "replay", &texts, *status, log);
        holds(&rt, is, place);
    }
}

/// A command and its whole input, what is written and the status. An input of `replay` that ends early is
/// refused; of the two logs that are audited one has a flaw.
static INPUTS: [(&str, &str, &str, u8); 7] = [
    ("replay", "", "line 1: order\n", 3),
    ("replay", "params 1000", "line 1: count\n", 3),
    ("replay", "station 1 0\n", "line 1: order\n", 3),
    ("replay", PARAMS, "line 2: order\n", 3),
    (
        "replay",
        "params 1000 3000 200 500 800 100 4096 4096 512 2147483648\nstation 2 0\n",
        "line 3: order\n",
        3,
    ),
    ("audit", SHORT_LOG, "audit yes\n", 0),
    (
        "audit",
        "0 2 accepted 1:10>2:20 0 5 run\n",
        "line 1: stray\n",
        3,
    ),
];

#[test]
fn worked_inputs(rt: HostRuntime) {
    for (place, (command, input, out, status)) in INPUTS.iter().enumerate() {
        let is = ends_as(rt.alloc(), &[*command], input, *status, out);
        holds(&rt, is, place);
    }
}

/// Words that name no command.
static NO_COMMANDS: [&[&str]; 27] = [
    &[],
    &[""],
    &["-"],
    &["--"],
    &["Replay"],
    &["replay", "5"],
    &["node", "5"],
    &["trace", "5"],
    &["retrace", "5"],
    &["calls", "5"],
    &["audit", "5"],
    &["replay", "--", "--"],
    &["--", "--", "replay"],
    &["--help"],
    &["-h"],
    &["--version"],
    &["make"],
    &["make", ""],
    &["make", "0"],
    &["make", "01"],
    &["make", "+1"],
    &["make", "-1"],
    &["make", "50001"],
    &["make", "1", "1"],
    &["make", "--", "--", "1"],
    &["--make", "1"],
    &["--count", "1"],
];

const USAGE: &[u8] = b"usage: deltat replay | node | make N | trace | retrace | calls | audit\n";

/// Whether the words end so with no input.
fn words_end(alloc: Global, words: &[&str], status: u8, out: &[u8], said: &[u8]) -> bool {
    let trial = Trial { words, ..FREELY };
    ends_so(alloc, &trial, status, out, said)
}

#[test]
fn other_words_are_no_command(rt: HostRuntime) {
    for (place, words) in NO_COMMANDS.iter().enumerate() {
        holds(&rt, words_end(rt.alloc(), words, 2, b"", USAGE), place);
    }
}

/// The schedule of one round.
const ONE_ROUND: &[u8] = b"params 1000 3000 200 500 800 100 4096 4096 512 2147483648
station 1 0
station 2 0
link 1 1 2 50 0
link 2 2 1 50 0
route 1 2 1
route 2 1 2
go
send 1:10>2:20 be 0001
lose 0
pass 500
tick 1
pass 10
arrive 1
pass 10
arrive 2
read 1:10>2:20 65536
";

/// What the replay of no input writes.
const NO_INPUT: &[u8] = b"line 1: order\n";

/// Words that make one round, and words that replay, with the status and what is written.
static MARKED: [(&[&str], u8, &[u8]); 6] = [
    (&["make", "1"], 0, ONE_ROUND),
    (&["--", "make", "1"], 0, ONE_ROUND),
    (&["make", "--", "1"], 0, ONE_ROUND),
    (&["make", "1", "--"], 0, ONE_ROUND),
    (&["--", "replay"], 3, NO_INPUT),
    (&["replay", "--"], 3, NO_INPUT),
];

#[test]
fn the_first_mark_is_left_out(rt: HostRuntime) {
    for (place, (words, status, out)) in MARKED.iter().enumerate() {
        let is = words_end(rt.alloc(), words, *status, out, said_of(*status));
        holds(&rt, is, place);
    }
}

/// Room for a schedule of 5,000 rounds, and for its log.
const AMPLE: Trial<'static> = Trial {
    out_room: 4_194_304,
    ..FREELY
};

/// What the replay of a schedule leaves.
fn replay_of(alloc: Global, schedule: &[u8]) -> Result<RunResult, Untried> {
    let replay = Trial {
        input: schedule,
        ..AMPLE
    };
    tried(alloc, &replay)
}

/// What the replay of the schedule leaves that these words make.
fn replay_of_made(alloc: Global, words: &[&str]) -> Result<RunResult, Untried> {
    let trial = Trial { words, ..AMPLE };
    let made = tried(alloc, &trial)?;
    replay_of(alloc, made.out.as_slice())
}

/// Whether a run ended with status 0 and an output that ends so.
fn is_done_with(left: &RunResult, end: &str) -> bool {
    left.status == 0 && left.out.as_slice().ends_with(end.as_bytes())
}

/// Whether the replay of the schedule that these words make ends so.
fn is_replayed(alloc: Global, words: &[&str], end: &str) -> bool {
    match replay_of_made(alloc, words) {
        Ok(left) => is_done_with(&left, end),
        Err(_) => false,
    }
}

const ONE_END: &str = "520 2 read 1:10>2:20 rbe 0001
flow 1:10>2:20 taken 2 acked 2 uncertain 0 open 0 given 2 read 2
end 520
";

const THREE_END: &str = "1060 2 read 1:10>2:20 be 02
flow 1:10>2:20 taken 19 acked 19 uncertain 0 open 0 given 19 read 19
end 1060
";

#[test]
fn made_schedules_are_replayed(rt: HostRuntime) {
    assert!(rt; is_replayed(rt.alloc(), &["make", "1"], ONE_END));
    assert!(rt; is_replayed(rt.alloc(), &["make", "3"], THREE_END));
}

/// The last two lines of the log of so many rounds, from the numbers that the rounds are drawn from:
/// all that was sent is read, and a round takes 520 milliseconds where its message is sent again, and
/// 20 else.
fn summary(alloc: Global, rounds: u32) -> Option<String> {
    let (mut x, mut taken, mut end) = (1_u64, 0_u64, 0_u64);
    for _ in 0..rounds {
        x = x.wrapping_mul(1_103_515_245).wrapping_add(12_345) % 2_147_483_648;
        let draw = x / 65_536;
        taken = taken.wrapping_add(1 + draw / 4 % 16);
        end = end.wrapping_add(if draw % 4 == 2 { 520 } else { 20 });
    }
    format!(in alloc;
        "\nflow 1:10>2:20 taken {taken} acked {taken} uncertain 0 open 0 given {taken} read {taken}\nend {end}\n"
    ).ok()
}

/// Whether the replay of 5,000 rounds writes what this one wrote.
fn is_replayed_again(alloc: Global, first: &RunResult) -> bool {
    match replay_of_made(alloc, &["make", "5000"]) {
        Ok(again) => again.has(0, first.out.as_slice(), b""),
        Err(_) => false,
    }
}

/// Whether the replay of 5,000 rounds ends so, and writes the same a second time.
fn is_replayed_twice(alloc: Global, end: &str) -> bool {
    match replay_of_made(alloc, &["make", "5000"]) {
        Ok(first) => is_done_with(&first, end) && is_replayed_again(alloc, &first),
        Err(_) => false,
    }
}

#[test]
fn five_thousand_rounds(rt: HostRuntime) {
    let end = summary(rt.alloc(), 5000).expect(&rt, "memory");
    assert!(rt; is_replayed_twice(rt.alloc(), end.as_str()));
}

#[test]
fn a_schedule_that_finds_no_room(rt: HostRuntime) {
    let make = Trial {
        words: &["make", "1"],
        ..FREELY
    };
    assert!(rt; is_cut_off(rt.alloc(), &make, ONE_ROUND));
}

#[test]
fn failing_reads_and_writes(rt: HostRuntime) {
    let input = long_schedule(rt.alloc()).expect(&rt, "memory");
    let trial = Trial {
        input: input.as_bytes(),
        ..FREELY
    };
    assert!(rt; ends_so(rt.alloc(), &trial, 0, LONG_LOG.as_bytes(), b""));
    assert!(rt; is_read_in_vain(rt.alloc(), &trial));
    assert!(rt; is_cut_off(rt.alloc(), &trial, LONG_LOG.as_bytes()));
}

/// The script of a node that sends five octets at once and stops at 100.
const SCRIPT: &str = "params 1000 3000 200 500 800 100 4096 4096 512 2147483648
me 1 first
local 127.0.0.1:4001
peer 1 127.0.0.1:4002 50 0
route 2 1
go
at 0 send 1:10>2:20 be 68656c6c6f
at 100 stop
";

/// Its first three lines.
const SENDS: &str = "0 1 took 1:10>2:20 5\n0 1 sent 1:10>2:20 0 5 dbe\n0 1 put 1 999\n";

/// Its log, where it meets its stop.
const NODE_LOG: &str = "0 1 took 1:10>2:20 5\n0 1 sent 1:10>2:20 0 5 dbe\n0 1 put 1 999\nend 100\n";

/// Whether the wire fails to open, the node's readings, its status and its log.
type NodeEnd = (bool, [u64; 2], u8, &'static str);

static NODE_ENDS: [NodeEnd; 3] = [
    (false, [1000, 1100], 0, NODE_LOG),
    (true, [1000, 1100], 5, ""),
    (false, [1000, 1000], 6, SENDS),
];

/// The node of the script, whose log or trace is written, by these readings.
fn node_trial<'a>(words: &'a [&'a str], readings: &'a [u64]) -> Trial<'a> {
    Trial {
        words,
        input: SCRIPT.as_bytes(),
        readings,
        ..FREELY
    }
}

/// Whether the node ends so, and has given a frame where the wire opened.
fn node_ends(alloc: Global, row: &NodeEnd) -> bool {
    let (open_fails, readings, status, log) = row;
    match MemWire::new(alloc, *open_fails, &[], &[], Some(64)) {
        Ok(mut wire) => {
            let trial = node_trial(&["node"], readings);
            ends_over(alloc, &trial, &mut wire, *status, log)
                && wire.given(0).is_some() != *open_fails
        }
        Err(_) => false,
    }
}

#[test]
fn a_node_ends_by_its_stop_its_wire_or_its_clock(rt: HostRuntime) {
    for (place, row) in NODE_ENDS.iter().enumerate() {
        holds(&rt, node_ends(rt.alloc(), row), place);
    }
}

const TRACE: &str = "@ 1000\n! 1\n< -\n@ 1100\n";

/// The log of it.
const UNSENT_LOG: &str = "0 1 took 1:10>2:20 5
0 1 sent 1:10>2:20 0 5 dbe
0 1 put 1 999
0 1 unsent 1
end 100
";

#[test]
fn a_trace_is_run_again(rt: HostRuntime) {
    let trace = Trial {
        failing_gives: &[1],
        ..node_trial(&["trace"], &[1000, 1100])
    };
    assert!(rt; ends_so(rt.alloc(), &trace, 0, TRACE.as_bytes(), b""));
    let whole = [SCRIPT, "trace\n", TRACE];
    assert!(rt; ends_on(rt.alloc(), "retrace", &whole, 0, UNSENT_LOG));
    let closed = [SCRIPT, "trace\n! 0\n"];
    assert!(rt; ends_on(rt.alloc(), "retrace", &closed, 5, ""));
}

/// A call that is answered, and one that goes on the way of its replies.
const CALL: &str = "call 1:10>2:20 010203\narrive 0\narrive 2\n";

const ANSWERED: &str = "0 call 0 1:10>2:20 3
0 served 0
0 answered 0 030201
calls 1 served 1 answered 1 unsure 0 declined 0 waiting 0
end 0
";

/// The same where the line after them is of a flow that no call may have, or isn't a line of calls.
const BAD_FLOW: &str = "0 call 0 1:10>2:20 3
0 served 0
0 answered 0 030201
line 12: bad flow
";

const NO_WORD: &str = "0 call 0 1:10>2:20 3
0 served 0
0 answered 0 030201
line 12: word
";

/// What stands after these, what is reported, and the status.
static CALLS: [(&str, &str, u8); 3] = [
    ("", ANSWERED, 0),
    ("call 2:20>1:10 01\n", BAD_FLOW, 3),
    ("read 1:10>2:20 1\n", NO_WORD, 3),
];

#[test]
fn calls_are_made(rt: HostRuntime) {
    for (place, (more, text, status)) in CALLS.iter().enumerate() {
        let texts = [PARAMS, SETUP, CALL, *more];
        let is = ends_on(rt.alloc(), "calls", &texts, *status, text);
        holds(&rt, is, place);
    }
}
