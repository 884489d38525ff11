//! Each failure, and what the program does then.
use crate::trial_rows::{TrialRow, first_other, is_cut_off, is_read_in_vain};
use dt_trial::{FREELY, Trial};

/// A message is sent, acknowledged and read.
const SHORT: &[u8] = b"params 1000 3000 200 500 800 100 4096 4096 512 2147483648
station 1 0
station 2 0
link 1 1 2 50 0
link 2 2 1 50 0
route 1 2 1
route 2 1 2
go
send 1:10>2:20 be 68656c6c6f
pass 40
arrive 0
pass 30
arrive 1
read 1:10>2:20 100
";

const SHORT_LOG: &[u8] = b"0 1 took 1:10>2:20 5
0 1 sent 1:10>2:20 0 5 dbe
0 1 put 1 999 as 0
40 2 accepted 1:10>2:20 0 5 run
40 2 acked 1:10>2:20 5 4091
40 2 put 2 999 as 1
70 1 settled 1:10>2:20 5 4091
70 2 read 1:10>2:20 rbe 68656c6c6f
flow 1:10>2:20 taken 5 acked 5 uncertain 0 open 0 given 5 read 5
end 70
";

const REPLAY: Trial<'static> = Trial {
    input: SHORT,
    ..FREELY
};

/// The script of node 1, which sends five octets at once and stops at 100.
const SCRIPT: &[u8] = b"params 1000 3000 200 500 800 100 4096 4096 512 2147483648
me 1 first
local 127.0.0.1:4001
peer 1 127.0.0.1:4002 50 0
route 2 1
go
at 0 send 1:10>2:20 be 68656c6c6f
at 100 stop
";

/// The acknowledgement of the five octets, as it comes.
const ACK: &[u8] =
    b"\x01\x01\x00\x0e\x00\x00\x03\xe7\x00\x00\x00\x02\x00\x00\x00\x01\x02\x00\x00\x14\x00\x0a\x00\x00\x00\x05\x00\x00\x0f\xfb";

/// Node 1, which is acknowledged at 40.
const NODE: Trial<'static> = Trial {
    words: &["node"],
    input: SCRIPT,
    readings: &[1000, 1040, 1100],
    takes: &[Some(ACK), None],
    ..FREELY
};

const NODE_LOG: &[u8] = b"0 1 took 1:10>2:20 5
0 1 sent 1:10>2:20 0 5 dbe
0 1 put 1 999
40 1 settled 1:10>2:20 5 4091
end 100
";

/// Its first three lines.
const SENT: &[u8] = b"0 1 took 1:10>2:20 5
0 1 sent 1:10>2:20 0 5 dbe
0 1 put 1 999
";

/// Its first four lines.
const SETTLED: &[u8] = b"0 1 took 1:10>2:20 5
0 1 sent 1:10>2:20 0 5 dbe
0 1 put 1 999
40 1 settled 1:10>2:20 5 4091
";

/// Its log where the wire didn't take what it sent.
const UNSENT_LOG: &[u8] = b"0 1 took 1:10>2:20 5
0 1 sent 1:10>2:20 0 5 dbe
0 1 put 1 999
0 1 unsent 1
40 1 settled 1:10>2:20 5 4091
end 100
";

/// A call is made, served and answered.
const ASKED: &[u8] = b"params 1000 3000 200 500 800 100 4096 4096 512 2147483648
station 1 0
station 2 0
link 1 1 2 50 0
link 2 2 1 50 0
route 1 2 1
route 2 1 2
go
call 1:10>2:20 010203
arrive 0
arrive 2
";

const ANSWERS: &[u8] = b"0 call 0 1:10>2:20 3
0 served 0
0 answered 0 030201
calls 1 served 1 answered 1 unsure 0 declined 0 waiting 0
end 0
";

const CALLS: Trial<'static> = Trial {
    words: &["calls"],
    input: ASKED,
    ..FREELY
};

const AUDIT: Trial<'static> = Trial {
    words: &["audit"],
    input: SHORT_LOG,
    ..FREELY
};

/// Where nothing fails.
static CALM: [TrialRow; 4] = [
    TrialRow {
        trial: REPLAY,
        status: 0,
        out: SHORT_LOG,
        said: b"",
    },
    TrialRow {
        trial: NODE,
        status: 0,
        out: NODE_LOG,
        said: b"",
    },
    TrialRow {
        trial: CALLS,
        status: 0,
        out: ANSWERS,
        said: b"",
    },
    TrialRow {
        trial: AUDIT,
        status: 0,
        out: b"audit yes\n",
        said: b"",
    },
];

/// Where the text of the status finds no room, the wire fails or loses what it is given, or the clock stands still.
static FAILING: [TrialRow; 6] = [
    TrialRow {
        trial: Trial {
            err_room: 0,
            ..FREELY
        },
        status: 3,
        out: b"line 1: order\n",
        said: b"",
    },
    TrialRow {
        trial: Trial {
            open_fails: true,
            ..NODE
        },
        status: 5,
        out: b"",
        said: b"wire failed\n",
    },
    TrialRow {
        trial: Trial {
            failing_takes: &[1],
            ..NODE
        },
        status: 5,
        out: SENT,
        said: b"wire failed\n",
    },
    TrialRow {
        trial: Trial {
            failing_takes: &[2],
            ..NODE
        },
        status: 5,
        out: SETTLED,
        said: b"wire failed\n",
    },
    TrialRow {
        trial: Trial {
            failing_gives: &[1],
            ..NODE
        },
        status: 0,
        out: UNSENT_LOG,
        said: b"",
    },
    TrialRow {
        trial: Trial {
            readings: &[1000],
            takes: &[],
            ..NODE
        },
        status: 6,
        out: SENT,
        said: b"clock stands still\n",
    },
];

#[test]
fn nothing_fails(rt: HostRuntime) {
    assert_eq!(rt; first_other(rt.alloc(), &CALM), None);
}

#[test]
fn a_text_a_wire_or_a_clock_fails(rt: HostRuntime) {
    assert_eq!(rt; first_other(rt.alloc(), &FAILING), None);
}

#[test]
fn a_read_fails(rt: HostRuntime) {
    for row in &CALM {
        assert!(rt; is_read_in_vain(rt.alloc(), &row.trial));
    }
}

#[test]
fn a_log_finds_no_room(rt: HostRuntime) {
    for row in &CALM {
        assert!(rt; is_cut_off(rt.alloc(), &row.trial, row.out));
    }
}
