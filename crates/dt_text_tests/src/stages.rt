//! Which lines may follow at each stage of an input.
use crate::forms::holds;
use dt_text::{Form, Stage, follows, read_line};

/// A line of each kind, with a form in which it stands, and lines of a script at the moments 4 and 5.
static KINDS: [(Form, &str); 24] = [
    (Form::Schedule, ""),
    (Form::Schedule, "params 1 2 3 4 5 6 7 8 9 10 11"),
    (Form::Schedule, "station 1 0"),
    (Form::Schedule, "link 1 1 2 50 0"),
    (Form::Schedule, "route 0 2 1"),
    (Form::Schedule, "go"),
    (Form::Schedule, "pass 5"),
    (Form::Schedule, "send 1:10>2:20 be 61"),
    (Form::Schedule, "read 1:10>2:20 1"),
    (Form::Schedule, "tick 1"),
    (Form::Schedule, "arrive 0"),
    (Form::Schedule, "lose 0"),
    (Form::Schedule, "restart 1"),
    (Form::Script, "me 1 first"),
    (Form::Script, "local 10.0.0.255:65535"),
    (Form::Script, "peer 1 10.0.0.255:65535 50 0"),
    (Form::Script, "at 5 send 1:10>2:20 be 61"),
    (Form::Script, "at 5 read 1:10>2:20 1"),
    (Form::Script, "at 5 stop"),
    (Form::Script, "at 4 read 1:10>2:20 1"),
    (Form::Script, "at 4 stop"),
    (Form::Calls, "call 1:10>2:20 61"),
    (Form::Script, "shelf 1"),
    (Form::Script, "route 2 1"),
];

/// The stage that a letter stands for: a number is the last moment of a run.
fn stage_of(letter: u8) -> Option<Stage> {
    match letter {
        b'a' => Some(Stage::Start),
        b'p' => Some(Stage::Params),
        b'm' => Some(Stage::Me),
        b's' => Some(Stage::Setup),
        b'0' => Some(Stage::Run { last: 0 }),
        b'4' => Some(Stage::Run { last: 4 }),
        b'5' => Some(Stage::Run { last: 5 }),
        b'e' => Some(Stage::Ended),
        _ => None,
    }
}

/// A form, a stage, and the letters of the stages after it, for each of the kinds: `-` where the kind
/// isn't allowed there.
static STAGES: [(Form, Stage, &str); 13] = [
    (Form::Schedule, Stage::Start, "as----------------------"),
    (Form::Schedule, Stage::Setup, "s-sss0------------------"),
    (
        Form::Schedule,
        Stage::Run { last: 0 },
        "0-----0000000-----------",
    ),
    (Form::Script, Stage::Start, "ap----------------------"),
    (Form::Script, Stage::Params, "p------------m----------"),
    (Form::Script, Stage::Me, "m-------------s---------"),
    (Form::Script, Stage::Setup, "s----0---------s------ss"),
    (
        Form::Script,
        Stage::Run { last: 0 },
        "0---------------55e4e---",
    ),
    (
        Form::Script,
        Stage::Run { last: 5 },
        "5---------------55e-----",
    ),
    (Form::Script, Stage::Ended, "e-----------------------"),
    (Form::Calls, Stage::Start, "as----------------------"),
    (Form::Calls, Stage::Setup, "s-sss0------------------"),
    (
        Form::Calls,
        Stage::Run { last: 0 },
        "0-----0--0000--------0--",
    ),
];

/// Whether the line of a kind is followed so.
fn is_followed(form: Form, stage: Stage, kind: &(Form, &str), after: u8) -> bool {
    let (of, line) = kind;
    match read_line(*of, line.as_bytes()) {
        Ok(line) => follows(form, stage, &line) == stage_of(after),
        Err(_) => false,
    }
}

/// Whether the line of each kind is followed so.
fn are_followed(form: Form, stage: Stage, after: &[u8]) -> bool {
    for (kind, letter) in KINDS.iter().zip(after) {
        if !is_followed(form, stage, kind, *letter) {
            return false;
        }
    }
    after.len() == KINDS.len()
}

#[test]
fn stages(rt: HostRuntime) {
    for (form, stage, after) in &STAGES {
        holds(&rt, are_followed(*form, *stage, after.as_bytes()), after);
    }
}
