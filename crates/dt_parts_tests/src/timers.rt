//! Tests of the table of deadlines: times that are set in places, and the deadline that is first after each change.
use dt_timers::Deadlines;
use std::process::Abort;

/// What is done with deadlines, and asked of them.
enum Step {
    /// There is one place more than so many.
    Hold(usize),
    /// A place gets a moment, or none.
    Set(usize, Option<u64>),
    /// A place has this moment.
    At(usize, Option<u64>),
    /// This moment and its place come first.
    First(Option<(u64, usize)>),
}

fn is_held(deadlines: &mut Deadlines, count: usize) -> bool {
    count <= deadlines.room() && deadlines.hold(count).is_ok()
}

/// Whether there is this place, which then gets the moment.
fn is_set(deadlines: &mut Deadlines, place: usize, moment: Option<u64>) -> bool {
    let is = place < deadlines.room();
    if is {
        deadlines.set(place, moment);
    }
    is
}

fn has(deadlines: &Deadlines, place: usize, moment: Option<u64>) -> bool {
    place < deadlines.room() && deadlines.at(place) == moment
}

fn has_first(deadlines: &Deadlines, first: Option<(u64, usize)>) -> bool {
    deadlines.first() == first
}

fn is_done(deadlines: &mut Deadlines, step: &Step) -> bool {
    match step {
        Step::Hold(count) => is_held(deadlines, *count),
        Step::Set(place, moment) => is_set(deadlines, *place, *moment),
        Step::At(place, moment) => has(deadlines, *place, *moment),
        Step::First(first) => has_first(deadlines, *first),
    }
}

fn do_steps(rt: &impl Abort, deadlines: &mut Deadlines, steps: &[Step]) {
    for step in steps {
        let is = is_done(deadlines, step);
        assert!(rt; is);
    }
}

static LESSER_PLACE: [Step; 13] = [
    Step::First(None),
    Step::Hold(0),
    Step::Hold(1),
    Step::Hold(2),
    Step::First(None),
    Step::Set(1, Some(9)),
    Step::Set(2, Some(9)),
    Step::First(Some((9, 1))),
    Step::At(2, Some(9)),
    Step::Set(1, None),
    Step::First(Some((9, 2))),
    Step::Set(2, None),
    Step::First(None),
];

#[test]
fn the_first_is_the_least_moment_and_then_the_lesser_place(rt: HostRuntime) {
    let mut deadlines = Deadlines::new(rt.alloc());
    do_steps(&rt, &mut deadlines, &LESSER_PLACE);
}

/// A thousand places with the moments 1000 down to 1 go in the order of their moments.
fn go_in_order(rt: &impl Abort, deadlines: &mut Deadlines) {
    for place in 0..1000usize {
        let moment = Some(1000 - place as u64);
        let is = is_held(deadlines, place) && is_set(deadlines, place, moment);
        assert!(rt; is);
    }
    for moment in 1..=1000usize {
        let place = 1000 - moment;
        let first = Some((moment as u64, place));
        let is = has_first(deadlines, first) && is_set(deadlines, place, None);
        assert!(rt; is);
    }
    let is = has_first(deadlines, None);
    assert!(rt; is);
}

#[test]
fn a_thousand_places_go_in_order(rt: HostRuntime) {
    let mut deadlines = Deadlines::new(rt.alloc());
    go_in_order(&rt, &mut deadlines);
}
