//! The run of each flow: what the ledger's places and an acknowledgement's number are known by.
ghost use Rattle.std.specs.Prelude.{◌≡◌};
ghost use Rattle.dt_flow_model.specs.Flow.{base_in, begins_run, crossings_told, run_goes_on, run_told};
ghost use Rattle.dt_flow_model.specs.Numbering.{is_crossing};
ghost use Rattle.dt_notes.specs.Runs.{no_run, run_seen};

use dt_units::Rules;
use std::marker::Model;

/// The octets of one send record, from its first transmission on.
#[derive(Clone, Copy)]
pub struct Run {
    /// The place of the record's first octet.
    pub base: u64,
    /// The moment of the record's first transmission, in ms.
    pub began: u64,
    /// The moment of the flow's last transmission of any kind, in ms.
    pub sent: u64,
}

/// A first transmission whose first octet stands a multiple of the quantum above the run's base.
#[derive(Clone, Copy)]
pub struct Crossing {
    pub place: u64,
    pub moment: u64,
}

/// The run of the last send record of a flow that transmitted, or none before the first transmission,
/// and the flow's last three crossings, or all where there were fewer. Moments are the world's, in ms.
#[derive(Drop)]
pub struct FlowRun {
    run: Option<Run>,
    last: Option<Crossing>,
    second: Option<Crossing>,
    third: Option<Crossing>,
}

impl Model for FlowRun {
    ghost use Rattle.dt_world_model.specs.Ledgers.{FlowRun as FlowRunValue};

    ghost Value = { FlowRunValue };

    ghost use Rattle.dt_notes.specs.Runs.{crossings_seen, run_seen};

    ghost view = { λ r. record { run = run_seen r.run; crossings = crossings_seen r.last r.second r.third } };
}

impl FlowRun {
    /// That of a flow that hasn't transmitted.
    pub fn new() -> FlowRun
        ensures { result ≡ no_run }
    {
        FlowRun {
            run: None,
            last: None,
            second: None,
            third: None,
        }
    }

    /// Octets go out for the first time at `now`, the first of them at this place. They begin a run
    /// where there was none, or where `send` has passed since the last transmission.
    pub fn transmit(&mut self, rules: &Rules, place: u64, now: u64)
        ensures { self.new ≡ record { run = run_told rules.now place now self.old.run; crossings = crossings_told rules.now place now self.old.run self.old.crossings } }
    {
        let run = run_after(rules, place, now, self.run);
        self.run = run;
        if is_crossing(rules, place.saturating_sub(base_in(run))) {
            self.third = self.second;
            self.second = self.last;
            self.last = Some(Crossing { place, moment: now });
        }
    }

    /// Something of the run goes out again at `now`.
    pub fn retransmit(&mut self, now: u64)
        ensures { self.new ≡ record self.old { run = run_goes_on now self.old.run } }
    {
        self.run = sent_again(now, self.run);
    }
}

/// The run after a first transmission.
fn run_after(rules: &Rules, place: u64, now: u64, run: Option<Run>) -> Option<Run>
    ensures { run_seen result ≡ run_told rules.now place now (run_seen run) }
{
    if begins(rules, now, run) {
        Some(Run {
            base: place,
            began: now,
            sent: now,
        })
    } else {
        sent_again(now, run)
    }
}

/// Whether a first transmission at now begins a run.
fn begins(rules: &Rules, now: u64, run: Option<Run>) -> bool
    ensures { result ≡ begins_run rules.now now (run_seen run) }
{
    match run {
        None => true,
        Some(run) => run.sent <= now && rules.times().send <= now - run.sent,
    }
}

fn sent_again(now: u64, run: Option<Run>) -> Option<Run>
    ensures { run_seen result ≡ run_goes_on now (run_seen run) }
{
    match run {
        None => None,
        Some(run) => Some(Run { sent: now, ..run }),
    }
}

fn base_in(run: Option<Run>) -> u64
    ensures { result ≡ base_in (run_seen run) }
{
    match run {
        None => 0,
        Some(run) => run.base,
    }
}

fn is_crossing(rules: &Rules, offset: u64) -> bool
    ensures { result ≡ is_crossing rules.now offset }
{
    offset % rules.quantum() == 0
}
