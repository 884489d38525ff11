//! What the lines of an input of calls do after `go`.
ghost use Rattle.std.specs.Prelude.{◌≡◌, IfOk};
ghost use Rattle.dt_edges.specs.Sinks.{Puts};
ghost use Rattle.dt_world_model.specs.Setup.{new_world};
ghost use Rattle.dt_calls_model.specs.Calls.{new_calls};
ghost use Rattle.dt_calls_input.specs.CallInputs.{last_text};

use crate::call_logs::put_totals;
use crate::calling::{apply_world_line, step};
use dt_call_parts::Reversing;
use dt_calls::{CallEvent, Calls};
use dt_edges::{Failed, Sink};
use dt_fold::Stop;
use dt_items::NoMemory;
use dt_log::write_line;
use dt_notes::Setup;
use dt_reports::{Fault, LogLine, Report};
use dt_scenario::Simulation;
use dt_text::{Form, MISPLACED, RunLine, decode_hex};
use dt_world::World;
use std::alloc::Global;

/// The calls of an input, which its lines make.
#[derive(Drop)]
pub struct InputCalls {
    calls: Calls<Reversing>,
    /// Room for the payload of a call.
    payload: Vec<u8>,
}

impl Simulation for InputCalls {
    ghost use Rattle.dt_calls_model.specs.Calls.{Calls};
    ghost use Rattle.dt_calls_input.specs.CallInputs.{simulates_calls};

    ghost State = { Calls };

    ghost state = { λ s. s.calls.calls };

    ghost simulates = { simulates_calls };

    fn form() -> Form {
        Form::Calls
    }

    fn start(alloc: Global, setup: &Setup) -> Result<Self, NoMemory> {
        let calls = first_calls(alloc, setup)?;
        Ok(InputCalls {
            calls,
            payload: Vec::new(alloc),
        })
    }

    fn apply_line<K: Sink>(
        &mut self,
        line: &RunLine<'_>,
        out: &mut K,
    ) -> Result<Option<Fault>, Stop> {
        let calls = &mut self.calls;
        match *line {
            RunLine::World(line) => apply_world_line(calls, line, out),
            RunLine::Call { flow, hex } => {
                decode_hex(hex, &mut self.payload)?;
                let payload = &self.payload;
                step(calls, &CallEvent::Call { flow, payload }, out)
            }
            RunLine::User(_) => Ok(Some(MISPLACED)),
        }
    }

    fn close<K: Sink>(&self, out: &mut K) -> Result<(), Failed> {
        close_calls(&self.calls, out)
    }
}

/// Calls over the world of a setup, which has made no step.
fn first_calls(alloc: Global, setup: &Setup) -> Result<Calls<Reversing>, NoMemory>
    ensures { IfOk result (λ calls. calls.calls ≡ new_calls (new_world setup.now)) }
{
    // Its contract is where checked parameters are said to be in their ranges.
    let _ = setup.rules();
    let world = World::new(alloc, setup)?;
    Calls::new(alloc, world, Reversing)
}

/// Writes the totals of the calls, and the end. The cost is the calls.
fn close_calls<K: Sink>(calls: &Calls<Reversing>, out: &mut K) -> Result<(), Failed>
    ensures { Puts K.sight (last_text calls.now.calls) result out.old out.new }
{
    put_totals(&calls.totals(), out)?;
    let end = LogLine {
        moment: calls.now(),
        node: None,
        report: Report::End,
    };
    write_line(&end, out)
}
