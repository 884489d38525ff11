//! What the world notes while a station's event goes on.
ghost use Rattle.std.specs.Prelude.{◌≡◌, ◌+◌, ◌<◌, ◌≤◌, ◌^◌, ◌↔◌, ◌⊎◌, IsErr, IsTrue, OnErr, OnOk, None, length};
ghost use Rattle.indexmap.specs.IndexMap.{spare};
ghost use Rattle.dt_flow_model.specs.Ledger.{HasNoEntry};
ghost use Rattle.dt_ledger.specs.Reads.{read_of_all};
ghost use Rattle.dt_world_model.specs.Ledgers.{Accepts, Changes, GivesUp, ReadsOut, Settles, Takes, Transmits, TransmitsAgain, ledger_of, ledgers_by};
ghost use Rattle.dt_world_model.specs.Tables.{look, same_flow, write};
ghost use Rattle.dt_notes.specs.Effects.{change_seen, step_seen};
ghost use Rattle.dt_notes.specs.Notes.{IsBeyond, IsNew, IsThere, WantsRoom, begun, ledgers_seen, run_in};
ghost use Rattle.dt_notes.specs.Occasions.{occasion_seen};

use crate::copies::Copies;
use crate::effects::{Change, SenderStep};
use crate::event_contexts::EventContext;
use crate::runs::FlowRun;
use dt_items::NoMemory;
use dt_ledger::{Fate, Instant, Ledger};
use dt_units::Flow;
use indexmap::IndexMap;

/// The runs of all flows, in the order of the flows' first octets.
pub type Runs = IndexMap<Flow, FlowRun>;

/// What the world notes: what became of each octet, the runs, and the copies on the links.
#[derive(Drop)]
pub struct Notes {
    pub ledger: Ledger,
    pub runs: Runs,
    pub copies: Copies,
}

/// A report changes the ledger and the run of its flow. A flow that isn't there begins, after all
/// others.
///
/// `NoMemory` leaves all as it was. It comes for want of memory: where a flow begins, where octets are
/// taken or given, and at the first read of a life. And it comes where a count would pass its end, and
/// always there: the places of given octets, and the number of octets of a flow that were read, end
/// below 2^62.
pub fn change(
    notes: &mut Notes,
    context: &EventContext<'_>,
    flow: &Flow,
    change: Change,
) -> Result<(), NoMemory>
    ensures ok { OnOk result (ledgers_seen notes.new ≡ ledgers_by (occasion_seen context.entry.now) (Changes flow.now (change_seen change)) (ledgers_seen notes.old)) }
    ensures err { OnErr result (ledgers_seen notes.new ≡ ledgers_seen notes.old) }
    ensures copies { notes.new.copies ≡ notes.old.copies }
    ensures beyond { IsBeyond context.entry.now (change_seen change) (ledger_of (ledgers_seen notes.old) flow.now) → IsErr result }
    ensures memory { OnErr result (IsNew flow.now (ledgers_seen notes.old) ⊎ WantsRoom context.entry.now (change_seen change) (ledger_of (ledgers_seen notes.old) flow.now) ⊎ IsBeyond context.entry.now (change_seen change) (ledger_of (ledgers_seen notes.old) flow.now)) }
{
    match change {
        Change::Takes => take_octets(notes, context, flow),
        Change::Accepts { run } => accept(notes, context, flow, run),
        Change::ReadsOut { count } => read(notes, context, flow, count),
        Change::Sends { step } => {
            begin(notes, flow)?;
            send(notes, context, flow, step);
            Ok(())
        }
    }
}

/// The sender of a flow that is there does something with octets that it took.
fn send(notes: &mut Notes, context: &EventContext<'_>, flow: &Flow, step: SenderStep)
    requires there { IsThere flow.now (ledgers_seen notes.old) }
    ensures becomes { ledgers_seen notes.new ≡ ledgers_by (occasion_seen context.entry.now) (Changes flow.now (step_seen step)) (ledgers_seen notes.old) }
    ensures copies { notes.new.copies ≡ notes.old.copies }
{
    match step {
        SenderStep::Transmits { count } => transmit(notes, context, flow, count),
        SenderStep::TransmitsAgain => retransmit(notes, context, flow),
        SenderStep::GivesUp { count } => give_up(notes, context, flow, count),
        SenderStep::Settles { count } => acknowledge(notes, context, flow, count),
    }
}

/// The flow is there afterwards. One that isn't begins: nothing in its ledger, and no run.
fn begin(notes: &mut Notes, flow: &Flow) -> Result<(), NoMemory>
    ensures ok { OnOk result (ledgers_seen notes.new ≡ begun flow.now (ledgers_seen notes.old)) }
    ensures there { OnOk result (IsThere flow.now (ledgers_seen notes.new)) }
    ensures err { OnErr result (ledgers_seen notes.new ≡ ledgers_seen notes.old) }
    ensures copies { notes.new.copies ≡ notes.old.copies }
    ensures memory { OnErr result (IsNew flow.now (ledgers_seen notes.old)) }
{
    make_room(&mut notes.runs, flow)?;
    notes.ledger.begin(flow)?;
    begin_run(&mut notes.runs, flow);
    Ok(())
}

/// There is room for the run of the flow, or the flow has one.
fn make_room(runs: &mut Runs, flow: &Flow) -> Result<(), NoMemory>
    ensures same { runs.new.entries ≡ runs.old.entries }
    ensures room { OnOk result (look same_flow flow.now runs.new.entries ≡ None → 0 < spare runs.new) }
    ensures memory { OnErr result (look same_flow flow.now runs.old.entries ≡ None) }
{
    if runs.contains_key(flow) {
        return Ok(());
    }
    runs.reserve(1)?;
    Ok(())
}

/// The flow has a run: one that isn't there hasn't transmitted.
fn begin_run(runs: &mut Runs, flow: &Flow)
    requires room { look same_flow flow.now runs.old.entries ≡ None → 0 < spare runs.old }
    ensures { runs.new.entries ≡ write same_flow flow.now (run_in runs.old.entries flow.now) runs.old.entries }
{
    if !runs.contains_key(flow) {
        let _ = runs.insert(*flow, FlowRun::new());
    }
}

/// The flow takes the octets of the event.
fn take_octets(notes: &mut Notes, context: &EventContext<'_>, flow: &Flow) -> Result<(), NoMemory>
    ensures ok { OnOk result (ledgers_seen notes.new ≡ ledgers_by (occasion_seen context.entry.now) (Changes flow.now Takes) (ledgers_seen notes.old)) }
    ensures err { OnErr result (ledgers_seen notes.new ≡ ledgers_seen notes.old) }
    ensures copies { notes.new.copies ≡ notes.old.copies }
{
    let taken = context.brought.octets;
    make_room(&mut notes.runs, flow)?;
    notes
        .ledger
        .take(flow, context.life, taken.octets, taken.begin, taken.end)?;
    begin_run(&mut notes.runs, flow);
    Ok(())
}

/// `count` octets of the flow go out for the first time.
fn transmit(notes: &mut Notes, context: &EventContext<'_>, flow: &Flow, count: u32)
    requires there { IsThere flow.now (ledgers_seen notes.old) }
    ensures becomes { ledgers_seen notes.new ≡ ledgers_by (occasion_seen context.entry.now) (Changes flow.now (Transmits count)) (ledgers_seen notes.old) }
    ensures copies { notes.new.copies ≡ notes.old.copies }
{
    let Some(run) = notes.runs.get_mut(flow) else {
        unreachable!();
    };
    let Some(rows) = notes.ledger.rows_mut(flow) else {
        unreachable!();
    };
    let now = Instant {
        milliseconds: context.now,
    };
    let place = rows.note_next(context.life, count, now);
    run.transmit(context.rules, place, context.now);
}

/// Something of the flow's run goes out again.
fn retransmit(notes: &mut Notes, context: &EventContext<'_>, flow: &Flow)
    requires there { IsThere flow.now (ledgers_seen notes.old) }
    ensures becomes { ledgers_seen notes.new ≡ ledgers_by (occasion_seen context.entry.now) (Changes flow.now TransmitsAgain) (ledgers_seen notes.old) }
    ensures copies { notes.new.copies ≡ notes.old.copies }
{
    let Some(run) = notes.runs.get_mut(flow) else {
        unreachable!();
    };
    run.retransmit(context.now);
}

/// The `count` leftmost open octets of the present life are given up.
fn give_up(notes: &mut Notes, context: &EventContext<'_>, flow: &Flow, count: u32)
    requires there { IsThere flow.now (ledgers_seen notes.old) }
    ensures becomes { ledgers_seen notes.new ≡ ledgers_by (occasion_seen context.entry.now) (Changes flow.now (GivesUp count)) (ledgers_seen notes.old) }
    ensures copies { notes.new.copies ≡ notes.old.copies }
{
    let Some(rows) = notes.ledger.rows_mut(flow) else {
        unreachable!();
    };
    rows.settle_open(context.life, count, Fate::Uncertain);
}

/// The `count` leftmost open octets of the present life are acknowledged.
fn acknowledge(notes: &mut Notes, context: &EventContext<'_>, flow: &Flow, count: u32)
    requires there { IsThere flow.now (ledgers_seen notes.old) }
    ensures becomes { ledgers_seen notes.new ≡ ledgers_by (occasion_seen context.entry.now) (Changes flow.now (Settles count)) (ledgers_seen notes.old) }
    ensures copies { notes.new.copies ≡ notes.old.copies }
{
    let Some(rows) = notes.ledger.rows_mut(flow) else {
        unreachable!();
    };
    rows.settle_open(context.life, count, Fate::Acked);
}

/// The octets of the event are given to the flow's receiver, from the event's place on.
fn accept(
    notes: &mut Notes,
    context: &EventContext<'_>,
    flow: &Flow,
    run: bool,
) -> Result<(), NoMemory>
    ensures ok { OnOk result (ledgers_seen notes.new ≡ ledgers_by (occasion_seen context.entry.now) (Changes flow.now (Accepts run)) (ledgers_seen notes.old)) }
    ensures err { OnErr result (ledgers_seen notes.new ≡ ledgers_seen notes.old) }
    ensures copies { notes.new.copies ≡ notes.old.copies }
    ensures beyond { 2 ^ 62 ≤ context.entry.now.brought.place + length context.entry.now.brought.octets.octets.now → IsErr result }
{
    let place = context.brought.place;
    let given = context.brought.octets;
    if !stays_below(place, given.octets.len() as u64) {
        return Err(NoMemory);
    }
    make_room(&mut notes.runs, flow)?;
    notes.ledger.give(
        flow,
        place,
        given.octets,
        given.begin,
        given.end,
        run,
        context.life,
        context.now,
    )?;
    begin_run(&mut notes.runs, flow);
    Ok(())
}

/// `count` unread octets of the flow are read.
fn read(
    notes: &mut Notes,
    context: &EventContext<'_>,
    flow: &Flow,
    count: u64,
) -> Result<(), NoMemory>
    ensures ok { OnOk result (ledgers_seen notes.new ≡ ledgers_by (occasion_seen context.entry.now) (Changes flow.now (ReadsOut count)) (ledgers_seen notes.old)) }
    ensures err { OnErr result (ledgers_seen notes.new ≡ ledgers_seen notes.old) }
    ensures copies { notes.new.copies ≡ notes.old.copies }
    ensures beyond { 2 ^ 62 ≤ read_of_all (ledger_of (ledgers_seen notes.old) flow.now).reads + count → IsErr result }
    ensures memory { OnErr result (IsNew flow.now (ledgers_seen notes.old) ⊎ HasNoEntry context.entry.now.life (ledger_of (ledgers_seen notes.old) flow.now).reads ⊎ (2 ^ 62 ≤ read_of_all (ledger_of (ledgers_seen notes.old) flow.now).reads + count)) }
{
    if !stays_below(notes.ledger.read_count(flow), count) {
        return Err(NoMemory);
    }
    make_room(&mut notes.runs, flow)?;
    notes.ledger.note_read(flow, context.life, count)?;
    begin_run(&mut notes.runs, flow);
    Ok(())
}

/// Octets of a flow are fewer than this.
const OCTETS_BELOW: u64 = 1 << 62;

/// Whether `count` octets from the place on end below 2^62.
pub fn stays_below(place: u64, count: u64) -> bool
    ensures { IsTrue result ↔ (place + count < 2 ^ 62) }
{
    place < OCTETS_BELOW && count < OCTETS_BELOW - place
}
