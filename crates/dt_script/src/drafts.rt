//! A script, read line by line.
ghost use Rattle.std.specs.Prelude.{◌≡◌, ◌++◌, ◌∷◌, [], Ok, IfOk, IsTrue, option_map};
ghost use Rattle.dt_units.specs.Limits.{first_out_of_range};
ghost use Rattle.dt_text.specs.Said.{said, user_said};
ghost use Rattle.dt_text.specs.Spelling.{IsLine};
ghost use Rattle.dt_text.specs.Tasks.{task_of, task_seen};
ghost use Rattle.dt_text.specs.declared.lines.Form.TheVariants.{Script as OfScript};
ghost use Rattle.dt_text.specs.declared.lines.Line.TheVariants.{Script};
ghost use Rattle.dt_text.specs.declared.lines.ScriptLine.TheVariants.{At};
ghost use Rattle.dt_script.specs.Codes.{LeadsTo, draft_seen, orders_seen, setup_seen};
ghost use Rattle.dt_script.specs.Drafts.{Collects, Complete, Empty, by_command, by_local, by_me, by_node, by_params, by_peer, by_route, by_shelf, done_by, ends_of, has_link, has_route, in_commands, in_setup, orders_in, route_fault, stage_of, to_draft};

use crate::orders::{NodeSetup, Orders, TimedCommand};
use dt_edges::{Address, Peer, Sink};
use dt_fold::{LineTurns, Stop};
use dt_items::NoMemory;
use dt_reports::{Fault, SetupFault, StepFault};
use dt_text::{
    Form, Line, MISPLACED, NodeLine, ScriptLine, Stage, Task, UserLine, follows, read_line,
};
use dt_units::{NodeId, Params, Rules};
use dt_world_model::{InLink, OutLink, Route};
use std::alloc::Global;
use std::marker::Model;
use std::mem;

/// What the lines so far have led to.
#[derive(Drop)]
pub enum DraftPhase {
    Nothing,
    /// The parameters were read.
    Ruled(Rules),
    /// The node's number was read.
    Named {
        rules: Rules,
        me: NodeId,
        again: bool,
    },
    /// Its address was read, and peers and routes are added.
    Preparing(NodeSetup),
    /// Commands are added, of which the last has this moment.
    Collecting {
        setup: NodeSetup,
        commands: Vec<TimedCommand>,
        last: u32,
    },
    /// The stop was read.
    Complete(Orders),
}

/// A script that is read line by line. A contract sees the draft that its lines have led to.
#[derive(Drop)]
pub struct Draft {
    alloc: Global,
    part: DraftPhase,
}

impl Model for Draft {
    ghost use Rattle.dt_script.specs.Codes.{draft_seen};
    ghost use Rattle.dt_script.specs.Drafts as model;

    ghost Value = { model.Draft };

    ghost view = { λ d. draft_seen d.part };
}

impl Draft {
    /// Nothing was read yet. What its lines take is taken of `alloc`.
    pub fn new(alloc: Global) -> Draft
        ensures { result ≡ Empty }
    {
        Draft {
            alloc,
            part: DraftPhase::Nothing,
        }
    }

    /// The orders of a script that was read whole, or none where its stop is missing.
    pub fn into_orders(self) -> Option<Orders>
        ensures { option_map orders_seen result ≡ orders_in self }
    {
        let Draft { part, .. } = self;
        match part {
            DraftPhase::Complete(orders) => Some(orders),
            _ => None,
        }
    }

    /// Does what a line says that is allowed here.
    fn apply_allowed(&mut self, line: &Line<'_>) -> Result<Option<Fault>, NoMemory>
        requires in_form { IsLine OfScript (said line.now) }
        ensures { LeadsTo (done_by self.old (said line.now)) result self.old self.new }
    {
        let part = &mut self.part;
        match line {
            Line::Blank => Ok(None),
            Line::Params(params) => Ok(add_params(part, params)),
            Line::Go => Ok(begin(part, self.alloc)),
            Line::Script(ScriptLine::Me { n, again }) => Ok(add_me(part, NodeId(*n), *again)),
            Line::Script(ScriptLine::Local(address)) => Ok(add_local(part, *address, self.alloc)),
            Line::Script(ScriptLine::Node(line)) => add_node(part, *line),
            Line::Script(ScriptLine::At { at, does }) => add_use(part, *at, does, self.alloc),
            Line::Script(ScriptLine::Stop { at }) => Ok(stop(part, *at)),
            Line::Setup(_) | Line::Run(_) => Ok(Some(MISPLACED)),
        }
    }
}

impl LineTurns for Draft {
    ghost use Rattle.dt_script.specs.Drafts as model;

    ghost State = { model.Draft };

    ghost state = { λ d. d };

    ghost turns = { model.script_turns };

    fn turn<K: Sink>(&mut self, line: &[u8], _out: &mut K) -> Result<Option<Fault>, Stop> {
        let said = match read_line(Form::Script, line) {
            Ok(said) => said,
            Err(fault) => return Ok(Some(Fault::Line(fault))),
        };
        match follows(Form::Script, self.part.stage(), &said) {
            Some(_) => Ok(self.apply_allowed(&said)?),
            None => Ok(Some(MISPLACED)),
        }
    }

    fn close<K: Sink>(&self, _out: &mut K) -> Result<Option<Fault>, Stop> {
        match &self.part {
            DraftPhase::Complete(_) => Ok(None),
            _ => Ok(Some(MISPLACED)),
        }
    }
}

impl DraftPhase {
    fn stage(&self) -> Stage
        ensures { result ≡ stage_of (draft_seen self.now) }
    {
        match self {
            DraftPhase::Nothing => Stage::Start,
            DraftPhase::Ruled(_) => Stage::Params,
            DraftPhase::Named { .. } => Stage::Me,
            DraftPhase::Preparing(_) => Stage::Setup,
            DraftPhase::Collecting { last, .. } => Stage::Run { last: *last },
            DraftPhase::Complete(_) => Stage::Ended,
        }
    }
}

/// The node is set up by a line.
fn add_node(part: &mut DraftPhase, line: NodeLine) -> Result<Option<Fault>, NoMemory>
    ensures { LeadsTo (in_setup (draft_seen part.old) (by_node line)) result (draft_seen part.old) (draft_seen part.new) }
{
    match line {
        NodeLine::Peer {
            link,
            address,
            charge,
            pace,
        } => add_peer(part, Peer { link, address }, charge, pace),
        NodeLine::Route { to, link } => add_route(part, Route { to, link }),
        NodeLine::Shelf { room } => Ok(add_shelf(part, room)),
    }
}

/// What the user of the node does at a moment, in ms.
#[tactic(auto, using(dt_text::proofs::TaskLaws::at_pairs))]
fn add_use(
    part: &mut DraftPhase,
    at: u32,
    does: &UserLine<'_>,
    alloc: Global,
) -> Result<Option<Fault>, NoMemory>
    requires { IsLine OfScript (Script (At at (user_said does.now))) }
    ensures { LeadsTo (in_commands (draft_seen part.old) (by_command at (task_of (user_said does.now)))) result (draft_seen part.old) (draft_seen part.new) }
{
    let task = Task::of(does, alloc)?;
    add_command(part, at, task)
}

/// The parameters are checked.
fn add_params(part: &mut DraftPhase, params: &Params) -> Option<Fault>
    ensures { LeadsTo (by_params params.now (first_out_of_range params.now)) (Ok result) (draft_seen part.old) (draft_seen part.new) }
{
    match params.check() {
        Ok(rules) => {
            *part = DraftPhase::Ruled(rules);
            None
        }
        Err(fault) => Some(Fault::Param(fault)),
    }
}

fn add_me(part: &mut DraftPhase, me: NodeId, again: bool) -> Option<Fault>
    ensures { LeadsTo (by_me (draft_seen part.old) me.0 again) (Ok result) (draft_seen part.old) (draft_seen part.new) }
{
    match part {
        DraftPhase::Ruled(rules) => {
            let rules = *rules;
            *part = DraftPhase::Named { rules, me, again };
            None
        }
        _ => Some(MISPLACED),
    }
}

fn add_local(part: &mut DraftPhase, local: Address, alloc: Global) -> Option<Fault>
    ensures { LeadsTo (by_local (draft_seen part.old) local) (Ok result) (draft_seen part.old) (draft_seen part.new) }
{
    match part {
        DraftPhase::Named { rules, me, again } => {
            let setup = NodeSetup {
                rules: *rules,
                me: *me,
                again: *again,
                local,
                peers: Vec::new(alloc),
                outs: Vec::new(alloc),
                ins: Vec::new(alloc),
                routes: Vec::new(alloc),
                shelf: None,
            };
            *part = DraftPhase::Preparing(setup);
            None
        }
        _ => Some(MISPLACED),
    }
}

/// A peer is a link of its number in both directions. `charge` and `pace` are in ms.
fn add_peer(
    part: &mut DraftPhase,
    peer: Peer,
    charge: u32,
    pace: u32,
) -> Result<Option<Fault>, NoMemory>
    ensures { LeadsTo (in_setup (draft_seen part.old) (by_peer peer.link peer.address charge pace)) result (draft_seen part.old) (draft_seen part.new) }
{
    match part {
        DraftPhase::Preparing(setup) => {
            let link = peer.link;
            if has_link(link, &setup.ins) {
                let n = u32::from(link);
                return Ok(Some(Fault::Setup(SetupFault::Twice { n })));
            }
            setup.peers.push(peer)?;
            setup.outs.push(OutLink { link, pace })?;
            setup.ins.push(InLink { link, charge })?;
            Ok(None)
        }
        _ => Ok(Some(MISPLACED)),
    }
}

fn add_route(part: &mut DraftPhase, route: Route) -> Result<Option<Fault>, NoMemory>
    ensures { LeadsTo (in_setup (draft_seen part.old) (by_route route.to route.link)) result (draft_seen part.old) (draft_seen part.new) }
{
    match part {
        DraftPhase::Preparing(setup) => {
            if let Some(fault) = route_fault(setup, route) {
                return Ok(Some(Fault::Setup(fault)));
            }
            setup.routes.push(route)?;
            Ok(None)
        }
        _ => Ok(Some(MISPLACED)),
    }
}

/// A shelf for `room` packets. There is one at most.
fn add_shelf(part: &mut DraftPhase, room: u32) -> Option<Fault>
    ensures { LeadsTo (in_setup (draft_seen part.old) (by_shelf room)) (Ok result) (draft_seen part.old) (draft_seen part.new) }
{
    match part {
        DraftPhase::Preparing(setup) => match setup.shelf {
            Some(_) => Some(Fault::Setup(SetupFault::Twice { n: room })),
            None => {
                setup.shelf = Some(room);
                None
            }
        },
        _ => Some(MISPLACED),
    }
}

/// The setup ends, and commands come.
fn begin(part: &mut DraftPhase, alloc: Global) -> Option<Fault>
    ensures { LeadsTo (in_setup (draft_seen part.old) (λ s. to_draft (Collects s [] 0))) (Ok result) (draft_seen part.old) (draft_seen part.new) }
{
    match mem::replace(part, DraftPhase::Nothing) {
        DraftPhase::Preparing(setup) => {
            *part = DraftPhase::Collecting {
                setup,
                commands: Vec::new(alloc),
                last: 0,
            };
            None
        }
        other => {
            *part = other;
            Some(MISPLACED)
        }
    }
}

/// The node that does a task, and the other end of its flow.
fn ends_of(task: &Task) -> (NodeId, NodeId)
    ensures { (result.0.0, result.1.0) ≡ ends_of (task_seen task.now) }
{
    match task {
        Task::Send { flow, .. } => (flow.from, flow.to),
        Task::Read { flow, .. } => (flow.to, flow.from),
    }
}

/// A command from a moment on, in ms.
fn add_command(part: &mut DraftPhase, at: u32, task: Task) -> Result<Option<Fault>, NoMemory>
    ensures { LeadsTo (in_commands (draft_seen part.old) (by_command at (task_seen task))) result (draft_seen part.old) (draft_seen part.new) }
{
    match part {
        DraftPhase::Collecting {
            setup,
            commands,
            last,
        } => {
            let (here, there) = ends_of(&task);
            if here != setup.me || there == setup.me {
                return Ok(Some(Fault::Step(StepFault::BadFlow)));
            }
            commands.push(TimedCommand { at, task })?;
            *last = at;
            Ok(None)
        }
        _ => Ok(Some(MISPLACED)),
    }
}

/// The stop comes last.
fn stop(part: &mut DraftPhase, at: u32) -> Option<Fault>
    ensures { LeadsTo (in_commands (draft_seen part.old) (λ s cs. to_draft (Complete (record { setup = s; commands = cs; stop = at })))) (Ok result) (draft_seen part.old) (draft_seen part.new) }
{
    match mem::replace(part, DraftPhase::Nothing) {
        DraftPhase::Collecting {
            setup,
            commands,
            ..
        } => {
            *part = DraftPhase::Complete(Orders {
                setup,
                commands,
                stop: at,
            });
            None
        }
        other => {
            *part = other;
            Some(MISPLACED)
        }
    }
}

/// Whether a link of this number stands.
pub fn has_link(link: u16, ins: &[InLink]) -> bool
    ensures { result ≡ has_link link ins.now }
{
    ins.iter().any(|i| i.link == link)
}

/// Whether a route to the node stands.
fn has_route(to: u32, routes: &[Route]) -> bool
    ensures { result ≡ has_route to routes.now }
{
    routes.iter().any(|r| r.to == to)
}

/// Why a route is refused.
fn route_fault(setup: &NodeSetup, route: Route) -> Option<SetupFault>
    ensures { result ≡ route_fault route.to route.link (setup_seen setup.now) }
{
    let n = u32::from(route.link);
    if has_route(route.to, &setup.routes) {
        return Some(SetupFault::Twice { n: route.to });
    }
    if route.to == setup.me.0 {
        return Some(SetupFault::Stray { n });
    }
    if !has_link(route.link, &setup.ins) {
        return Some(SetupFault::Unknown { n });
    }
    None
}
