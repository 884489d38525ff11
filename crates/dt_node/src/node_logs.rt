//! Who sees the events of a node's station.
ghost use Rattle.std.specs.Prelude.{◌≡◌, false};
ghost use Rattle.dt_edges.specs.Sinks.{Grows};
ghost use Rattle.dt_reports.specs.Told.{told};
ghost use Rattle.dt_turn.specs.Codes.{MayTurn};
ghost use Rattle.dt_node.specs.Deeds.{log_scene};
ghost use Rattle.dt_node.specs.Logging.{LogHands, LogLoses, LogTells, log_sight};
ghost use Rattle.dt_node.specs.TurnScripts.{Leaves, PlaysTurn, ended_by};

use crate::output_forms::OutputForm;
use crate::recorders::Writer;
use crate::turns::Turn;
use dt_edges::{Sink, Wire};
use dt_fold::Stop;
use dt_host::Host;
use dt_items::NoMemory;
use dt_layout::Frame;
use dt_log::write_line;
use dt_reports::{LogLine, Report};
use dt_station::Visitor;
use dt_trace::{Input, put_input};
use dt_turn::Node;

/// How a turn before a log ends. Where a line couldn't be written, that is the answer, whatever the turn's
/// own was.
fn ended(done: Result<bool, NoMemory>, failed: bool) -> Result<bool, Stop>
    ensures { result ≡ ended_by failed done }
{
    if failed {
        return Err(Stop::WriteFault);
    }
    match done {
        Ok(stopped) => Ok(stopped),
        Err(NoMemory) => Err(Stop::NoMemory),
    }
}

/// Writes a line for each report, where the form is that of a log, and gives each frame to the wire. A
/// give that fails is a loss: a log reports it by an `unsent` line, and a trace by the number of the give.
/// After a put that failed it writes and gives nothing more.
#[derive(Drop)]
pub struct NodeLog<'w, 'o, W, K> {
    pub wire: &'w mut W,
    pub out: &'o mut K,
    /// What is written, and how many frames were given.
    pub writer: Writer,
    /// The moment of the turn, in ms.
    pub moment: u64,
    /// The node.
    pub me: u32,
    /// A put failed.
    pub failed: bool,
}

impl<'w, 'o, W: Wire, K: Sink> NodeLog<'w, 'o, W, K> {
    /// Takes a turn of a node: writes the line of the turn's reading, where the form has one, and then what
    /// the turn does. It says whether the stop was due.
    pub fn take_turn(&mut self, turn: Turn<'_, '_>, node: &mut Node) -> Result<bool, Stop>
        requires may { MayTurn turn.orders.now turn.moment node.old }
        requires fine { self.old.failed ≡ false }
        ensures ends { let seen = log_scene W.sight K.sight in let form = self.old.writer.form in
            PlaysTurn form self.old.me self.old.moment turn.entry result node.old node.new (seen self.old) (seen self.new) }
        ensures same_form { self.new.writer.form ≡ self.old.writer.form }
        ensures same_wire { self.new.wire.ghost_name ≡ self.old.wire.ghost_name }
        ensures same_out { self.new.out.ghost_name ≡ self.old.out.ghost_name }
        ensures same_sink { (K.sight self.new.out.now).identity ≡ (K.sight self.old.out.now).identity }
        ensures reached { Grows (K.sight self.old.out.now).reached (K.sight self.new.out.now).reached }
        ensures leaves { Leaves turn.entry.orders.now turn.entry.moment result node.new }
    {
        self.writer.note(&Input::Reading(turn.reading), self.out)?;
        let done = dt_turn::turn(turn.orders, node, turn.moment, turn.came, self);
        ended(done, self.failed)
    }

    /// Writes the line of a report.
    fn write(&mut self, report: &Report<'_>)
        ensures { LogTells (log_sight W.sight K.sight self.old) (told report.now) (log_sight W.sight K.sight self.new) }
    {
        if !self.failed && self.writer.form == OutputForm::Log {
            let line = LogLine {
                moment: self.moment,
                node: Some(self.me),
                report: *report,
            };
            self.failed = write_line(&line, self.out).is_err();
        }
    }

    /// Writes the line of the last give, on this link, which failed.
    fn lose(&mut self, link: u16)
        requires { self.old.failed ≡ false }
        ensures { LogLoses link (log_sight W.sight K.sight self.old) (log_sight W.sight K.sight self.new) }
    {
        match self.writer.form {
            OutputForm::Log => self.write(&Report::Unsent { link }),
            OutputForm::Trace => {
                let failed = Input::FailedGive(self.writer.gives);
                self.failed = put_input(&failed, self.out).is_err();
            }
        }
    }

    /// Gives a frame to the wire.
    fn give(&mut self, link: u16, octets: &[u8])
        ensures { LogHands (log_sight W.sight K.sight self.old) link octets.now (log_sight W.sight K.sight self.new) }
    {
        if !self.failed {
            let given = self.wire.give(link, octets);
            self.writer.gives = self.writer.gives.saturating_add(1);
            if let Err(_) = given {
                self.lose(link);
            }
        }
    }
}

impl<'w, 'o, W: Wire, K: Sink> Visitor<Frame> for NodeLog<'w, 'o, W, K> {
    ghost use Rattle.dt_node.specs.Logging.{log_fails, log_hands, log_sight, log_tags, log_tells};

    ghost tells = { λ s r t. log_tells (log_sight W.sight K.sight) s r t };

    ghost tags = { λ now s host octets tag t. log_tags s host octets tag t };

    ghost hands = { λ s link parcel t. log_hands (log_sight W.sight K.sight) s link parcel t };

    ghost fails = { λ s t. log_fails s t };

    fn tag(&mut self, _host: &Host, _frame: &Frame, _now: u64) {}

    fn tell(&mut self, report: &Report<'_>) {
        self.write(report)
    }

    fn out(&mut self, link: u16, packet: Frame) -> Result<(), NoMemory> {
        self.give(link, packet.as_slice());
        Ok(())
    }

    fn out_at_once(&mut self, link: u16, frame: &Frame, _tag: ()) -> Result<(), NoMemory> {
        self.give(link, frame.as_slice());
        Ok(())
    }
}
