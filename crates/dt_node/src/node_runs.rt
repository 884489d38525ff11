//! A node that runs, with the recorder of its log or trace, and the function that takes one turn of it.
ghost use Rattle.std.specs.Prelude.{◌≡◌, [], OnOk};
ghost use Rattle.dt_turn.specs.Codes.{MayTurn};
ghost use Rattle.dt_node.specs.Deeds.{written_scene};
ghost use Rattle.dt_node.specs.TurnScripts.{Leaves, TakesTurn};

use crate::recorders::Recorder;
use crate::turns::Turn;
use dt_edges::{Buffered, Sink, Wire};
use dt_fold::{Stop, pass_rest};
use dt_turn::Node;

/// A node that runs, and what is written of it.
#[derive(Drop)]
pub struct NodeRun {
    pub node: Node,
    pub recorder: Recorder,
}

impl NodeRun {
    /// Takes a turn, whose lines are gathered and then put on the sink; none waits before it. It says
    /// whether the stop was due.
    pub fn take_turn<W: Wire, K: Sink>(
        &mut self,
        turn: Turn<'_, '_>,
        wire: &mut W,
        out: &mut K,
    ) -> Result<bool, Stop>
        requires may { MayTurn turn.orders.now turn.moment self.old.node }
        requires empty { self.old.recorder.buffer ≡ [] }
        ensures ends { let seen = written_scene W.sight K.sight in let old = self.old.recorder.writer in let new = self.new.recorder.writer in
            TakesTurn old.form turn.entry result self.old.node self.new.node (seen old wire.old out.old) (seen new wire.new out.new) }
        ensures same_form { self.new.recorder.writer.form ≡ self.old.recorder.writer.form }
        ensures leaves { Leaves turn.entry.orders.now turn.entry.moment result self.new.node }
        ensures empty { OnOk result (self.new.recorder.buffer ≡ []) }
    {
        let buffer = &mut self.recorder.buffer;
        let mut gathered = Buffered { out, buffer };
        let writer = &mut self.recorder.writer;
        let stopped = turn.play(&mut self.node, wire, &mut gathered, writer);
        pass_rest(stopped, &mut self.recorder.buffer, out)
    }
}
