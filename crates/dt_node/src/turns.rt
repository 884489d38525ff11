//! A turn of a node: its orders, its time and the datagram that the previous turn took; and the call that plays it.
ghost use Rattle.std.specs.Prelude.{◌≡◌};
ghost use Rattle.dt_edges.specs.Sinks.{Grows};
ghost use Rattle.dt_turn.specs.Codes.{MayTurn};
ghost use Rattle.dt_node.specs.Deeds.{written_scene};
ghost use Rattle.dt_node.specs.TurnScripts.{Leaves, TakesTurn};

use crate::node_logs::NodeLog;
use crate::recorders::Writer;
use dt_edges::{Sink, Wire};
use dt_fold::Stop;
use dt_script::Orders;
use dt_turn::{LinkDatagram, Node};

/// A turn that is to be taken: what is ordered, the clock's reading and its moment, in ms, and what the
/// last turn took.
#[derive(Clone, Copy)]
pub struct Turn<'o, 'c> {
    pub orders: &'o Orders,
    pub reading: u64,
    pub moment: u64,
    pub came: Option<LinkDatagram<'c>>,
}

impl<'o, 'c> Turn<'o, 'c> {
    /// Plays the turn with a node before a log, whose lines are put one after another, that of its reading
    /// first. It says whether the stop was due.
    pub fn play<W: Wire, K: Sink>(
        self,
        node: &mut Node,
        wire: &mut W,
        out: &mut K,
        writer: &mut Writer,
    ) -> Result<bool, Stop>
        requires { MayTurn self.orders.now self.moment node.old }
        ensures ends { let seen = written_scene W.sight K.sight in
            TakesTurn writer.old.form self.entry result node.old node.new (seen writer.old wire.old out.old) (seen writer.new wire.new out.new) }
        ensures same_form { writer.new.form ≡ writer.old.form }
        ensures same_sink { (K.sight out.new).identity ≡ (K.sight out.old).identity }
        ensures reached { Grows (K.sight out.old).reached (K.sight out.new).reached }
        ensures leaves { Leaves self.entry.orders.now self.entry.moment result node.new }
    {
        let mut log = NodeLog {
            wire,
            out,
            writer: *writer,
            moment: self.moment,
            me: self.orders.setup.me.0,
            failed: false,
        };
        let stopped = log.take_turn(self, node);
        *writer = log.writer;
        stopped
    }
}
