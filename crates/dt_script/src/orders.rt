//! What a script says.
use dt_edges::{Address, Peer};
use dt_text::Task;
use dt_units::{NodeId, Rules};
use dt_world_model::{InLink, OutLink, Route};

/// What is to be done, and from which moment on, in ms since the first reading.
#[derive(Drop)]
pub struct TimedCommand {
    pub at: u32,
    pub task: Task,
}

/// The node, and how it is reached.
#[derive(Drop)]
pub struct NodeSetup {
    pub rules: Rules,
    pub me: NodeId,
    /// It begins again, after an earlier life.
    pub again: bool,
    pub local: Address,
    pub peers: Vec<Peer>,
    /// The peers' links, as packets leave on them.
    pub outs: Vec<OutLink>,
    /// The same links, as packets come on them.
    pub ins: Vec<InLink>,
    pub routes: Vec<Route>,
    /// How many packets its shelf holds at most, 1 to 64, where it has one.
    pub shelf: Option<u32>,
}

/// All that a script says. The moments of its commands never fall.
#[derive(Drop)]
pub struct Orders {
    pub setup: NodeSetup,
    pub commands: Vec<TimedCommand>,
    /// The moment from which on the node stops, in ms since the first reading.
    pub stop: u32,
}
