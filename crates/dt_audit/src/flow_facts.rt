//! The facts about a flow that a line of a log can state, and the lives of the flow's two nodes.

/// The lives of a flow's two nodes, each 0 where the node didn't begin again.
#[derive(Clone, Copy)]
pub struct Lives {
    pub sender: u32,
    pub receiver: u32,
}

/// What a line says of one flow.
#[derive(Clone, Copy)]
pub enum FlowFact {
    Took { count: u32 },
    Sent { number: u32, length: u32 },
    Settled { count: u32 },
    Uncertain { count: u32 },
    Accepted { number: u32, length: u32, run: bool },
}
