//! An act that a host did: the act of a send or receive record, and the flow of that record.
use dt_flow_model::{RecvAct, SendAct};
use dt_units::Flow;

/// What a record of a host did.
#[derive(Clone, Copy, PartialEq, Eq)]
pub enum Act {
    /// A send record did it.
    Send(SendAct),
    /// A receive record did it.
    Recv(RecvAct),
}

/// An act that a host did, and the flow whose record did it.
#[derive(Clone, Copy, PartialEq, Eq)]
pub struct Done {
    pub flow: Flow,
    pub act: Act,
}
