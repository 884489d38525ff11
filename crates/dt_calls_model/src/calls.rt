//! A call with its request, its reply and its state at the client.
use dt_units::Flow;

/// What is known of a call at its client.
#[derive(Clone, Copy)]
pub enum CallState {
    /// It was sent, and there is no answer yet.
    Waiting,
    /// Its answer came.
    Answered,
    /// An octet of its request or of its reply was given up, or is of an earlier life of its sender;
    /// or its reply was refused. It was served once or not at all.
    Unsure,
    /// The client's host refused its request.
    Declined,
}

/// What became of a message that was handed in to be sent.
#[derive(Clone, Copy)]
pub enum Posted {
    /// Its `count` octets were taken. In the ledger of its flow they stand from `place` on.
    Taken { place: u64, count: u32 },
    /// The host refused it.
    Refused,
}

/// A call: its request goes on its flow, and its reply on the flow the other way.
#[derive(Clone, Copy)]
pub struct Call {
    pub flow: Flow,
    pub state: CallState,
    /// How often it was served.
    pub served: u32,
    pub request: Posted,
    /// That of the last time that it was served.
    pub reply: Option<Posted>,
}
