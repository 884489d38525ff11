//! A packet on a shelf: its frame, its flow, its number, its link and the time at which it was put there.
use dt_layout::Frame;
use dt_units::Flow;
use std::marker::Model;

/// A packet on a shelf. A contract sees the octets in place of their frame.
#[derive(Drop)]
pub struct Held {
    /// The link on which it came.
    pub link: u16,
    pub flow: Flow,
    /// The sequence number of its first octet.
    pub number: u32,
    /// As it was put there.
    pub frame: Box<Frame>,
    /// The moment at which it was put there, in ms.
    pub since: u64,
}

impl Model for Held {
    ghost use Rattle.dt_shelf.specs.Shelves as model;

    ghost Value = { model.Held };

    ghost view = { λ h. record { link = h.link; flow = h.flow; number = h.number; frame = h.frame.value; since = h.since } };
}
