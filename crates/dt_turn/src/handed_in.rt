//! The two kinds of packets that a turn gives to its station: a new datagram, or the one taken from the shelf.
ghost use Rattle.std.specs.Prelude.{◌≡◌};
ghost use Rattle.dt_turn.specs.Codes.{IsTaken, handed_seen, incoming_seen};

use crate::incoming::Incoming;
use dt_layout::Frame;

/// A packet that is handed to a station.
#[derive(Clone, Copy)]
pub enum HandedIn<'a> {
    /// A datagram that came, whose octets are lent.
    Came(Incoming<'a>),
    /// The packet that was taken from the shelf last, which came on this link.
    Again { link: u16 },
}

impl<'a> HandedIn<'a> {
    /// It as a datagram that comes, by the frame of what was taken from the shelf last.
    pub fn incoming(self, taken: &'a Frame) -> Incoming<'a>
        requires { IsTaken taken.now self }
        ensures { incoming_seen result ≡ handed_seen taken.now self.entry }
    {
        match self {
            HandedIn::Came(incoming) => incoming,
            HandedIn::Again { link } => Incoming {
                link,
                gram: taken.as_gram(),
            },
        }
    }
}
