//! The three kinds of rounds in a generated schedule: nothing lost, a message lost, or a message that arrives twice.
ghost use Rattle.std.specs.Prelude.{◌≡◌};
ghost use Rattle.dt_make.specs.Kinds.{copies_of};

/// What happens to the packets of a round.
#[derive(Clone, Copy)]
pub enum RoundKind {
    /// The message arrives, and so does its acknowledgement.
    Plain,
    /// The message is lost and sent again.
    Lost,
    /// The message arrives twice, and the two acknowledgements arrive in the other order.
    Twice,
}

impl RoundKind {
    /// How many copies a round puts.
    pub fn copies(self) -> u32
        ensures { result ≡ copies_of self }
    {
        match self {
            RoundKind::Plain => 2,
            RoundKind::Lost | RoundKind::Twice => 3,
        }
    }
}
