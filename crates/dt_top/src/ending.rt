//! The ways in which a run of the program ends, each with its exit status and its text on standard error.
ghost use Rattle.std.specs.Prelude.{◌≡◌};
ghost use Rattle.dt_top.specs.Endings.{status_of, text_of};

/// How a run ends.
#[derive(Clone, Copy)]
pub enum Ending {
    /// All was served: a schedule and its log, a script or a run up to its stop, a generated schedule, an
    /// input of calls, or a log without a flaw.
    Done,
    /// The words aren't those of a command.
    Usage,
    /// The input has more than 16,777,216 octets.
    TooLong,
    /// A line of the input is refused, and what is written ends with its fault or its flaw.
    Refused,
    /// There was no memory.
    NoMemory,
    /// The wire didn't open, or a take failed; in a run that is run again, it is recorded so.
    WireFault,
    /// The clock stood still.
    ClockStill,
    /// The source failed.
    ReadFault,
    /// A put on standard output failed.
    WriteFault,
}

impl Ending {
    /// The exit status.
    pub fn status(self) -> u8
        ensures { result ≡ status_of self }
    {
        match self {
            Ending::Done => 0,
            Ending::Usage => 2,
            Ending::TooLong | Ending::Refused => 3,
            Ending::NoMemory => 4,
            Ending::WireFault => 5,
            Ending::ClockStill => 6,
            Ending::ReadFault => 7,
            Ending::WriteFault => 8,
        }
    }

    /// What is printed on standard error.
    pub fn text(self) -> &'static [u8]
        ensures { result.now ≡ text_of self }
    {
        match self {
            Ending::Done => b"",
            Ending::Usage =>
                b"usage: deltat replay | node | make N | trace | retrace | calls | audit\n",
            Ending::TooLong => b"input longer than 16777216 octets\n",
            Ending::Refused => b"input refused\n",
            Ending::NoMemory => b"out of memory\n",
            Ending::WireFault => b"wire failed\n",
            Ending::ClockStill => b"clock stands still\n",
            Ending::ReadFault => b"read failed\n",
            Ending::WriteFault => b"write failed\n",
        }
    }
}
