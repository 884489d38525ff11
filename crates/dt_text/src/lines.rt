//! The lines of schedules, scripts and inputs of calls, as typed values.
use dt_edges::Address;
use dt_units::{Flow, Params};

/// What an input is: it says which lines there are, and where each is allowed.
#[derive(Clone, Copy)]
pub enum Form {
    /// The input of a whole world: stations, links, and what happens to them.
    Schedule,
    /// The input of one node over a wire.
    Script,
    /// The input of a whole world in which calls are made: as a schedule, but that octets go in calls
    /// and their replies alone.
    Calls,
}

/// A line of an input, as its words say. Lines of a kind have a type of their own: those of the setup of
/// a world, those after its `go`, and those of a script alone.
#[derive(Clone, Copy, Debug)]
pub enum Line<'a> {
    /// An empty line, or one that begins with `#`.
    Blank,
    /// The parameters of the protocol. Their ranges aren't tested yet. `start` is 0 where the line
    /// leaves it out.
    Params(Params),
    /// The setup ends.
    Go,
    /// The setup of a world: of schedules and of inputs of calls.
    Setup(SetupLine),
    /// After `go`, of schedules and of inputs of calls.
    Run(RunLine<'a>),
    /// Of a script.
    Script(ScriptLine<'a>),
}

/// A line of the setup of a world.
#[derive(Clone, Copy, Debug)]
pub enum SetupLine {
    /// The node `n` stands in the world. Its clock reads `zero` ms more than the world's.
    Station {
        n: u32,
        zero: u32,
    },
    /// A link goes from a node to another. Its number is 0 to 255. Its charge and its pace are 0 to
    /// 86,400,000 ms.
    Link {
        link: u16,
        from: u32,
        to: u32,
        charge: u32,
        pace: u32,
    },
    /// Packets for `to` leave the node `at` over the link.
    Route {
        at: u32,
        to: u32,
        link: u16,
    },
}

/// A line after `go` in the input of a world.
#[derive(Clone, Copy, Debug)]
pub enum RunLine<'a> {
    /// Of schedules and of inputs of calls: what happens to the world.
    World(WorldLine),
    /// A schedule: what a user of a node does.
    User(UserLine<'a>),
    /// An input of calls: a call is made along the flow, with 1 to 65,528 pairs of hexadecimal digits.
    Call { flow: Flow, hex: &'a [u8] },
}

/// What happens to a world.
#[derive(Clone, Copy, Debug)]
pub enum WorldLine {
    /// `by` ms pass.
    Pass { by: u32 },
    /// The station `n` does what is due.
    Tick { n: u32 },
    /// A copy of a packet comes to the end of its link.
    Arrive { copy: u32 },
    /// A copy of a packet is lost.
    Lose { copy: u32 },
    /// The station `n` loses its records and begins again.
    Restart { n: u32 },
}

/// What a user of a node does.
#[derive(Clone, Copy, Debug)]
pub enum UserLine<'a> {
    /// Octets are handed in to be sent. `hex` lends the digits of the line, 1 to 65,536 pairs of
    /// hexadecimal digits.
    Send {
        flow: Flow,
        begin: bool,
        end: bool,
        hex: &'a [u8],
    },
    /// At most `max` octets are read, 1 to 65,536.
    Read {
        flow: Flow,
        max: u32,
    },
}

/// A line of a script alone. The moments after its `go` are in ms after the first reading of the clock.
#[derive(Clone, Copy, Debug)]
pub enum ScriptLine<'a> {
    /// Before `go`: the node's number, and whether it begins again after an earlier life.
    Me { n: u32, again: bool },
    /// Before `go`: the address that the node binds.
    Local(Address),
    /// Before `go`: how the node is reached, and what it has.
    Node(NodeLine),
    /// After `go`: what the user of the node does at this moment.
    At { at: u32, does: UserLine<'a> },
    /// After `go`: the run ends at this moment.
    Stop { at: u32 },
}

/// A line by which a script sets up its node, whose number and address are known.
#[derive(Clone, Copy, Debug)]
pub enum NodeLine {
    /// The other end of a link in both directions. Its number is 0 to 255. Its charge and its pace are
    /// 0 to 86,400,000 ms.
    Peer {
        link: u16,
        address: Address,
        charge: u32,
        pace: u32,
    },
    /// Packets for `to` leave over the link.
    Route {
        to: u32,
        link: u16,
    },
    /// The node keeps up to `room` packets that came too early, 1 to 64.
    Shelf {
        room: u32,
    },
}
