//! The rows of runs: a moment, what happens then, and what is seen of it.
use crate::audience::Seen;
use crate::fixtures::FLOW;
use dt_flow_model::Cut;
use dt_layout::LayoutFault;

pub enum Step {
    /// A rendezvous from node 1 comes on link 7, with so much life, to a node.
    Meets(u32, u32),
    /// `hello` comes on it.
    Hello,
    /// `hello` comes with another octet at a place, as so many octets.
    Changed(usize, u8, usize),
    Ticks,
    /// The wake is this one, and nothing happens.
    Wakes(Option<u64>),
}

/// A moment, a step, and what is seen.
pub type Row = (u64, Step, &'static [Seen]);

/// `hello` from node 1 to node 2, with a life of 999.
pub const HELLO: [u8; 35] = [
    1, 1, 0, 19, 0, 0, 3, 231, 0, 0, 0, 1, 0, 0, 0, 2, 1, 7, 0, 10, 0, 20, 0, 0, 0, 0, 0, 0, 0, 0,
    104, 101, 108, 108, 111,
];

/// A packet that isn't for the station is passed on, and what a link keeps back leaves at a tick, in
/// the order of the links.
pub static FLUSHED: [Row; 8] = [
    (
        0,
        Step::Meets(5000, 2),
        &[
            Seen::Put {
                link: 5,
                life: 4949,
            },
            Seen::Handed {
                link: 5,
                life: 4949,
                at_once: true,
            },
        ],
    ),
    (
        0,
        Step::Meets(5000, 3),
        &[
            Seen::Put {
                link: 1,
                life: 4949,
            },
            Seen::Handed {
                link: 1,
                life: 4949,
                at_once: true,
            },
        ],
    ),
    (0, Step::Wakes(None), &[]),
    (0, Step::Meets(5000, 3), &[]),
    (0, Step::Meets(5000, 2), &[]),
    (0, Step::Wakes(Some(1000)), &[]),
    (999, Step::Ticks, &[]),
    (
        1000,
        Step::Ticks,
        &[
            Seen::Put {
                link: 5,
                life: 3949,
            },
            Seen::Handed {
                link: 5,
                life: 3949,
                at_once: false,
            },
            Seen::Put {
                link: 1,
                life: 3949,
            },
            Seen::Handed {
                link: 1,
                life: 3949,
                at_once: false,
            },
        ],
    ),
];

/// What can't be passed on is reported.
pub static GOING_NOWHERE: [Row; 3] = [
    (0, Step::Meets(50, 2), &[Seen::ExpiredIn { link: 7 }]),
    (0, Step::Meets(5000, 4), &[Seen::NoRoute { to: 4 }]),
    (0, Step::Meets(51, 2), &[Seen::ExpiredOut { link: 5 }]),
];

/// Data for the station is accepted, and the acknowledgement that it makes goes out after its report,
/// tagged. It goes back to node 1, to which there is no route.
pub static ACKNOWLEDGED: [Row; 1] = [(
    40,
    Step::Hello,
    &[
        Seen::Accepted {
            flow: FLOW,
            number: 0,
            length: 5,
            run: true,
        },
        Seen::Acked {
            flow: FLOW,
            number: 5,
            window: 4091,
        },
        Seen::Asked,
        Seen::NoRoute { to: 1 },
    ],
)];

/// Octets for the station that don't read are reported by their fault.
pub static NOT_READ: [Row; 6] = [
    (
        0,
        Step::Changed(1, 2, 35),
        &[Seen::Bad {
            fault: LayoutFault::Protocol { octet: 2 },
        }],
    ),
    (
        0,
        Step::Changed(16, 9, 35),
        &[Seen::Bad {
            fault: LayoutFault::Kind { octet: 9 },
        }],
    ),
    (
        0,
        Step::Changed(17, 8, 35),
        &[Seen::Bad {
            fault: LayoutFault::Flags { octet: 8 },
        }],
    ),
    (
        0,
        Step::Changed(29, 1, 35),
        &[Seen::Bad {
            fault: LayoutFault::Window { value: 1 },
        }],
    ),
    (
        0,
        Step::Changed(3, 13, 29),
        &[Seen::Bad {
            fault: LayoutFault::Short { len: 13 },
        }],
    ),
    (
        0,
        Step::Changed(3, 14, 30),
        &[Seen::Bad {
            fault: LayoutFault::Size { len: 0 },
        }],
    ),
];

/// Octets that are sent go out at once.
pub static SENT: [Seen; 5] = [
    Seen::Took {
        flow: FLOW,
        count: 5,
    },
    Seen::Sent {
        flow: FLOW,
        cut: Cut {
            number: 0,
            length: 5,
            drf: true,
            begin: true,
            end: true,
        },
    },
    Seen::Asked,
    Seen::Put { link: 5, life: 999 },
    Seen::Handed {
        link: 5,
        life: 999,
        at_once: true,
    },
];

/// There is nothing to read.
pub static NOTHING_READ: [Seen; 1] = [Seen::Nothing { flow: FLOW }];
