//! The rows of worked runs: each step with its moment.
use crate::sender_steps::{Octets, Step};
use dt_send::{PutFault, SendMoments};

/// A message of 250 octets goes out in three packets, and the first is acknowledged.
pub const THREE_PACKETS: &[(u64, Step)] = &[
    (0, Step::Put(&[b'a'; 250], Ok(()))),
    (
        0,
        Step::Sends(
            0,
            Octets {
                number: 0,
                octets: &[b'a'; 100],
                marks: b"db",
            },
        ),
    ),
    (
        0,
        Step::Sends(
            0,
            Octets {
                number: 100,
                octets: &[b'a'; 100],
                marks: b"",
            },
        ),
    ),
    (
        0,
        Step::Sends(
            0,
            Octets {
                number: 200,
                octets: &[b'a'; 50],
                marks: b"e",
            },
        ),
    ),
    (499, Step::Waits(Some(500))),
    (499, Step::Stands(0, 250, 512)),
    (499, Step::Counts(0, 250)),
    (499, Step::Ring(250, 4096)),
    (
        499,
        Step::Put(&[b'b'; 3847], Err(PutFault::Full { free: 3846 })),
    ),
    (499, Step::Acks(99, 400, None)),
    (499, Step::Acks(100, 400, Some(100))),
    (499, Step::Stands(100, 250, 500)),
];

/// An octet is given up, and another one goes out after it.
pub const UNCERTAIN: &[(u64, Step)] = &[
    (0, Step::Put(b"a", Ok(()))),
    (
        0,
        Step::Sends(
            0,
            Octets {
                number: 0,
                octets: b"a",
                marks: b"dbe",
            },
        ),
    ),
    (0, Step::Waits(Some(500))),
    (
        0,
        Step::Moments(SendMoments {
            give_up: Some(5200),
            release: None,
            resend: Some(500),
            send: None,
            meet: None,
        }),
    ),
    (
        2999,
        Step::Resends(
            500,
            Octets {
                number: 0,
                octets: b"a",
                marks: b"dbe",
            },
        ),
    ),
    (5199, Step::Waits(Some(5200))),
    (5200, Step::GivesUp(5200, 1)),
    (
        5200,
        Step::Holds(Octets {
            number: 0,
            octets: b"a",
            marks: b"dbe",
        }),
    ),
    (5200, Step::Waits(Some(9199))),
    (5200, Step::Put(b"b", Ok(()))),
    (
        5200,
        Step::Sends(
            0,
            Octets {
                number: 1,
                octets: b"b",
                marks: b"dbe",
            },
        ),
    ),
];

/// A window of four octets that opens late.
pub const WINDOWS: &[(u64, Step)] = &[
    (0, Step::Put(b"abcdef", Ok(()))),
    (
        0,
        Step::Sends(
            0,
            Octets {
                number: 0,
                octets: b"abcd",
                marks: b"db",
            },
        ),
    ),
    (200, Step::Waits(Some(500))),
    (200, Step::Acks(4, 0, Some(4))),
    (799, Step::Waits(Some(800))),
    (800, Step::Meets(800, 4)),
    (800, Step::Acks(4, 0, Some(0))),
    (1599, Step::Waits(Some(1600))),
    (1600, Step::Meets(1600, 4)),
    (1600, Step::Acks(4, 4, Some(0))),
    (
        1600,
        Step::Sends(
            0,
            Octets {
                number: 4,
                octets: b"ef",
                marks: b"de",
            },
        ),
    ),
];

/// A rendezvous goes out after octets were given up.
pub const GIVEN_UP: &[(u64, Step)] = &[
    (0, Step::Put(b"abcdef", Ok(()))),
    (
        0,
        Step::Sends(
            0,
            Octets {
                number: 0,
                octets: b"abcd",
                marks: b"db",
            },
        ),
    ),
    (5200, Step::GivesUp(5200, 4)),
    (5200, Step::Meets(800, 4)),
    (5200, Step::Waits(Some(6000))),
];

/// A record is renewed after a run of eight octets.
pub const RENEWAL: &[(u64, Step)] = &[
    (0, Step::Put(&[b'a'; 20], Ok(()))),
    (
        0,
        Step::Sends(
            0,
            Octets {
                number: 0,
                octets: &[b'a'; 8],
                marks: b"db",
            },
        ),
    ),
    (200, Step::Waits(Some(500))),
    (200, Step::Acks(8, 4088, Some(8))),
    (6199, Step::Waits(Some(6200))),
    (6200, Step::Renews(6200)),
    (
        6200,
        Step::Sends(
            0,
            Octets {
                number: 0,
                octets: &[b'a'; 8],
                marks: b"d",
            },
        ),
    ),
    (6200, Step::Stands(0, 8, 512)),
    (6200, Step::Counts(4, 12)),
];

/// An octet waits until the run of eight before it is surely gone.
pub const QUANTUM: &[(u64, Step)] = &[
    (0, Step::Put(b"aaaa", Ok(()))),
    (
        0,
        Step::Sends(
            0,
            Octets {
                number: 0,
                octets: b"aaaa",
                marks: b"dbe",
            },
        ),
    ),
    (0, Step::Acks(4, 4092, Some(4))),
    (0, Step::Put(b"aaaa", Ok(()))),
    (
        3500,
        Step::Sends(
            0,
            Octets {
                number: 4,
                octets: b"aaaa",
                marks: b"dbe",
            },
        ),
    ),
    (3500, Step::Acks(8, 4088, Some(4))),
    (3500, Step::Put(b"b", Ok(()))),
    (9199, Step::Waits(Some(9200))),
    (
        9200,
        Step::Sends(
            9200,
            Octets {
                number: 8,
                octets: b"b",
                marks: b"dbe",
            },
        ),
    ),
];

/// Numbers go round.
pub const ROUND: &[(u64, Step)] = &[
    (0, Step::Put(b"abcd", Ok(()))),
    (
        0,
        Step::Sends(
            0,
            Octets {
                number: 4_294_967_294,
                octets: b"abcd",
                marks: b"dbe",
            },
        ),
    ),
    (0, Step::Acks(2, 8, Some(4))),
    (0, Step::Stands(2, 2, 10)),
    (6200, Step::Releases(6200)),
];
