//! The links and the routes of relays.
use dt_relay::{InLink, OutLink, Route};

/// To node 2 on link 5, to node 3 on link 1; the links stand in this order.
pub static OUTS: [OutLink; 2] = [
    OutLink {
        link: 5,
        pace: 1000,
    },
    OutLink { link: 1, pace: 10 },
];

/// The same links, and the first of them again.
pub static OUTS_AGAIN: [OutLink; 3] = [
    OutLink {
        link: 5,
        pace: 1000,
    },
    OutLink { link: 1, pace: 10 },
    OutLink { link: 5, pace: 7 },
];

pub static INS: [InLink; 2] = [
    InLink {
        link: 3,
        charge: 998,
    },
    InLink {
        link: 9,
        charge: 997,
    },
];

pub static ROUTES: [Route; 2] = [Route { to: 2, link: 5 }, Route { to: 3, link: 1 }];
