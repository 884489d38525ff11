//! The octets of what orders store and send: the server's numbers, openings and rows, the client's state and
//! its lanes, requests and answers. Each is some numbers of eight octets, the highest octet first. What is
//! written is read again as it was, and octets that spell nothing are refused.
#![tactic(auto)]

mod codes;
mod kept;
mod lanes;
mod laws;
mod messages;
mod requests;
mod words;

pub use codes::{kind_code, kind_of, state_code, state_of, word_code, word_of};
pub use kept::{
    META_OCTETS, OPENING_OCTETS, ROW_OCTETS, read_meta, read_opening, read_row, write_meta,
    write_opening, write_row,
};
pub use lanes::{CLIENT_OCTETS, LANE_OCTETS, read_client, read_lane, write_client, write_lane};
pub use laws::written_is_read;
pub use messages::{
    ANSWER_OCTETS, REQUEST_OCTETS, read_answer, read_request, write_answer, write_request,
};
pub use requests::{NumberedLane, Request};
pub use words::Octets;
