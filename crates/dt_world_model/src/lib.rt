//! Many flows in definitions: the records of a host, the queues of a relay, what a station does in
//! an event, the world of stations, links and copies, its step, and the facts that each step keeps.
//! The definitions stand in specs/; here are the plain types that they share with the program, what a
//! packet pays for waiting, and worked steps.
#![tactic(auto)]

mod links;
mod waits;
mod worked;

pub use links::{Entered, InLink, Link, OutLink, Route};
pub use waits::wait_charge;
pub use worked::{
    acts_go_by_class, closing_packet_comes, copy_arrives_at_its_charge, events_are_refused,
    host_gives_up_in_turn, last_millisecond_in_a_relay, link_is_full, link_keeps_its_pace,
    no_route_to_a_node, quiet_time_is_by_the_own_clock, restart_drops_what_waits, setup_is_refused,
    short_exchange, station_settles_before_and_after, totals_of_a_flow,
};
