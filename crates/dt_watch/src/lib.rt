//! How old a datagram is at most, and how much may be under way: the rules of the watch and of the governor, with no I/O.
#![tactic(auto)]

mod ages;
mod arrivals;
mod clock_bounds;
mod clocks;
mod governor;
mod interval;
mod laws;
mod lower;
mod opening_laws;
mod openings;
mod readings;
mod routes;
mod upper;
mod watches;
mod widths;
mod windows;

pub use ages::{age, waited_ms};
pub use arrivals::{Arrival, Judgement, Opening};
pub use clock_bounds::ClockBounds;
pub use clocks::{Clocks, Spans};
pub use governor::{aim, cut};
pub use interval::{Interval, Passage};
pub use laws::{
    age_counts_stops, alarm_means_a_broken_clock, clocks_that_keep_their_rates_go_together,
    datagram_is_no_older_than_charge_and_wait, had_passed_around,
    no_alarm_bounds_stops_by_the_flights, one_bound_is_enough, sure_had_passed,
    sure_rests_on_its_stamp, width_bounds_stops_of_the_receiver, width_bounds_stops_of_the_sender,
};
pub use lower::Lower;
pub use opening_laws::{
    former_opening_has_no_later_reading, nothing_of_a_former_opening_is_taken,
    under_way_is_within_the_window_or_one_message,
};
pub use openings::Openings;
pub use readings::{Bound, Reading};
pub use routes::Route;
pub use upper::Upper;
pub use watches::Watch;
pub use widths::Widths;
pub use windows::Window;

#[cfg(test)]
mod tests;
