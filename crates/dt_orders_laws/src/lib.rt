//! Laws of orders, over any wire, any crash and any set back of a store.
#![tactic(auto)]

mod laws;

pub use laws::{
    closed_number_stays_closed, done_means_executed_once_with_this_result,
    each_order_is_executed_once_at_most, never_is_now_and_ever, only_what_was_noted_is_executed,
    two_openings_are_enough, unknown_is_settled, who_is_served_has_lost_nothing,
};
