//! Laws of orders at both ends together: a server, its clients and the wire between them, over any loss, repeat
//! and reordering, any crash of either end, and set backs of their stores.
#![tactic(auto)]

mod laws;
mod worked;

pub use laws::{
    done_means_executed_once_with_this_result, each_order_is_executed_once_at_most,
    never_and_unknown_stay_over_set_backs, never_is_now_and_ever, one_fate,
    only_what_was_called_is_executed, settled_orders_are_handed_out_no_more, unknown_is_settled,
};
pub use worked::a_run_with_crashes_is_a_history;
