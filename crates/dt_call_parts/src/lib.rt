//! What calls are kept by beside their world: what was heard of an event, what each side of a flow has
//! begun, which flows are due to be read, who answers, and who receives the lines of calls. And laws about
//! parts of a step, without code.
#![tactic(auto)]

mod call_lines;
mod dues;
mod flow_sides;
mod flows;
mod handlers;
mod heard;
mod totals;

pub use call_lines::{CallLine, CallLines};
pub use dues::{Due, due_after_event};
pub use flow_sides::{FlowSides, Side};
pub use flows::{Flows, add_flow, drop_begun, join_piece};
pub use handlers::{Handler, Reversing};
pub use heard::Heard;
pub use totals::{CallTotals, is_waiting, totals_of};
