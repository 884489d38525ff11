//! Tables of cases: each row meets the keys whose bits under a mask are a value, and a table keeps
//! its rule where each key meets exactly one row.
#![tactic(auto)]

mod rows;

pub use rows::{Row, covers, pick};
