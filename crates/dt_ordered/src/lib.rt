//! A map in the order of insertion, of which an entry goes at a cost that doesn't grow.
#![tactic(auto)]

mod ordered_map;

pub use ordered_map::OrderedMap;
