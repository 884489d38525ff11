//! A line of the log: its time, the node that reported it if there is one, and the report.
use crate::reports::Report;

/// A line of the log: when it was reported, by which node, and what. The moment is in ms: the world's
/// in a replay, and the node's own over a wire. The node is there where a station reports the line.
#[derive(Clone, Copy)]
pub struct LogLine<'a> {
    pub moment: u64,
    pub node: Option<u32>,
    pub report: Report<'a>,
}
