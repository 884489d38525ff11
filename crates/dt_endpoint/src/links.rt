//! The links and routes that a node is opened with, and the check that a link is one of its incoming links.
ghost use Rattle.std.specs.Prelude.{◌≡◌};
ghost use Rattle.dt_endpoint.specs.Calls.{has_link};

use dt_station::{InLink, OutLink, Route};

/// The links of a node, and by which of them its packets reach other nodes. Where a link or a node
/// stands twice the first counts, and a route by a link that isn't there leads nowhere.
#[derive(Clone, Copy, Drop)]
pub struct Links<'a> {
    /// The links on which packets leave.
    pub outs: &'a [OutLink],
    /// The links on which packets come.
    pub ins: &'a [InLink],
    pub routes: &'a [Route],
}

/// Whether packets come on this link.
pub fn has_link(link: u16, ins: &[InLink]) -> bool
    ensures { result ≡ has_link link ins.now }
{
    ins.iter().any(|i| i.link == link)
}
