//! The trait `Wire`: open a local address for some peers, then take and give datagrams, each with its link number.
ghost use Rattle.std.specs.Prelude.{◌≢◌, ◌<◌, ◌≤◌, length, AllPairs, IfOk, OnOk, OnErr, IfSome};
ghost use Rattle.dt_edges.specs.Wires.{WireSight, HasCounts, HasWaited, handed, OpensOne, OpenFails, TakesOne, TakeFails, GivesOne, GiveFails};

use crate::addresses::{Address, Peer};
use crate::failures::Failed;

/// Datagrams to and from peers, each under the number of its link. A wire keeps two counts of faults,
/// one for `open` and `take` and one for `give`. Neither falls, each stands still at 2^64 - 1, and no
/// call changes the other one.
pub trait Wire {
    /// What contracts see. A wire may tell what takes have handed over and gives have taken, how it
    /// was opened, how long the last take was to wait, and a plan of what comes and what fails, which
    /// no call of the trait changes. It counts its opens. One that tells a plan counts its takes and
    /// gives, and tells what takes have handed over while it counts fewer than 2^64 - 1 takes.
    ghost sight: { Self → WireSight };

    /// Begins to use a local address, with these peers, which differ in their links. An `Err` comes
    /// only where the first count rose in this call, and leaves the opening as it was.
    fn open(&mut self, local: Address, peers: &[Peer]) -> Result<(), Failed>
        requires { AllPairs (λ (p : _) (q : _). p.link ≢ q.link) peers.now }
        ensures opened { OnOk result (OpensOne (record { local = local; peers = peers.now }) (sight self.old) (sight self.new)) }
        ensures failed { OnErr result (OpenFails (sight self.old) (sight self.new)) }
        ensures never_falls { (sight self.old).take_faults ≤ (sight self.new).take_faults };

    /// Waits for a datagram, 1 to 1,000 milliseconds, and hands it over: the link that it came on, 0
    /// to 255, and how many of its octets stand first in the buffer. A longer datagram is cut to the
    /// buffer. `None` where no datagram was there within the wait, or one came from a stranger. An
    /// `Err` comes only where the first count rose in this call, and hands nothing over.
    fn take(&mut self, wait_ms: u32, buf: &mut [u8]) -> Result<Option<(u16, usize)>, Failed>
        requires some_wait { 1 ≤ wait_ms }
        requires short_wait { wait_ms ≤ 1000 }
        requires room { 0 < length buf.old }
        ensures link { IfOk result (λ t. IfSome t (λ d. d.0 ≤ 255)) }
        ensures within { IfOk result (λ t. IfSome t (λ d. d.1 ≤ length buf.old)) }
        ensures taken { IfOk result (λ t. TakesOne (length buf.old) (handed t buf.new) (sight self.old) (sight self.new)) }
        ensures failed { OnErr result (TakeFails (sight self.old) (sight self.new)) }
        ensures waited { HasWaited wait_ms (sight self.new) }
        ensures never_falls { (sight self.old).take_faults ≤ (sight self.new).take_faults };

    /// Sends a datagram on a link. An `Err` comes only where the second count rose in this call, and
    /// has sent nothing.
    fn give(&mut self, link: u16, octets: &[u8]) -> Result<(), Failed>
        ensures given { OnOk result (GivesOne (record { link = link; octets = octets.now }) (sight self.old) (sight self.new)) }
        ensures failed { OnErr result (GiveFails (sight self.old) (sight self.new)) }
        ensures never_falls { (sight self.old).give_faults ≤ (sight self.new).give_faults };

    /// Each count is at most 2^64 - 1.
    ghost bounded: { (wire : Self) → HasCounts (sight wire) };
}
