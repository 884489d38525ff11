//! A law of networks whose datagrams are watched. It is the contract of a public function whose body
//! names the law of ages that it rests on, and does nothing.
#![tactic(auto)]

ghost use Rattle.std.specs.Prelude.{ℕ, List};
ghost use Rattle.dt_endpoint.specs.Endpoints.{EndpointValue};
ghost use Rattle.dt_network.specs.Duties.{IsInTime, KeepsTime};
ghost use Rattle.dt_network.specs.Network.{Network, Setup};
ghost use Rattle.dt_watch_laws.specs.Watched.{IsWatched};

use dt_watch::datagram_is_no_older_than_charge_and_wait;

/// A WATCHED DATAGRAM IS IN TIME, whatever the network did with it. Take a frame that left some node, and a
/// datagram of it that comes to a node whose caller hands it in with the wait that the watch computes. If what
/// was surely passed had passed on the receiver's clock when the frame left, then the frame was under way no
/// longer than the link's charge and that wait, with any charge. So a network whose datagrams all are watched
/// keeps the duty on links.
pub fn watched_datagram_is_in_time()
    ensures { (setup : Setup) (net : Network) (n now link : ℕ) (e : EndpointValue) (datagram : List ℕ) (waited : ℕ) →
        KeepsTime setup net n now → IsWatched setup net n now link e datagram waited →
        IsInTime net e link datagram waited }
{
    datagram_is_no_older_than_charge_and_wait();
}
