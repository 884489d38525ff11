//! Which address a link has, and which link an address.
ghost use Rattle.std.specs.Prelude.{◌≡◌, ◌≢◌, None, All, Any, IfSome};

use dt_edges::{Address, Peer};

/// The address of the link's peer. The cost is the count of peers.
pub fn address_of(peers: &[Peer], link: u16) -> Option<Address>
    ensures some { IfSome result (λ address. Any (λ p. (p.link ≡ link) × (p.address ≡ address)) peers.now) }
    ensures none { result ≡ None → All (λ p. p.link ≢ link) peers.now }
{
    let peer = peers.iter().copied().find(|peer| peer.link == link)?;
    Some(peer.address)
}

/// The link of the peer with this address; one of them, where there are more. None for a stranger's.
/// The cost is the count of peers.
pub fn link_of(peers: &[Peer], address: Address) -> Option<u16>
    ensures some { IfSome result (λ link. Any (λ p. (p.link ≡ link) × (p.address ≡ address)) peers.now) }
    ensures none { result ≡ None → All (λ p. p.address ≢ address) peers.now }
{
    let peer = peers.iter().copied().find(|peer| peer.address == address)?;
    Some(peer.link)
}
