//! Words that are flows and addresses.
ghost use Rattle.std.specs.Prelude.{◌≡◌};
ghost use Rattle.dt_text.specs.Endpoints.{endpoint_read, flow_read, ip_read, address_read};
ghost use Rattle.dt_text.specs.Numerals.{numeral};

use crate::numerals::read_number;
use crate::splitting::cut;
use dt_edges::Address;
use dt_units::{Flow, NodeId};

/// A port, 0 to 65,535.
fn read_port(word: &[u8]) -> Option<u16>
    ensures { result ≡ numeral 65535 word.now }
{
    let port = read_number(word, u64::from(u16::MAX))?;
    Some(port as u16)
}

/// A node and a port of it: `a:p`.
#[tactic(auto, unfolding(crate::specs::Endpoints::endpoint_read))]
fn read_endpoint(word: &[u8]) -> Option<(u32, u16)>
    ensures { result ≡ endpoint_read word.now }
{
    let (node, port) = cut(b':', word)?;
    let node = read_number(node, u64::from(u32::MAX))?;
    Some((node as u32, read_port(port)?))
}

/// The flow that a word is: `a:p>b:q` with numbers of nodes a and b, and ports p and q from 0 to
/// 65,535. It is `None` exactly where the word isn't one.
#[tactic(auto, unfolding(crate::specs::Endpoints::flow_read))]
pub fn read_flow(word: &[u8]) -> Option<Flow>
    ensures { result ≡ flow_read word.now }
{
    let (from, to) = cut(b'>', word)?;
    let (from, from_port) = read_endpoint(from)?;
    let (to, to_port) = read_endpoint(to)?;
    Some(Flow {
        from: NodeId(from),
        from_port,
        to: NodeId(to),
        to_port,
    })
}

/// A number of an IPv4 address, 0 to 255.
fn read_octet(word: &[u8]) -> Option<u8>
    ensures { result ≡ numeral 255 word.now }
{
    let octet = read_number(word, u64::from(u8::MAX))?;
    Some(octet as u8)
}

/// The four numbers of an IPv4 address: `w.x.y.z`.
#[tactic(auto, unfolding(crate::specs::Endpoints::ip_read))]
fn read_ip(word: &[u8]) -> Option<[u8; 4]>
    ensures { result ≡ ip_read word.now }
{
    let (w, rest) = cut(b'.', word)?;
    let (x, rest) = cut(b'.', rest)?;
    let (y, z) = cut(b'.', rest)?;
    Some([
        read_octet(w)?,
        read_octet(x)?,
        read_octet(y)?,
        read_octet(z)?,
    ])
}

/// The address that a word is: `w.x.y.z:p` with numbers from 0 to 255 and a port from 0 to 65,535.
/// It is `None` exactly where the word isn't one.
#[tactic(auto, unfolding(crate::specs::Endpoints::address_read))]
pub fn read_address(word: &[u8]) -> Option<Address>
    ensures { result ≡ address_read word.now }
{
    let (ip, port) = cut(b':', word)?;
    let ip = read_ip(ip)?;
    let port = read_port(port)?;
    Some(Address { ip, port })
}
