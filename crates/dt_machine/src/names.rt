//! Addresses as C's `sockaddr_in`: the family, the port and the four octets of an IPv4 address.
ghost use Rattle.std.specs.Prelude.{◌≡◌};
ghost use Rattle.dt_machine.specs.Names as names;

use dt_edges::Address;
use libc::net::AF_INET;

/// The room that C has for a socket's address.
pub type Name = [u8; 128];

/// An address as C has it, in the machine's order of octets but for the port.
pub fn name_of(address: Address) -> Name
    ensures value { result ≡ names.name_of address }
    ensures back { names.address_in result ≡ Some address }
{
    let mut name = [0; 128];
    name[..2].copy_from_slice(&(AF_INET as u16).to_ne_bytes());
    name[2..4].copy_from_slice(&address.port.to_be_bytes());
    name[4..8].copy_from_slice(&address.ip);
    name
}

/// The address that C put there. None where its family isn't that of IPv4.
pub fn address_in(name: &Name) -> Option<Address>
    ensures { result ≡ names.address_in name.now }
{
    if u16::from_ne_bytes([name[0], name[1]]) != AF_INET as u16 {
        return None;
    }
    Some(Address {
        ip: [name[4], name[5], name[6], name[7]],
        port: u16::from_be_bytes([name[2], name[3]]),
    })
}
