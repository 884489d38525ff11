//! What the versions of the layout allow.
ghost use Rattle.std.specs.Prelude.{◌≡◌, ◌==◌, ◌&&◌, nat_le, if◌then◌else◌};
ghost use Rattle.dt_layout.specs.declared.limits.TheConstants.{MOST_SHORT_DATA, VERSION_1, VERSION_2};
ghost use Rattle.dt_layout.specs.Spelling.{least_data, most_data, most_body, packet_of, version_of};
ghost use Rattle.dt_layout.specs.Reading.{is_version};

use crate::limits::{MOST_BODY, MOST_DATA, MOST_SHORT_BODY, MOST_SHORT_DATA, VERSION_1, VERSION_2};
use crate::packets::Packet;

/// Whether there is such a version.
pub fn is_known(version: u8) -> bool
    ensures { result ≡ is_version version }
{
    version == VERSION_1 || version == VERSION_2
}

/// The most octets of a body.
pub fn longest_body(version: u8) -> usize
    ensures { result ≡ most_body version }
{
    if version == VERSION_1 {
        MOST_SHORT_BODY
    } else {
        MOST_BODY
    }
}

/// Whether a body has as many octets as its header tells, and no more than there may be.
pub fn allows_length(version: u8, told: usize, there: usize) -> bool
    ensures { result ≡ (told == there && nat_le there (most_body version)) }
{
    told == there && there <= longest_body(version)
}

/// The least octets of data in a packet.
pub fn shortest_data(version: u8) -> usize
    ensures { result ≡ least_data version }
{
    if version == VERSION_1 {
        1
    } else {
        MOST_SHORT_DATA + 1
    }
}

/// The most octets of data in a packet.
pub fn longest_data(version: u8) -> usize
    ensures { result ≡ most_data version }
{
    if version == VERSION_1 {
        MOST_SHORT_DATA
    } else {
        MOST_DATA
    }
}

/// The version that has this packet.
pub fn version_for(packet: &Packet<'_>) -> u8
    ensures { result ≡ version_of (packet_of packet.now) }
{
    match packet {
        Packet::Data { octets, .. } => version_for_data(octets.len()),
        Packet::Ack { .. } | Packet::Meet { .. } => VERSION_1,
        Packet::Close { .. } => VERSION_2,
    }
}

/// The version that has data of `count` octets.
pub fn version_for_data(count: usize) -> u8
    ensures { result ≡ (if nat_le count MOST_SHORT_DATA then VERSION_1 else VERSION_2) }
{
    if count > MOST_SHORT_DATA {
        VERSION_2
    } else {
        VERSION_1
    }
}
