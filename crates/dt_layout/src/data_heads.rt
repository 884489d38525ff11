//! The head of a data packet, for writers that append the octets to a frame in pieces, without a copy of them all.
ghost use Rattle.std.specs.Prelude.{◌≡◌, ℕ, ◌+◌, ◌≤◌, List, ◌++◌, length};
ghost use Rattle.dt_layout.specs.declared.limits.TheConstants.{HEADER, MOST_DATA, PACKET_HEADER};
ghost use Rattle.dt_layout.specs.Heads.{headed};
ghost use Rattle.dt_layout.specs.Spelling.{Gram, carrying, gram_spelling};

use crate::frames::Frame;
use crate::headers::fields;
use crate::limits::PACKET_HEADER;
use crate::packets::Packet;
use crate::versions::version_for_data;
use crate::writing::deltagram_header;

/// What a packet of data says before its octets, which whoever has them in pieces appends to a frame one
/// piece after another, with no copy of all of them first.
#[derive(Clone, Copy)]
pub struct DataHead {
    pub from_port: u16,
    pub to_port: u16,
    /// The sequence number of the first octet.
    pub number: u32,
    /// The data-run flag: nothing before these octets is outstanding.
    pub drf: bool,
    /// The first octet begins a message.
    pub begin: bool,
    /// The last octet ends a message.
    pub end: bool,
    /// How many octets come after it: 1 to 8,192. Up to 1,024 go in version 1, more in version 2.
    pub count: usize,
}

impl DataHead {
    /// Makes the frame hold what stands before the data of a Deltagram with this life, in milliseconds
    /// and at least 1, between these nodes: 30 octets. What it held before is gone.
    ///
    /// Once the octets were appended, as many as the head tells and by any number of [`Frame::append`],
    /// the frame is what [`crate::write_frame`] makes of them; until then it reads as nothing.
    pub fn write(&self, frame: &mut Frame, life: u32, from: u32, to: u32)
        requires alive { 1 ≤ life }
        requires some { 1 ≤ self.now.count }
        requires fits { self.now.count ≤ MOST_DATA }
        ensures len { length frame.new ≡ HEADER + PACKET_HEADER }
        // The one spelling, once the octets stand after it.
        ensures spelled { (octets : List ℕ) → length octets ≡ self.now.count → frame.new ++ octets ≡ gram_spelling (carrying life from to (headed self.now octets)) }
        // So it reads as that Deltagram then.
        ensures gram { (octets : List ℕ) → length octets ≡ self.now.count → Gram (frame.new ++ octets) (carrying life from to (headed self.now octets)) }
    {
        let packet = Packet::Data {
            from_port: self.from_port,
            to_port: self.to_port,
            number: self.number,
            drf: self.drf,
            begin: self.begin,
            end: self.end,
            octets: &[],
        };
        let (kind, header) = fields(&packet);
        let len = PACKET_HEADER + self.count;
        let version = version_for_data(self.count);
        frame.clear();
        frame.append(&deltagram_header(version, len as u16, life, from, to));
        frame.append(&header.write(kind));
    }
}
