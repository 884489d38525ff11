//! A datagram that an endpoint has to send: its octets, its link and the node to which it is sent.
ghost use Rattle.std.specs.Prelude.{◌≡◌, IfOk};
ghost use Rattle.dt_endpoint.specs.Acts.{out_frame};

use dt_items::NoMemory;
use dt_layout::GramOctets;
use std::alloc::Global;
use std::marker::Model;

/// A frame that left on a link. It takes the memory of its own octets, 30 to 8,222, and no more.
#[derive(Drop)]
pub struct OutFrame {
    link: u16,
    to: u32,
    octets: Vec<u8>,
}

impl Model for OutFrame {
    ghost use Rattle.dt_endpoint.specs.Acts.{OutFrameValue};

    ghost Value = { OutFrameValue };

    ghost view = { λ f. record { link = f.link; to = f.to; octets = f.octets.items } };
}

impl OutFrame {
    /// A copy of the octets of a frame, or want of memory.
    pub(crate) fn copy_of(
        alloc: Global,
        link: u16,
        gram: GramOctets<'_>,
    ) -> Result<OutFrame, NoMemory>
        ensures { IfOk result (λ f. f ≡ out_frame link gram.entry.octets.now) }
    {
        let octets = Vec::from_slice(alloc, gram.octets)?;
        Ok(OutFrame {
            link,
            to: gram.to(),
            octets,
        })
    }

    /// The link on which it left.
    pub fn link(&self) -> u16
        ensures { result ≡ self.now.link }
    {
        self.link
    }

    /// The node that it goes to.
    pub fn to(&self) -> u32
        ensures { result ≡ self.now.to }
    {
        self.to
    }

    /// What is to be put on the wire.
    pub fn octets(&self) -> &[u8]
        ensures { result.now ≡ self.now.octets }
    {
        &self.octets
    }
}
