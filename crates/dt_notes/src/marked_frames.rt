//! The packets of the world: frames with what nobody on the wire sees of them.
use dt_layout::Frame;
use dt_relay::Carry;
use std::marker::Model;

/// What nobody on the wire sees of a packet.
#[derive(Clone, Copy)]
pub struct Mark {
    /// The moment at which a host made it, in ms.
    birth: u64,
    /// Where it stands among the octets that its flow took.
    place: u64,
}

impl Model for Mark {
    ghost use Rattle.dt_flow_model.specs.Frames.{Mark as MarkValue};

    ghost Value = { MarkValue };

    ghost view = { λ m. record { birth = m.birth; place = m.place } };

    ghost inverse = { λ v. record { birth = v.birth; place = v.place } };
}

impl Mark {
    ghost use Rattle.std.specs.Prelude.{◌≡◌};

    /// A mark of this birth and this place.
    pub fn new(birth: u64, place: u64) -> Mark
        ensures { result ≡ record { birth = birth; place = place } }
    {
        Mark { birth, place }
    }

    /// The moment at which a host made the packet, in ms.
    pub fn birth(&self) -> u64
        ensures { result ≡ self.now.birth }
    {
        self.birth
    }

    /// Where the packet stands among the octets that its flow took.
    pub fn place(&self) -> u64
        ensures { result ≡ self.now.place }
    {
        self.place
    }
}

/// A frame with its mark.
#[derive(Drop)]
pub struct MarkedFrame {
    pub frame: Frame,
    pub mark: Mark,
}

impl Carry for MarkedFrame {
    type Tag = Mark;

    ghost octets = { λ packet. packet.frame };

    ghost label = { λ packet. packet.mark };

    fn life(&self) -> u32 {
        self.frame.life()
    }

    fn to(&self) -> u32 {
        self.frame.to()
    }

    fn lower(&mut self, by: u32) {
        self.frame.lower(by);
    }

    fn make(frame: &Frame, tag: Mark) -> MarkedFrame {
        let mut made = MarkedFrame {
            frame: Frame::new(),
            mark: tag,
        };
        made.frame.refill(frame.as_slice());
        made
    }

    fn frame(&self) -> &Frame {
        &self.frame
    }

    fn into_tag(self) -> Mark {
        self.mark
    }
}
