//! The trait for packets of a relay: a frame with a tag, and its lifetime and target node.
ghost use Rattle.std.specs.Prelude.{◌≡◌, ℕ, ◌<◌, List};
ghost use Rattle.dt_layout.specs.Carried.{IsGram, life_of, lowered, to_of};

use dt_layout::Frame;

/// A kind of packets: a frame, and what is written on it for those who handle it, its tag. A contract
/// sees of a packet its octets and its label, which is the tag.
pub trait Carry: Drop {
    type Tag: Drop;

    ghost octets: { Self → List ℕ };

    ghost label: { Self → Self.Tag };

    /// The life in milliseconds that the octets have. They must read as a Deltagram.
    fn life(&self) -> u32
        requires { IsGram (octets self.now) }
        ensures { result ≡ life_of (octets self.now) };

    /// The node that the octets go to. They must read as a Deltagram.
    fn to(&self) -> u32
        requires { IsGram (octets self.now) }
        ensures { result ≡ to_of (octets self.now) };

    /// Makes the life less by `by` milliseconds, and changes no other octet, nor the tag. The
    /// octets must read as a Deltagram with a life above that.
    fn lower(&mut self, by: u32)
        requires gram { IsGram (octets self.old) }
        requires below { by < life_of (octets self.old) }
        ensures octets { octets self.new ≡ lowered by (octets self.old) }
        ensures gram { IsGram (octets self.new) }
        ensures label { label self.new ≡ label self.old };

    /// A packet of these octets, which must read as a Deltagram, with this tag. It copies them.
    fn make(frame: &Frame, tag: Self::Tag) -> Self
        requires { IsGram frame.now }
        ensures octets { octets result ≡ frame.now }
        ensures label { label result ≡ tag };

    /// The frame.
    fn frame(&self) -> &Frame
        ensures { result.now ≡ octets self.now };

    /// The tag alone. The frame is let go.
    fn into_tag(self) -> Self::Tag
        ensures { result ≡ label self };
}

/// A frame alone has nothing written on it.
impl Carry for Frame {
    type Tag = ();

    ghost octets = { λ frame. frame };

    ghost label = { λ _. tt };

    fn life(&self) -> u32 {
        self.as_gram().life()
    }

    fn to(&self) -> u32 {
        self.as_gram().to()
    }

    fn lower(&mut self, by: u32) {
        self.lower(by);
    }

    fn make(frame: &Frame, tag: ()) -> Frame {
        Frame::copy_of(frame)
    }

    fn frame(&self) -> &Frame {
        self
    }

    fn into_tag(self) {}
}
