//! Octets already checked to be a valid Deltagram, so that their fields are read without a second check.
ghost use Rattle.std.specs.Prelude.{◌≡◌, IfOk};
ghost use Rattle.std.specs.Result.{result_err};
ghost use Rattle.dt_layout.specs.Spelling.{gram_of};
ghost use Rattle.dt_layout.specs.Reading.{gram_fault, gram_in};
ghost use Rattle.dt_layout.specs.Carried.{IsGram, IsGram-prop, life_of, to_of};

use crate::deltagrams::{Deltagram, check, fields_in};
use crate::faults::LayoutFault;
use crate::fields::four_at;
use crate::frames::Frame;

/// Octets that are known to read as a Deltagram, lent. Whoever has one needn't test them again: what
/// stands in them is read straight from its place.
///
/// It is had from [`GramOctets::read`], which tests octets, or from [`Frame::as_gram`], where a
/// contract promises that a frame reads.
#[derive(Clone, Copy)]
pub struct GramOctets<'a> {
    pub octets: &'a [u8],
    pub ghost reads: { IsGram octets.now } by { IsGram-prop octets.now },
}

impl<'a> GramOctets<'a> {
    /// These octets, where they read as a Deltagram, or the fault that [`crate::read_deltagram`]
    /// answers. It copies nothing, and its cost doesn't depend on the body.
    pub fn read(octets: &'a [u8]) -> Result<GramOctets<'a>, LayoutFault>
        ensures same { IfOk result (λ gram. gram.octets.now ≡ octets.now) }
        ensures fault { result_err result ≡ gram_fault octets.now }
    {
        check(octets)?;
        Ok(GramOctets { octets })
    }

    /// The Deltagram that they spell, with its body lent.
    pub fn deltagram(self) -> Deltagram<'a>
        ensures { gram_of result ≡ gram_in self.entry.octets.now }
    {
        fields_in(self.octets)
    }

    /// The life in milliseconds, at least 1.
    #[tactic(auto, unfolding(crate::specs::Carried::life_of))]
    pub fn life(self) -> u32
        ensures { result ≡ life_of self.entry.octets.now }
    {
        four_at(self.octets, 4)
    }

    /// The node that they go to.
    #[tactic(auto, unfolding(crate::specs::Carried::to_of))]
    pub fn to(self) -> u32
        ensures { result ≡ to_of self.entry.octets.now }
    {
        four_at(self.octets, 12)
    }

    /// Makes a frame hold these octets and no others. It copies them once.
    pub fn copy_into(self, frame: &mut Frame)
        ensures { frame.new ≡ self.entry.octets.now }
    {
        frame.refill(self.octets);
    }
}
