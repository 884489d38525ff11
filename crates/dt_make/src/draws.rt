//! What the generator draws for a round.
ghost use Rattle.std.specs.Prelude.{◌≡◌, ◌<◌};
ghost use Rattle.dt_make.specs.Draws as draws;
ghost use Rattle.dt_make.specs.Kinds.{kind_of};
ghost use Rattle.dt_make.specs.declared.round_kinds.RoundKind.{RoundKind};

use crate::round_kinds::RoundKind;

/// The next number of the generator.
pub fn next_x(x: u32) -> u32
    requires { x < 2147483648 }
    ensures { result ≡ draws.next_x x }
{
    ((u64::from(x) * 1_103_515_245 + 12_345) % 2_147_483_648) as u32
}

/// What a round is drawn from: the upper bits of the generator's number.
#[derive(Clone, Copy)]
pub struct Draw(u32);

impl Draw {
    /// The draw of the generator's number.
    pub fn of(x: u32) -> Self
        ensures { result.0 ≡ draws.draw_of x }
    {
        Draw(x / 65_536)
    }

    /// What happens in the round.
    pub fn kind(self) -> RoundKind
        ensures { result ≡ kind_of self.0 }
    {
        match self.0 % 4 {
            2 => RoundKind::Lost,
            3 => RoundKind::Twice,
            _ => RoundKind::Plain,
        }
    }

    /// How many octets the round's message has, 1 to 16.
    pub fn length(self) -> u32
        ensures { result ≡ draws.length_of self.0 }
    {
        1 + self.0 / 4 % 16
    }
}
