//! The names of calls and requests: the number of a call, and the token of a request.
ghost use Rattle.std.specs.Prelude.{◌≡◌};
ghost use Rattle.dt_service_model.specs.Names.{from_u64, to_u64};

use dt_units::Flow;

/// The number of a call: the life that its program gave to the client's endpoint, and how many calls were
/// made in that life before it. A program gives a life once only, so a number never comes again.
#[derive(Clone, Copy, Debug, PartialEq, Eq)]
pub struct CallNumber {
    pub life: u32,
    pub count: u32,
}

impl CallNumber {
    /// The number of a call that messages and C have as one number: the life in its upper 32 bits, and the
    /// count in its lower.
    pub fn from_u64(number: u64) -> CallNumber
        ensures { result ≡ from_u64 number }
    {
        CallNumber {
            life: (number / 4_294_967_296) as u32,
            count: (number % 4_294_967_296) as u32,
        }
    }

    /// It as one number. [`CallNumber::from_u64`] gives it back.
    pub fn to_u64(self) -> u64
        ensures one { result ≡ to_u64 self }
        ensures back { from_u64 result ≡ self }
    {
        u64::from(self.life) * 4_294_967_296 + u64::from(self.count)
    }
}

/// The name of a request: the flow on which it came, and the number of its call. It may be stored,
/// compared and logged.
#[derive(Clone, Copy, Debug, PartialEq, Eq)]
pub struct Token {
    pub flow: Flow,
    pub number: CallNumber,
}
