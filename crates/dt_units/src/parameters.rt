//! The parameters of the protocol with their ranges and their check, and the five time bounds computed from them.
ghost use Rattle.std.specs.Prelude.{◌≡◌, ◌<◌, IfOk, IfErr, Some, find, not};
ghost use Rattle.dt_units.specs.Limits.{value_of, is_in_range, first_out_of_range, IsWithinLimits};
ghost use Rattle.dt_units.specs.Numbers.{quantum};
ghost use Rattle.dt_units.specs.Times.{times_of};

use crate::limits::{DAY, MOST_OCTETS};
use std::marker::Model;

/// The parameters of the protocol, all of one value at every node. Times are milliseconds and
/// sizes are octets. The ranges are those of [`Params::check`].
#[derive(Clone, Copy, Debug, PartialEq, Eq)]
pub struct Params {
    /// The longest life of a packet: 2 to 86,400,000 ms.
    pub mpl: u32,
    /// How long after its first transmission a segment is retransmitted: 1 to 86,400,000 ms.
    pub r: u32,
    /// The longest delay of an acknowledgement: 1 to 86,400,000 ms.
    pub a: u32,
    /// The time from one transmission of a segment to the next: 1 to 86,400,000 ms.
    pub rto: u32,
    /// The time from the last transmission to a rendezvous: 1 to 86,400,000 ms, and less than the
    /// send time bound.
    pub probe: u32,
    /// The most octets of a segment: 1 to 8,192.
    pub seg: u32,
    /// The most octets that a send record holds: 1 to 65,536.
    pub cap: u32,
    /// The most octets that are unread at a receiver: 1 to 65,536.
    pub rcap: u32,
    /// The window of a new send record: 1 to 65,536 octets.
    pub window: u32,
    /// The quantum of a run of sequence numbers, where it is below 536,870,912: 1 to 2,147,483,648.
    pub run_limit: u32,
    /// The number of the first octet of a send record: any.
    pub start: u32,
}

/// The five time bounds, in milliseconds. Each is at most 518,400,000.
#[derive(Clone, Copy, Debug, PartialEq, Eq)]
pub struct Times {
    /// How long a receive record is kept after its last acceptance: mpl + r + a.
    pub receive: u64,
    /// How long after its first transmission a segment is given up: 2·mpl + r + a.
    pub give: u64,
    /// How long a send record is kept after its last transmission: 3·mpl + r + a.
    pub send: u64,
    /// How long a host is silent after a restart: as long as a send record is kept.
    pub quiet: u64,
    /// How long a send record waits from one quantum of its octets to the next: 3·mpl + 2·r + a.
    pub spacing: u64,
}

/// A field of [`Params`], in the order of the struct.
#[derive(Clone, Copy, Debug, PartialEq, Eq)]
pub enum Field {
    Mpl,
    R,
    A,
    Rto,
    Probe,
    Seg,
    Cap,
    Rcap,
    Window,
    RunLimit,
}

/// A field that is out of its range, and the value that it has.
#[derive(Clone, Copy, Debug, PartialEq, Eq)]
pub struct ParamFault {
    pub field: Field,
    pub value: u32,
}

/// All fields, in the order of the struct.
const FIELDS: [Field; 10] = [
    Field::Mpl,
    Field::R,
    Field::A,
    Field::Rto,
    Field::Probe,
    Field::Seg,
    Field::Cap,
    Field::Rcap,
    Field::Window,
    Field::RunLimit,
];

impl Params {
    /// The value of a field.
    fn value(&self, field: Field) -> u32
        ensures { result ≡ value_of self.now field }
    {
        match field {
            Field::Mpl => self.mpl,
            Field::R => self.r,
            Field::A => self.a,
            Field::Rto => self.rto,
            Field::Probe => self.probe,
            Field::Seg => self.seg,
            Field::Cap => self.cap,
            Field::Rcap => self.rcap,
            Field::Window => self.window,
            Field::RunLimit => self.run_limit,
        }
    }

    /// The time bounds that these parameters give.
    fn time_bounds(&self) -> Times
        ensures { result ≡ times_of self.now }
    {
        let mpl = u64::from(self.mpl);
        let rest = u64::from(self.r) + u64::from(self.a);
        Times {
            receive: mpl + rest,
            give: 2 * mpl + rest,
            send: 3 * mpl + rest,
            quiet: 3 * mpl + rest,
            spacing: 3 * mpl + u64::from(self.r) + rest,
        }
    }

    /// Whether a field is in its range.
    fn is_in_range(&self, field: Field) -> bool
        ensures { result ≡ is_in_range self.now field }
    {
        let value = self.value(field);
        match field {
            Field::Mpl => (2..=DAY).contains(&value),
            Field::R | Field::A | Field::Rto => (1..=DAY).contains(&value),
            Field::Probe => (1..=DAY).contains(&value)
                && u64::from(value) < self.time_bounds().send,
            Field::Seg => (1..=8192).contains(&value),
            Field::Cap | Field::Rcap | Field::Window => (1..=MOST_OCTETS).contains(&value),
            Field::RunLimit => (1..=2_147_483_648).contains(&value),
        }
    }

    /// The first of these fields that is out of its range.
    fn first_outside(&self, fields: &[Field]) -> Option<Field>
        ensures { result ≡ find (λ field. not (is_in_range self.now field)) fields.now }
    {
        fields
            .iter()
            .copied()
            .find(|field| !self.is_in_range(*field))
    }

    /// Checks each field against its range, as it stands beside the field. An `Err` names the first
    /// field, in the struct's order, that is out of its range, with its value.
    #[tactic(auto, using(crate::proofs::Within::within_limits))]
    pub fn check(&self) -> Result<Rules, ParamFault>
        ensures within { IfOk result (λ rules. (rules ≡ self.now) × IsWithinLimits self.now) }
        ensures first { IfErr result (λ fault. (first_out_of_range self.now ≡ Some fault.field) × (fault.value ≡ value_of self.now fault.field)) }
    {
        match self.first_outside(&FIELDS) {
            Some(field) => Err(ParamFault {
                field,
                value: self.value(field),
            }),
            None => Ok(Rules {
                params: *self,
                times: self.time_bounds(),
            }),
        }
    }
}

/// The greatest quantum, in octets.
const MOST_QUANTUM: u32 = 1 << 29;

/// Parameters that were checked, with their time bounds. A contract sees them as the [`Params`].
#[derive(Clone, Copy, Debug)]
pub struct Rules {
    params: Params,
    times: Times,
}

impl Model for Rules {
    ghost use Rattle.std.specs.Prelude.{◌≡◌};
    ghost use Rattle.std.proofs.Common.{ap, sym};
    ghost use Rattle.dt_units.specs.declared.parameters.Params.{Params};
    ghost use Rattle.dt_units.specs.Limits.{IsWithinLimits};
    ghost use Rattle.dt_units.specs.Times.{times_of};

    ghost Value = { Params };

    ghost view = { λ r. r.params };

    ghost invariant = { λ r. IsWithinLimits r.params × (r.times ≡ times_of r.params) };

    ghost inverse = { λ p. record { params = p; times = times_of p } };

    ghost inverse_ok = { λ a h. ap (λ t. record { params = a.params; times = t }) (sym h.1) };
}

impl Rules {
    /// The parameters, each in its range.
    pub fn params(&self) -> &Params
        ensures same { result.now ≡ self.now }
        ensures within { IsWithinLimits self.now }
    {
        &self.params
    }

    /// The time bounds: the sums that stand beside the fields of [`Times`].
    pub fn times(&self) -> &Times
        ensures sums { result.now ≡ times_of self.now }
        ensures within { IsWithinLimits self.now }
    {
        &self.times
    }

    /// The quantum in octets, 1 to 536,870,912: the lesser of `run_limit` and the greatest one. A
    /// crossing is an offset that is a multiple of it.
    pub fn quantum(&self) -> u64
        ensures value { result ≡ quantum self.now }
        ensures some { 0 < result }
    {
        u64::from(self.params().run_limit.min(MOST_QUANTUM))
    }
}
