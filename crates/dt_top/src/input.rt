//! The input is read whole, before anything is written.
ghost use Rattle.std.specs.Prelude.{IfOk, IfErr};
ghost use Rattle.dt_top.specs.Inputs.{IsInput, LacksInput};

use dt_edges::{Failed, Source};
use std::alloc::{AllocError, Global};

/// The most octets of an input.
const LIMIT: usize = 16_777_216;

/// How many octets are taken at once.
const PIECE: usize = 8192;

/// Why no input is had.
#[derive(Clone, Copy)]
pub enum InputFault {
    /// It has more than 16,777,216 octets.
    TooLong,
    /// There was no memory.
    NoMemory,
    /// The source failed.
    ReadFault,
}

impl From<AllocError> for InputFault {
    ghost use Rattle.std.specs.Prelude.{◌≡◌};
    ghost use Rattle.dt_top.specs.declared.input.InputFault.TheVariants as faults;

    ghost from_gives = { λ _ fault. fault ≡ faults.NoMemory };

    fn from(_: AllocError) -> Self {
        InputFault::NoMemory
    }
}

impl From<Failed> for InputFault {
    ghost use Rattle.std.specs.Prelude.{◌≡◌};
    ghost use Rattle.dt_top.specs.declared.input.InputFault.TheVariants as faults;

    ghost from_gives = { λ _ fault. fault ≡ faults.ReadFault };

    fn from(_: Failed) -> Self {
        InputFault::ReadFault
    }
}

/// The input, up to its end. Takes memory for the greatest input at once, and no more.
pub fn read_input<S: Source>(alloc: Global, source: &mut S) -> Result<Vec<u8>, InputFault>
    ensures whole { IfOk result (λ input. IsInput input.items (S.sight source.old) (S.sight source.new)) }
    ensures lacks { IfErr result (λ fault. LacksInput fault (S.sight source.old) (S.sight source.new)) }
{
    let mut input = Vec::with_capacity(alloc, LIMIT)?;
    let mut piece = [0; PIECE];
    loop {
        let count = source.take(&mut piece)?;
        if count == 0 {
            return Ok(input);
        }
        if count > LIMIT - input.len() {
            return Err(InputFault::TooLong);
        }
        input.extend_from_slice(&piece[..count])?;
    }
}
