//! Openings of a server's store.
ghost use Rattle.std.specs.Prelude.{◌≡◌, ◌+◌, ◌<◌, ◌≤◌, ◌^◌, IfSome, Option};
ghost use Rattle.dt_orders_model.specs.Chains.{left_before, place_by};
ghost use Rattle.dt_orders_model.specs.declared.knowledge.Opening.{Opening};

use dt_orders_model::{Known, Meta, Opening, Place};

/// What a store's opening writes: its numbers, and the entry of its list of openings.
#[derive(Clone, Copy)]
pub struct Opened {
    pub meta: Meta,
    pub opening: Opening,
}

/// Opens a store anew with a drawn nonce. The program commits and syncs both before it handles a request.
/// The number of the opening is one more than the last one's.
pub fn open_store(meta: &Meta, nonce: u64) -> Opened
    requires clock { meta.now.clock + 1 < 2 ^ 64 }
    requires opening { meta.now.opening + 1 < 2 ^ 32 }
    ensures clock { result.meta.clock ≡ meta.now.clock + 1 }
    ensures horizon { result.meta.horizon ≡ meta.now.horizon }
    ensures number { result.meta.opening ≡ meta.now.opening + 1 }
    ensures nonce { result.meta.nonce ≡ nonce }
    ensures opening { result.opening ≡ record { nonce = nonce; first = meta.now.clock + 1 } }
{
    let clock = meta.clock + 1;
    Opened {
        meta: Meta {
            clock,
            horizon: meta.horizon,
            opening: meta.opening + 1,
            nonce,
        },
        opening: Opening {
            nonce,
            first: clock,
        },
    }
}

/// What the store's list of openings says of a commit: `here` is the opening of its number, and `next` is the
/// one after that, each `None` if the list doesn't have it.
pub fn place(meta: &Meta, heard: &Known, here: &Option<Opening>, next: &Option<Opening>) -> Place
    ensures { result ≡ place_by meta.now.clock heard.now here.now next.now }
{
    match here {
        Some(here) => Place {
            is_there: here.nonce == heard.nonce,
            left: left_before(meta, next),
        },
        None => Place {
            is_there: false,
            left: 0,
        },
    }
}

/// The last clock of an opening: before the next one, or the present clock.
fn left_before(meta: &Meta, next: &Option<Opening>) -> u64
    ensures { result ≡ left_before meta.now.clock next.now }
{
    match next {
        Some(next) => next.first.saturating_sub(1),
        None => meta.clock,
    }
}
