//! What a node has beside its endpoint.
ghost use Rattle.std.specs.Prelude.{◌≡◌, IfOk};
ghost use Rattle.dt_service_model.specs.declared.ports.Most.{Most};
ghost use Rattle.dt_service_model.specs.CallBook.{new_book};

use crate::begun_messages::BegunMessage;
use crate::happenings::Happenings;
use crate::ports::Ports;
use dt_items::NoMemory;
use dt_open_calls::OpenCalls;
use dt_service_model::{CallCounts, Most};
use dt_tokens::{Flows, Tokens};
use std::alloc::Global;
use std::marker::Model;

/// The open calls of a caller and the open requests of a service, and what wasn't taken of what happened.
#[derive(Drop)]
pub struct CallBook {
    pub(crate) most: Most,
    pub(crate) closed: bool,
    pub(crate) ports: Ports,
    pub(crate) life: u32,
    /// How many calls were made in this life: 2^32 at most.
    pub(crate) count: u64,
    pub(crate) calls: OpenCalls,
    pub(crate) tokens: Tokens,
    pub(crate) begun: Vec<BegunMessage>,
    pub(crate) unread: Flows,
    pub(crate) counts: CallCounts,
    pub(crate) happenings: Happenings,
}

impl Model for CallBook {
    ghost use Rattle.dt_service_model.specs.CallBook as book;

    ghost Value = { book.CallBook };

    ghost view = { λ h. record { most = h.most; closed = h.closed; ports = h.ports; life = h.life; count = h.count; calls = h.calls; tokens = h.tokens; begun = h.begun.items; unread = h.unread; counts = h.counts; happenings = h.happenings } };
}

const NO_COUNTS: CallCounts = CallCounts {
    late: 0,
    old: 0,
    strange: 0,
    reused: 0,
    cut: 0,
    long: 0,
    short: 0,
};

impl CallBook {
    /// The book of a node that opens with this life.
    pub fn new(alloc: Global, most: Most, life: u32) -> Result<CallBook, NoMemory>
        ensures { IfOk result (λ book. book ≡ new_book most life) }
    {
        Ok(CallBook {
            most,
            closed: false,
            ports: Ports::new(alloc),
            life,
            count: 0,
            calls: OpenCalls::new(alloc),
            tokens: Tokens::new(alloc)?,
            begun: Vec::new(alloc),
            unread: Flows::new(alloc)?,
            counts: NO_COUNTS,
            happenings: Happenings::new(alloc),
        })
    }
}
