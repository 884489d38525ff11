//! The kinds of ports.
ghost use Rattle.std.specs.Prelude.{◌≡◌, ◌++◌, ◌∷◌, [], IfOk, None, OnErr, OnOk, is_some, not};
ghost use Rattle.dt_service_model.specs.Asked.{with_kind};
ghost use Rattle.dt_service_model.specs.CallBook.{is_service, kind_in};

use crate::call_book::CallBook;
use dt_items::NoMemory;
use dt_service_model::PortKind;
use indexmap::IndexMap;
use std::alloc::Global;
use std::marker::Model;

/// The ports that have a kind, in the order in which they got it. A contract sees the list of them. The
/// kind of a port is found at a cost that doesn't grow with their number.
#[derive(Drop)]
pub struct Ports {
    kinds: IndexMap<u16, PortKind>,
}

impl Model for Ports {
    ghost use Rattle.std.specs.Prelude.{List};
    ghost use Rattle.dt_service_model.specs.declared.ports.Port.{Port};
    ghost use Rattle.dt_call_book.specs.Ports.{ports_of};

    ghost Value = { List Port };

    ghost view = { λ p. ports_of p.kinds.entries };
}

impl Ports {
    /// No port has a kind.
    pub fn new(alloc: Global) -> Ports
        ensures { result ≡ [] }
    {
        Ports {
            kinds: IndexMap::new(alloc),
        }
    }

    /// The kind of a port, if it has one.
    pub fn kind(&self, port: u16) -> Option<PortKind>
        ensures { result ≡ kind_in port self.now }
    {
        self.kinds.get(&port).copied()
    }

    /// A port that has no kind gets one. `NoMemory` leaves all as it was.
    pub fn give(&mut self, port: u16, kind: PortKind) -> Result<(), NoMemory>
        requires { kind_in port self.old ≡ None }
        ensures given { OnOk result (self.new ≡ self.old ++ (record { port = port; kind = kind }) ∷ []) }
        ensures same { OnErr result (self.new ≡ self.old) }
    {
        self.kinds.insert(port, kind)?;
        Ok(())
    }
}

pub fn is_service(kind: Option<PortKind>) -> bool
    ensures { result ≡ is_service kind }
{
    match kind {
        Some(PortKind::Service) => true,
        Some(PortKind::Caller) | None => false,
    }
}

impl CallBook {
    /// A port gets its kind, and whether it had none so far: it has its kind for good. `NoMemory` leaves
    /// all as it was.
    pub fn set_kind(&mut self, port: u16, kind: PortKind) -> Result<bool, NoMemory>
        ensures given { OnOk result (self.new ≡ with_kind port kind self.old) }
        ensures answer { IfOk result (λ given. given ≡ not (is_some (kind_in port self.old.ports))) }
        ensures same { OnErr result (self.new ≡ self.old) }
    {
        if self.kind(port).is_some() {
            return Ok(false);
        }
        self.ports.give(port, kind)?;
        Ok(true)
    }

    /// The kind of a port, or none where it is plain.
    pub fn kind(&self, port: u16) -> Option<PortKind>
        ensures { result ≡ kind_in port self.now.ports }
    {
        self.ports.kind(port)
    }
}
