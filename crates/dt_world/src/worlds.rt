//! The world and its step.
ghost use Rattle.std.specs.Prelude.{◌≡◌, ◌==◌, IfOk, false, length};
ghost use Rattle.dt_world_model.specs.Setup.{new_world};
ghost use Rattle.dt_world_model.specs.Tables.{has_key};
ghost use Rattle.dt_world_model.specs.World.{placed};
ghost use Rattle.dt_world_model.specs.WorldFacts.{SafeLedgers, SafeWorld, WorldFacts};
ghost use Rattle.dt_world.specs.Outcomes.{Answers};
ghost use Rattle.dt_notes.specs.Events.{MayStep, event_of};

use crate::refusals::{has_station, refusal};
use crate::starts::first_parts;
use crate::steps::apply_event;
use crate::world_parts::WorldParts;
use dt_items::NoMemory;
use dt_layout::Frame;
use dt_ledger::Ledger;
use dt_notes::{Event, Lines, Setup};
use dt_reports::StepFault;
use dt_units::NodeId;
use dt_units::limits::MOST_OCTETS;
use std::alloc::Global;
use std::marker::Model;
use std::mem::size_of;

/// Stations and links, the copies of packets on the links, and what became of each octet.
#[derive(Drop)]
pub struct World {
    parts: Box<WorldParts>,
    /// Into which octets are read, 65,536 of them.
    buf: Vec<u8>,
    /// In which a copy that comes is read.
    frame: Box<Frame>,
    spent: bool,
}

// It is moved when it begins.
const _: () = prove!(size_of::<World>() <= 512);

impl Model for World {
    ghost use Rattle.dt_world.specs.Worlds.{WorldValue};

    ghost Value = { WorldValue };

    ghost use Rattle.std.specs.Prelude.{◌≡◌, false, length};
    ghost use Rattle.dt_world_model.specs.WorldFacts.{SafeLedgers};
    ghost use Rattle.dt_notes.specs.Events.{most_read};
    ghost use Rattle.dt_world.specs.Worlds.{IsWhole, world_seen};

    ghost view = { λ w. record { state = world_seen w.parts.value; spent = w.spent } };

    ghost invariant = { λ w. (length w.buf.items ≡ most_read) × (w.spent ≡ false → IsWhole w.parts.value) × SafeLedgers (world_seen w.parts.value) (world_seen w.parts.value).ledgers };
}

impl World {
    /// The world of a setup: all its stations start for the first time, the moment is 0, and nothing is
    /// on a link. `NoMemory` where there is none. The cost is that of all links and routes for each
    /// station.
    pub fn new(alloc: Global, setup: &Setup) -> Result<World, NoMemory>
        ensures made { IfOk result (λ world. world ≡ record { state = new_world setup.now; spent = false }) }
        ensures safe { IfOk result (λ world. SafeWorld world.state) }
        ensures facts { IfOk result (λ world. WorldFacts world.state) }
    {
        let parts = first_parts(alloc, setup)?;
        let mut buf = Vec::new(alloc);
        buf.resize(MOST_OCTETS as usize, 0)?;
        let frame = Box::new(alloc, Frame::new())?;
        Ok(World {
            parts,
            buf,
            frame,
            spent: false,
        })
    }

    /// Whether the station is there.
    pub fn has_station(&self, station: NodeId) -> bool
        ensures { result ≡ has_key ◌==◌ station.0 self.now.state.stations }
    {
        has_station(&self.parts, station.0)
    }

    /// How often the station started again, 0 to 2^32 - 1. One that isn't there never did.
    pub fn life(&self, station: NodeId) -> u32
        ensures { result ≡ (placed self.now.state station.0).life }
    {
        match self.parts.stations.get(&station.0) {
            Some(placed) => placed.life,
            None => 0,
        }
    }

    /// An event happens to the world, which isn't spent, and its lines are reported in order. Octets of a
    /// send are 1 at least, `max` is 1 to 65,536.
    ///
    /// Refused, in this order, and then nothing is reported or changed: `BadFlow`, a send or read whose flow
    /// begins where it ends; `NoStation`, the event's station isn't there; `NoCopy`, no copy has that
    /// number; `Lost`, that copy was lost before; `TooLate`, an arrival after more milliseconds on the
    /// link than its charge. `NoMemory` comes for want of memory, and always where a count would pass its
    /// end: 2^62 octets of a flow, 2^32 lives of a station, 2^61 ms. Time that passes and a copy that is
    /// lost take no memory, so they answer it exactly there, and never. Then the first of the lines were
    /// reported, and the world is spent; its ledger stays safe.
    ///
    /// The cost is that of the lines and their octets, and of the station's event: for each act of its host
    /// 4 looks at a record at most, and one at each sender that holds a segment whose resend was missed.
    pub fn step<L: Lines>(&mut self, event: &Event<'_>, lines: &mut L) -> Result<(), StepFault>
        requires unspent { self.old.spent ≡ false }
        requires may { MayStep (event_of event.now) }
        ensures { Answers L.tells result self.old (event_of event.now) lines.old lines.new self.new }
    {
        if let Some(fault) = refusal(&self.parts, event) {
            return Err(fault);
        }
        match apply_event(
            &mut self.parts,
            event,
            &mut self.buf,
            &mut self.frame,
            lines,
        ) {
            Ok(()) => Ok(()),
            Err(NoMemory) => {
                self.spent = true;
                Err(StepFault::NoMemory)
            }
        }
    }

    /// What became of each octet of each flow, in the order of the flows' first octets.
    pub fn ledger(&self) -> &Ledger
        ensures rows { result.now ≡ self.now.state.ledgers.rows }
        // The ledger of each flow is safe, also of a spent world; the whole flow where it isn't spent.
        ensures safe_ledgers { SafeLedgers self.now.state self.now.state.ledgers }
        ensures safe { self.now.spent ≡ false → SafeWorld self.now.state }
    {
        &self.parts.notes.ledger
    }

    /// The moment, in ms: 0 to 2^61.
    pub fn now(&self) -> u64
        ensures { result ≡ self.now.state.now }
    {
        self.parts.now
    }

    /// How many copies were put on links.
    pub fn copies(&self) -> u64
        ensures { result ≡ length self.now.state.copies }
    {
        self.parts.notes.copies.len()
    }

    /// Whether a step found no memory. Then the world is used no more.
    pub fn is_spent(&self) -> bool
        ensures { result ≡ self.now.spent }
    {
        self.spent
    }
}
