//! A node between two turns.
ghost use Rattle.std.specs.Prelude.{◌≡◌, IfOk, option_map};
ghost use Rattle.dt_shelf.specs.Shelves.{empty_shelf};
ghost use Rattle.dt_script.specs.Codes.{orders_seen};
ghost use Rattle.dt_turn.specs.Codes.{IsReady, node_seen};
ghost use Rattle.dt_turn.specs.Nodes.{first_node, restart_of};

use dt_items::NoMemory;
use dt_layout::Frame;
use dt_script::Orders;
use dt_shelf::Shelf;
use dt_station::Station;
use dt_units::limits::MOST_OCTETS;
use std::alloc::Global;
use std::mem::size_of;

/// A station with its two frames: one for the packet that is handed to it, which the station may change, and one
/// for the packet that was taken off the shelf.
#[derive(Drop)]
pub struct StationIo {
    pub station: Station<Frame>,
    pub frame: Box<Frame>,
    /// The packet that was taken from the shelf last.
    pub taken: Box<Frame>,
}

/// A node between two turns.
#[derive(Drop)]
pub struct Node {
    pub io: StationIo,
    /// How many commands were done.
    pub next: usize,
    /// Room for what a read takes.
    pub buf: Vec<u8>,
    /// Where packets are kept that came too early, if its script asks for that.
    pub shelf: Option<Shelf>,
}

// It holds neither packets nor tables in place.
const _: () = prove!(size_of::<Node>() <= 512);

impl Node {
    /// The node before its first turn. Takes the room for what may wait on its links
    /// and on its shelf, and for a read.
    pub fn new(alloc: Global, orders: &Orders) -> Result<Node, NoMemory>
        ensures first { IfOk result (λ node. node_seen orders.now node ≡ first_node (orders_seen orders.now)) }
        ensures ready { IfOk result (λ node. IsReady orders.now 0 node) }
    {
        let setup = &orders.setup;
        let again = restart(setup.again);
        let mut buf = Vec::new(alloc);
        buf.resize(MOST_OCTETS as usize, 0)?;
        let shelf = new_shelf(alloc, setup.shelf)?;
        let station = Station::new(
            alloc,
            &setup.rules,
            setup.me,
            again,
            &setup.outs,
            &setup.ins,
            &setup.routes,
        )?;
        let frame = Box::new(alloc, Frame::new())?;
        let taken = Box::new(alloc, Frame::new())?;
        Ok(Node {
            io: StationIo {
                station,
                frame,
                taken,
            },
            next: 0,
            buf,
            shelf,
        })
    }
}

/// The moment at which a node that begins again is restarted.
fn restart(again: bool) -> Option<u64>
    ensures { result ≡ restart_of again }
{
    if again { Some(0) } else { None }
}

/// An empty shelf, where one is asked for.
fn new_shelf(alloc: Global, room: Option<u32>) -> Result<Option<Shelf>, NoMemory>
    ensures empty { IfOk result (λ shelf. shelf ≡ option_map empty_shelf room) }
{
    match room {
        Some(room) => Ok(Some(Shelf::with_room(alloc, room)?)),
        None => Ok(None),
    }
}
