//! One read of an endpoint.
ghost use Rattle.std.specs.Prelude.{◌≡◌, ◌≤◌, IfOk, OnErr, OnOk, length};
ghost use Rattle.dt_world_model.specs.Station.{Read};
ghost use Rattle.dt_endpoint.specs.Endpoints.{after_event};
ghost use Rattle.dt_service_model.specs.Turns.{most_read, piece_at};
ghost use Rattle.dt_service.specs.Nodes.{IsCutOff, len_found, piece_found};

use dt_endpoint::{Delivered, Endpoint};
use dt_items::NoMemory;
use dt_messages::Marks;
use dt_units::Flow;

/// So many octets are read at once, at most.
pub const ROOM: usize = 65_536;

/// A piece that was read: `len` octets at the head of the buffer.
#[derive(Clone, Copy)]
pub struct FoundPiece {
    pub marks: Marks,
    pub len: usize,
}

/// Reads a flow once, and answers what was found at the head of the buffer.
pub fn read_piece(
    endpoint: &mut Endpoint,
    now: u64,
    flow: Flow,
    buf: &mut [u8],
) -> Result<Option<FoundPiece>, NoMemory>
    requires { length buf.old ≡ most_read }
    ensures found { IfOk result (λ found. piece_found found buf.new ≡ piece_at now flow endpoint.old) }
    ensures within { IfOk result (λ found. len_found found ≤ most_read) }
    ensures after { OnOk result (endpoint.new ≡ after_event now (Read flow most_read) endpoint.old) }
    ensures cut { OnErr result (IsCutOff now (Read flow most_read) endpoint.old endpoint.new) }
{
    match endpoint.read(now, flow, buf) {
        Delivered::Read {
            len,
            run,
            begin,
            end,
        } => Ok(Some(FoundPiece {
            marks: Marks { run, begin, end },
            len,
        })),
        Delivered::Nothing => Ok(None),
        Delivered::NoMemory | Delivered::Spent | Delivered::BadFlow | Delivered::NoRoom => Err(
            NoMemory,
        ),
    }
}
