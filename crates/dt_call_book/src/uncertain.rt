//! Replies that are uncertain.
ghost use Rattle.std.specs.Prelude.{◌≡◌, OnErr, OnOk};
ghost use Rattle.dt_service_model.specs.Hearing.{told_given_up};

use crate::happenings::Happenings;
use crate::ports::{Ports, is_service};
use dt_items::NoMemory;
use dt_messages::reversed;
use dt_service_model::Happening;
use dt_units::Flow;

/// Octets of a flow were given up. Where they went from a service, the flow of their requests is reported,
/// unless it was and waits to be taken. `NoMemory` leaves all as it was. The cost is that of
/// [`Happenings::tells_uncertain`].
pub fn tell_given_up(
    back: &Flow,
    ports: &Ports,
    happenings: &mut Happenings,
) -> Result<(), NoMemory>
    ensures told { OnOk result (happenings.new ≡ told_given_up back.now ports.now happenings.old) }
    ensures same { OnErr result (happenings.new ≡ happenings.old) }
{
    if !is_service(ports.kind(back.from_port)) {
        return Ok(());
    }
    let flow = reversed(*back);
    if !happenings.tells_uncertain(&flow) {
        happenings.push(Happening::ReplyUncertain { flow })?;
    }
    Ok(())
}
