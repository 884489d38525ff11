//! Packets that leave on a link, until none may.
ghost use Rattle.std.specs.Prelude.{◌≡◌, ◌<◌, None, length, map};
ghost use Rattle.dt_relay.specs.Places.{link_in, link_of};
ghost use Rattle.dt_world_model.specs.Relay.{leave, on_link, with_outs};
ghost use Rattle.dt_world_model.specs.Script.{Concludes};
ghost use Rattle.dt_world_model.specs.Station.{flush_at, flush_links};
ghost use Rattle.dt_station.specs.Leaving.{let_out};

use crate::visitor::Visitor;
use dt_items::NoMemory;
use dt_relay::{Carry, Left, Reading, Relay};
use dt_reports::Report;

/// Lets the first that may leave on the out link at a place leave: it is reported, and handed out after its
/// report. It stands apart, so that only where something leaves a packet is among the locals.
#[inline(never)]
fn let_out<P: Carry, V: Visitor<P>>(
    relay: &mut Relay<P>,
    place: usize,
    now: Reading,
    visitor: &mut V,
) -> Result<(), NoMemory>
    requires place { place < length relay.old.outs }
    ensures ends { let link = link_in relay.old.outs place in
        Concludes V.tells (V.tags now.ms) V.hands V.fails result (let_out link (on_link link None (leave now.ms) relay.old.outs)) visitor.old visitor.new relay.new.outs }
    ensures after { let link = link_in relay.old.outs place in
        relay.new ≡ with_outs relay.old (on_link link None (leave now.ms) relay.old.outs).1 }
{
    let link = relay.link_at(place);
    match relay.leave_at(place, now) {
        None => Ok(()),
        Some(Left::Expired) => {
            visitor.tell(&Report::ExpiredOut { link });
            Ok(())
        }
        Some(Left::Out(packet)) => {
            visitor.tell(&Report::Put {
                link,
                life: packet.life(),
            });
            visitor.out(link, packet)
        }
    }
}

/// Lets packets leave on the out link at a place until none does. Each is reported, and handed out after its
/// report.
pub(crate) fn flush<P: Carry, V: Visitor<P>>(
    relay: &mut Relay<P>,
    place: usize,
    now: Reading,
    visitor: &mut V,
) -> Result<(), NoMemory>
    requires place { place < length relay.old.outs }
    ensures ends { Concludes V.tells (V.tags now.ms) V.hands V.fails result (flush_at (link_in relay.old.outs place) now.ms relay.old.outs) visitor.old visitor.new relay.new.outs }
    ensures links { map link_of relay.new.outs ≡ map link_of relay.old.outs }
    ensures others { relay.new ≡ with_outs relay.old relay.new.outs }
{
    'flush: while relay.is_ready(place, now.ms) {
        let_out(relay, place, now, visitor)?;
    }
    Ok(())
}

/// The same for the out link with a number. For a link that isn't there nothing leaves.
pub(crate) fn flush_link<P: Carry, V: Visitor<P>>(
    relay: &mut Relay<P>,
    link: u16,
    now: Reading,
    visitor: &mut V,
) -> Result<(), NoMemory>
    ensures ends { Concludes V.tells (V.tags now.ms) V.hands V.fails result (flush_at link now.ms relay.old.outs) visitor.old visitor.new relay.new.outs }
    ensures others { relay.new ≡ with_outs relay.old relay.new.outs }
{
    match relay.place(link) {
        None => Ok(()),
        Some(place) => flush(relay, place, now, visitor),
    }
}

/// Flushes each out link, in their order.
pub(crate) fn flush_all<P: Carry, V: Visitor<P>>(
    relay: &mut Relay<P>,
    now: Reading,
    visitor: &mut V,
) -> Result<(), NoMemory>
    ensures ends { Concludes V.tells (V.tags now.ms) V.hands V.fails result (flush_links now.ms (map link_of relay.old.outs) relay.old.outs) visitor.old visitor.new relay.new.outs }
    ensures others { relay.new ≡ with_outs relay.old relay.new.outs }
{
    for place in 0..relay.links() {
        flush(relay, place, now, visitor)?;
    }
    Ok(())
}
