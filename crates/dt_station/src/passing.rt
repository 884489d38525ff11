//! Frames that go out on a link: those that came for other nodes, and those that the host made.
ghost use Rattle.std.specs.Prelude.{◌≡◌, Some};
ghost use Rattle.dt_layout.specs.Carried.{IsGram};
ghost use Rattle.dt_world_model.specs.Relay.{with_outs};
ghost use Rattle.dt_world_model.specs.Script.{Concludes};
ghost use Rattle.dt_world_model.specs.Station.{flush_entered, pass_on, send_off, station_with};

use crate::flushing::flush_link;
use crate::visitor::Visitor;
use dt_host::Host;
use dt_items::NoMemory;
use dt_layout::Frame;
use dt_relay::{Carry, Entered, Passage, Reading, Relay};
use dt_reports::Report;

/// A packet whose octets are in the frame is passed on: it goes straight on from there, or enters the
/// relay and its link is flushed. One that can't be passed on is reported.
pub(crate) fn pass_on<P: Carry, V: Visitor<P>>(
    relay: &mut Relay<P>,
    frame: &mut Frame,
    tag: P::Tag,
    now: Reading,
    visitor: &mut V,
) -> Result<(), NoMemory>
    requires gram { IsGram frame.old }
    ensures ends { Concludes V.tells (V.tags now.ms) V.hands V.fails result (pass_on (record { octets = frame.old; tag = tag }) now.ms relay.old) visitor.old visitor.new relay.new }
    ensures others { relay.new ≡ with_outs relay.old relay.new.outs }
{
    let life = Carry::life(frame);
    match relay.pass(Carry::to(frame), life, now) {
        Passage::Leaves { link } => {
            frame.lower(1);
            visitor.tell(&Report::Put {
                link,
                life: life - 1,
            });
            visitor.out_at_once(link, frame, tag)
        }
        Passage::Expired { link } => {
            visitor.tell(&Report::ExpiredOut { link });
            Ok(())
        }
        Passage::Waits { .. } => wait(relay, frame, tag, now, visitor),
        Passage::NoRoute { to } => {
            visitor.tell(&Report::NoRoute { to });
            Ok(())
        }
        Passage::Full { link } => {
            visitor.tell(&Report::Full { link });
            Ok(())
        }
    }
}

/// A packet is made of the frame, and enters the relay, which may find no memory for it. It stands apart, so
/// that only where a packet has to wait it is among the locals.
#[inline(never)]
fn wait<P: Carry, V: Visitor<P>>(
    relay: &mut Relay<P>,
    frame: &Frame,
    tag: P::Tag,
    now: Reading,
    visitor: &mut V,
) -> Result<(), NoMemory>
    requires gram { IsGram frame.now }
    ensures ends { Concludes V.tells (V.tags now.ms) V.hands V.fails result (pass_on (record { octets = frame.now; tag = tag }) now.ms relay.old) visitor.old visitor.new relay.new }
    ensures others { relay.new ≡ with_outs relay.old relay.new.outs }
{
    let entered = relay.enter(P::make(frame, tag), now.ms)?;
    flush_entered(relay, entered, now, visitor)
}

/// The link is flushed that a packet has entered. One that hasn't entered is reported.
fn flush_entered<P: Carry, V: Visitor<P>>(
    relay: &mut Relay<P>,
    entered: Entered,
    now: Reading,
    visitor: &mut V,
) -> Result<(), NoMemory>
    ensures ends { Concludes V.tells (V.tags now.ms) V.hands V.fails result (flush_entered now.ms (entered, relay.old)) visitor.old visitor.new relay.new }
    ensures others { relay.new ≡ with_outs relay.old relay.new.outs }
{
    match entered {
        Entered::Queued { link } => flush_link(relay, link, now, visitor),
        Entered::NoRoute { to } => {
            visitor.tell(&Report::NoRoute { to });
            Ok(())
        }
        Entered::Full { link } => {
            visitor.tell(&Report::Full { link });
            Ok(())
        }
    }
}

/// A frame that the host made is tagged and passed on.
pub(crate) fn send_off<P: Carry, V: Visitor<P>>(
    host: &Host,
    relay: &mut Relay<P>,
    frame: &mut Frame,
    now: Reading,
    visitor: &mut V,
) -> Result<(), NoMemory>
    requires gram { IsGram frame.old }
    ensures ends { Concludes V.tells (V.tags now.ms) V.hands V.fails result (send_off now.ms host.now.state (Some frame.old) relay.old) visitor.old visitor.new (station_with host.now.state relay.new) }
    ensures others { relay.new ≡ with_outs relay.old relay.new.outs }
{
    let tag = visitor.tag(host, frame, now.ms);
    pass_on(relay, frame, tag, now, visitor)
}
