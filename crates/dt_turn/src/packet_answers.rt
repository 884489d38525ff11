//! What a station answers to a packet, heard by a visitor between it and another.
ghost use Rattle.std.specs.Prelude.{◌≡◌, IfOk, OnErr, OnOk, true};
ghost use Rattle.dt_layout.specs.Carried.{IsGram};
ghost use Rattle.dt_reports.specs.Matters.{matter_seen};
ghost use Rattle.dt_reports.specs.Told.{told};
ghost use Rattle.dt_world_model.specs.Script.{Concludes};
ghost use Rattle.dt_world_model.specs.Station.{Arrive, station_event};
ghost use Rattle.dt_turn.specs.declared.packet_answers.PacketAnswer.TheVariants as heard;
ghost use Rattle.dt_turn.specs.Codes.{GoesOn, MayGo};
ghost use Rattle.dt_turn.specs.Hearing.{heard_in, hears, hears_by};
ghost use Rattle.dt_turn.specs.Shelving.{plain};

use crate::incoming::Incoming;
use dt_flow_model::Reading;
use dt_host::Host;
use dt_items::NoMemory;
use dt_layout::Frame;
use dt_reports::{Matter, Report};
use dt_station::{Station, Visitor};
use dt_units::Flow;

/// What a station answered to a packet, as far as it concerns a shelf.
#[derive(Clone, Copy)]
pub enum PacketAnswer {
    /// Nothing that concerns it.
    Nothing,
    /// Its data were accepted, and `next` is the sequence number after them.
    Accepted { flow: Flow, next: u32 },
    /// It wasn't accepted: it was replied to with this number, or dropped.
    Refused { flow: Flow, replied: Option<u32> },
}

/// Hands on to a visitor all that it sees, and keeps what it hears.
#[derive(Drop)]
pub struct Listener<'v, V> {
    pub visitor: &'v mut V,
    pub heard: PacketAnswer,
}

impl<'v, V: Visitor<Frame>> Visitor<Frame> for Listener<'v, V> {
    ghost use Rattle.dt_turn.specs.Hearing.{listens_fails, listens_hands, listens_tags, listens_tells};

    ghost tells = { λ s r t. listens_tells V.tells s r t };

    ghost tags = { λ now s host octets tag t. listens_tags (V.tags now) s host octets tag t };

    ghost hands = { λ s link parcel t. listens_hands V.hands s link parcel t };

    ghost fails = { λ s t. listens_fails V.fails s t };

    fn tag(&mut self, host: &Host, frame: &Frame, now: u64) {
        self.visitor.tag(host, frame, now)
    }

    fn tell(&mut self, report: &Report<'_>) {
        self.visitor.tell(report);
        self.heard = heard_after(report, self.heard);
    }

    fn out(&mut self, link: u16, packet: Frame) -> Result<(), NoMemory> {
        self.visitor.out(link, packet)
    }

    fn out_at_once(&mut self, link: u16, frame: &Frame, tag: ()) -> Result<(), NoMemory> {
        self.visitor.out_at_once(link, frame, tag)
    }
}

/// What is heard after a report.
fn heard_after(report: &Report<'_>, before: PacketAnswer) -> PacketAnswer
    ensures { result ≡ hears (told report.now) before }
{
    heard_by(report.matter(), before)
}

/// What is heard after this was said.
fn heard_by(matter: Matter<'_>, before: PacketAnswer) -> PacketAnswer
    ensures { result ≡ hears_by (matter_seen matter.entry) before }
{
    match matter {
        Matter::Accepted {
            flow,
            number,
            count,
            ..
        } => PacketAnswer::Accepted {
            flow,
            next: number.wrapping_add(count),
        },
        Matter::Replied { flow, number } => PacketAnswer::Refused {
            flow,
            replied: Some(number),
        },
        Matter::Dropped { flow } => PacketAnswer::Refused {
            flow,
            replied: None,
        },
        Matter::Taken { .. }
        | Matter::Refused { .. }
        | Matter::Transmitted { .. }
        | Matter::Retransmitted { .. }
        | Matter::GivenUp { .. }
        | Matter::Acknowledged { .. }
        | Matter::ReadOut { .. }
        | Matter::NothingRead { .. }
        | Matter::Left { .. }
        | Matter::Begun { .. }
        | Matter::Neither => before,
    }
}

/// A packet that came on a link arrives at a station, before a listener. The frame must read as a
/// Deltagram, and is the station's to change.
fn listen<V: Visitor<Frame>>(
    station: &mut Station<Frame>,
    now: u64,
    link: u16,
    frame: &mut Frame,
    listener: &mut Listener<'_, V>,
) -> Result<(), NoMemory>
    requires gram { IsGram frame.old }
    requires go { MayGo now station.old }
    ensures ends { let script = station_event station.old.rules now (Arrive link (plain frame.old)) station.old.state in
        Concludes V.tells (V.tags now) V.hands V.fails result script listener.old.visitor.now listener.new.visitor.now station.new.state }
    ensures heard { let script = station_event station.old.rules now (Arrive link (plain frame.old)) station.old.state in
        OnOk result (listener.new.heard ≡ heard_in script listener.old.heard) }
    ensures same { listener.new.visitor.ghost_name ≡ listener.old.visitor.ghost_name }
    ensures on { OnOk result (GoesOn now 0 station.old station.new) }
    ensures memory { OnErr result (station.new.spent ≡ true) }
{
    let now = Reading { ms: now };
    station.arrive(now, link, frame, (), listener)
}

/// A datagram is copied into this frame and arrives at a station. It answers what the station reported,
/// as far as that concerns a shelf.
pub fn hear_arrival<V: Visitor<Frame>>(
    station: &mut Station<Frame>,
    frame: &mut Frame,
    incoming: Incoming<'_>,
    now: u64,
    visitor: &mut V,
) -> Result<PacketAnswer, NoMemory>
    requires go { MayGo now station.old }
    ensures ends { let script = station_event station.old.rules now (Arrive incoming.entry.link (plain incoming.entry.gram.octets.now)) station.old.state in
        Concludes V.tells (V.tags now) V.hands V.fails result script visitor.old visitor.new station.new.state }
    ensures heard { let script = station_event station.old.rules now (Arrive incoming.entry.link (plain incoming.entry.gram.octets.now)) station.old.state in
        IfOk result (λ answer. answer ≡ heard_in script heard.Nothing) }
    ensures on { OnOk result (GoesOn now 0 station.old station.new) }
    ensures memory { OnErr result (station.new.spent ≡ true) }
{
    let mut listener = Listener {
        visitor,
        heard: PacketAnswer::Nothing,
    };
    incoming.gram.copy_into(frame);
    listen(station, now, incoming.link, frame, &mut listener)?;
    Ok(listener.heard)
}
