//! Packets that arrive, and the shelf for those that came too early.
ghost use Rattle.std.specs.Prelude.{◌≡◌, ◌<◌, IfOk, IfSome, None, OnErr, OnOk, length, suc, true};
ghost use Rattle.dt_layout.specs.Carried.{IsGram};
ghost use Rattle.dt_world_model.specs.Script.{Concludes, Plays};
ghost use Rattle.dt_world_model.specs.Station.{Arrive, station_event};
ghost use Rattle.dt_turn.specs.Codes.{GoesOn, IsTaken, MayGo, again_seen, handed_seen, incoming_seen, next_seen};
ghost use Rattle.dt_turn.specs.Shelving.{arrive, data_number, early_number, fetch, first_round, hold_if, inside, is_early, plain, round, round_with, rounds};

use crate::handed_in::HandedIn;
use crate::incoming::Incoming;
use crate::nodes::StationIo;
use crate::packet_answers::{PacketAnswer, hear_arrival};
use dt_flow_model::Reading;
use dt_items::NoMemory;
use dt_layout::{Frame, GramOctets, Packet, read_packet};
use dt_reports::Report;
use dt_shelf::{EarlyPacket, Handed, Shelf};
use dt_station::Visitor;
use dt_units::numbers::relation;
use dt_units::{Flow, Relation};

/// The flow of a packet that wasn't accepted, and the number of its data, if they came too early.
#[derive(Clone, Copy)]
pub struct Early {
    pub flow: Flow,
    pub number: Option<u32>,
}

/// The data that are wanted next: their flow, and the sequence number of the first octet.
#[derive(Clone, Copy)]
pub struct Wanted {
    pub flow: Flow,
    pub number: u32,
}

/// The sequence number of the data in a Deltagram, if it has data.
fn data_number(gram: GramOctets<'_>) -> Option<u32>
    ensures { result ≡ data_number gram.entry.octets.now }
{
    match read_packet(&gram.deltagram()) {
        Ok(Packet::Data { number, .. }) => Some(number),
        Ok(Packet::Ack { .. } | Packet::Meet { .. } | Packet::Close { .. }) | Err(_) => None,
    }
}

/// Whether data with this number came too early, where they were replied to so, or dropped.
fn is_early(replied: Option<u32>, number: u32) -> bool
    ensures { result ≡ is_early replied number }
{
    match replied {
        None => true,
        Some(replied) => relation(number, replied) == Relation::Above,
    }
}

/// The sequence number of the data in a Deltagram, if it has data and they came too early.
fn early_number(replied: Option<u32>, gram: GramOctets<'_>) -> Option<u32>
    ensures { result ≡ early_number replied gram.entry.octets.now }
{
    match data_number(gram) {
        Some(number) if is_early(replied, number) => Some(number),
        _ => None,
    }
}

/// Holds a packet that came too early, and says whether there was room.
fn hold_if<V: Visitor<Frame>>(
    shelf: &mut Shelf,
    incoming: Incoming<'_>,
    early: Early,
    now: u64,
    visitor: &mut V,
)
    ensures plays { Plays V.tells (V.tags now) V.hands (hold_if now (incoming_seen incoming.entry) early.flow early.number shelf.old) visitor.old visitor.new shelf.new }
{
    let flow = early.flow;
    let Some(number) = early.number else {
        return;
    };
    let packet = EarlyPacket {
        link: incoming.link,
        flow,
        number,
        gram: incoming.gram,
    };
    if shelf.hold_early(packet, now) {
        visitor.tell(&Report::Shelved { flow, number });
    } else {
        visitor.tell(&Report::NoShelf { flow, number });
    }
}

/// Takes from the shelf what is wanted, into the frame, and answers the link on which it came. What is
/// stale is passed over.
fn fetch<V: Visitor<Frame>>(
    shelf: &mut Shelf,
    wanted: Wanted,
    now: Reading,
    taken: &mut Frame,
    visitor: &mut V,
) -> Option<u16>
    ensures plays { Plays V.tells (V.tags now.ms) V.hands (fetch wanted.flow wanted.number now.ms shelf.old) visitor.old visitor.new (again_seen taken.new result, shelf.new) }
    ensures fewer { IfSome result (λ _. length shelf.new.held < length shelf.old.held) }
    ensures gram { IfSome result (λ _. IsGram taken.new) }
{
    let Wanted { flow, number } = wanted;
    'fetching: while let Some(handed) = shelf.take_into(&flow, number, now.ms, taken) {
        match handed {
            Handed::Stale => visitor.tell(&Report::Stale { flow, number }),
            Handed::Again { link } => {
                visitor.tell(&Report::Again { flow, number });
                return Some(link);
            }
        }
    }
    None
}

/// A packet arrives, and then the shelf is used: it is held where it came too early, and what waits
/// for it is taken where it was accepted. It answers the link of what is handed in next, which is what
/// was taken.
fn round<V: Visitor<Frame>>(
    io: &mut StationIo,
    shelf: &mut Shelf,
    handed: HandedIn<'_>,
    now: u64,
    visitor: &mut V,
) -> Result<Option<u16>, NoMemory>
    requires go { MayGo now io.old.station }
    requires taken { IsTaken io.old.taken.value handed }
    ensures ends { let script = round io.old.station.rules now (handed_seen io.old.taken.value handed.entry) io.old.station.state shelf.old in
        Concludes V.tells (V.tags now) V.hands V.fails result script visitor.old visitor.new (round_with io.new.station.state shelf.new (next_seen io.new.taken.value result)) }
    ensures on { OnOk result (GoesOn now 0 io.old.station io.new.station) }
    ensures memory { OnErr result (io.new.station.spent ≡ true) }
    ensures fewer { IfOk result (λ next. IfSome next (λ _. length shelf.new.held < length shelf.old.held)) }
    ensures taken { IfOk result (λ next. IfSome next (λ _. IsGram io.new.taken.value)) }
{
    let incoming = handed.incoming(&io.taken);
    match hear_arrival(&mut io.station, &mut io.frame, incoming, now, visitor)? {
        PacketAnswer::Nothing => Ok(None),
        PacketAnswer::Accepted { flow, next } => {
            let wanted = Wanted { flow, number: next };
            let now = Reading { ms: now };
            Ok(fetch(shelf, wanted, now, &mut io.taken, visitor))
        }
        PacketAnswer::Refused { flow, replied } => {
            let number = early_number(replied, incoming.gram);
            hold_if(shelf, incoming, Early { flow, number }, now, visitor);
            Ok(None)
        }
    }
}

/// A datagram arrives at a node that has a shelf: round after round, until nothing is handed in next.
fn arrive_shelved<V: Visitor<Frame>>(
    io: &mut StationIo,
    shelf: &mut Shelf,
    incoming: Incoming<'_>,
    now: u64,
    visitor: &mut V,
) -> Result<(), NoMemory>
    requires go { MayGo now io.old.station }
    ensures ends { let script = rounds (suc (length shelf.old.held)) io.old.station.rules now (first_round (incoming_seen incoming.entry) io.old.station.state shelf.old) in
        Concludes V.tells (V.tags now) V.hands V.fails result script visitor.old visitor.new (round_with io.new.station.state shelf.new None) }
    ensures on { OnOk result (GoesOn now 0 io.old.station io.new.station) }
    ensures memory { OnErr result (io.new.station.spent ≡ true) }
{
    let mut handed = HandedIn::Came(incoming);
    'rounds: while let Some(link) = round(io, shelf, handed, now, visitor)? {
        handed = HandedIn::Again { link };
    }
    Ok(())
}

/// A datagram arrives at a node without a shelf, where nobody needs to hear what is answered.
fn arrive_plain<V: Visitor<Frame>>(
    io: &mut StationIo,
    incoming: Incoming<'_>,
    now: u64,
    visitor: &mut V,
) -> Result<(), NoMemory>
    requires go { MayGo now io.old.station }
    ensures ends { let script = station_event io.old.station.rules now (Arrive incoming.entry.link (plain incoming.entry.gram.octets.now)) io.old.station.state in
        Concludes V.tells (V.tags now) V.hands V.fails result script visitor.old visitor.new io.new.station.state }
    ensures on { OnOk result (GoesOn now 0 io.old.station io.new.station) }
    ensures memory { OnErr result (io.new.station.spent ≡ true) }
{
    let now = Reading { ms: now };
    incoming.gram.copy_into(&mut *io.frame);
    io.station
        .arrive(now, incoming.link, &mut io.frame, (), visitor)
}

/// A datagram arrives at a node. Without a shelf that is one event of its station, and it is copied once,
/// into the io's frame.
pub fn arrive<V: Visitor<Frame>>(
    io: &mut StationIo,
    shelf: &mut Option<Shelf>,
    incoming: Incoming<'_>,
    now: u64,
    visitor: &mut V,
) -> Result<(), NoMemory>
    requires go { MayGo now io.old.station }
    ensures ends { let script = arrive io.old.station.rules now (incoming_seen incoming.entry) io.old.station.state shelf.old in
        Concludes V.tells (V.tags now) V.hands V.fails result script visitor.old visitor.new (inside io.new.station.state shelf.new) }
    ensures on { OnOk result (GoesOn now 0 io.old.station io.new.station) }
    ensures memory { OnErr result (io.new.station.spent ≡ true) }
{
    match shelf {
        Some(shelf) => arrive_shelved(io, shelf, incoming, now, visitor),
        None => arrive_plain(io, incoming, now, visitor),
    }
}
