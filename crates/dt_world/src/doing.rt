//! What happens to the parts of a world in an event that isn't refused.
ghost use Rattle.std.specs.Prelude.{◌≡◌, ◌==◌, ◌≢◌, ◌+◌, ◌<◌, ◌≤◌, OnErr, OnOk, [], length, None};
ghost use Rattle.dt_units.specs.Flows.{IsFlow};
ghost use Rattle.dt_layout.specs.declared.limits.TheConstants.{MOST_DATA};
ghost use Rattle.dt_layout.specs.Carried.{IsGram};
ghost use Rattle.dt_layout.specs.Reading.{gram_in};
ghost use Rattle.dt_layout.specs.Spelling.{Carries};
ghost use Rattle.dt_flow_model.specs.Frames.{value_in};
ghost use Rattle.dt_flow_model.specs.Keeping.{octets_below};
ghost use Rattle.dt_world_model.specs.Ledgers.{ledger_of};
ghost use Rattle.dt_world_model.specs.Station.{Read, Send, Tick};
ghost use Rattle.dt_world_model.specs.Tables.{AllEntries, look};
ghost use Rattle.dt_world_model.specs.WorldStep.{Arrives, Loses, Restarts, after_event, at_station, first_refusal, loss, refusals};
ghost use Rattle.dt_notes.specs.Copies.{copy_in};
ghost use Rattle.dt_notes.specs.Moments.{most_now};
ghost use Rattle.dt_world.specs.Outcomes.{Happens, HasHappened};
ghost use Rattle.dt_world.specs.Steps.{BringsPacket};
ghost use Rattle.dt_world.specs.Stopping.{ComesAt, ComesTo, IsLastLife};
ghost use Rattle.dt_world.specs.Worlds.{IsStationOf, IsWhole, world_seen};

use crate::placed_events::PlacedEvent;
use crate::placed_stations::start_again;
use crate::refusals::link_of;
use crate::world_parts::{WorldParts, event_at};
use dt_items::{MarkedOctets, NoMemory};
use dt_layout::{Frame, GramOctets, Packet, read_packet};
use dt_notes::{Brought, Copies, Lines, Mark, Moment};
use dt_reports::{LogLine, Report};
use dt_units::Flow;

/// Octets are sent at the station where their flow begins.
pub fn send<L: Lines>(
    parts: &mut WorldParts,
    flow: Flow,
    sent: MarkedOctets<'_>,
    lines: &mut L,
) -> Result<(), NoMemory>
    requires whole { IsWhole parts.old }
    requires apart { flow.from.0 ≢ flow.to.0 }
    requires some { 1 ≤ length sent.octets.now }
    requires counted { length (ledger_of (world_seen parts.old).ledgers flow).taken + length sent.octets.now < octets_below }
    ensures happens { let w = world_seen parts.old in let event = Send flow sent.entry.octets.now sent.entry.begin sent.entry.end in
        Happens L.tells result w (ComesAt w flow.from.0 event) (at_station w flow.from.0 event) lines.old lines.new (world_seen parts.new) }
    ensures stations { OnOk result (AllEntries (IsStationOf parts.old.rules parts.old.now) parts.new.stations.entries) }
    ensures rules { parts.new.rules ≡ parts.old.rules }
    ensures now { parts.new.now ≡ parts.old.now }
    ensures links { parts.new.links ≡ parts.old.links }
{
    let mut event = PlacedEvent::Send {
        flow,
        octets: sent.octets,
        begin: sent.begin,
        end: sent.end,
    };
    let brought = Brought {
        octets: sent,
        place: 0,
    };
    event_at(parts, flow.from.0, &mut event, brought, lines)
}

/// Unread octets are read at the station where their flow ends, at most as many as the buffer holds.
pub fn read<L: Lines>(
    parts: &mut WorldParts,
    flow: Flow,
    buf: &mut [u8],
    lines: &mut L,
) -> Result<(), NoMemory>
    requires whole { IsWhole parts.old }
    requires some { 0 < length buf.old }
    ensures happens { let w = world_seen parts.old in
        Happens L.tells result w (ComesAt w flow.to.0 (Read flow (length buf.old))) (at_station w flow.to.0 (Read flow (length buf.old))) lines.old lines.new (world_seen parts.new) }
    ensures flow { IsFlow flow }
    ensures stations { OnOk result (AllEntries (IsStationOf parts.old.rules parts.old.now) parts.new.stations.entries) }
    ensures rules { parts.new.rules ≡ parts.old.rules }
    ensures now { parts.new.now ≡ parts.old.now }
    ensures links { parts.new.links ≡ parts.old.links }
{
    let mut event = PlacedEvent::Read { flow, buf };
    event_at(parts, flow.to.0, &mut event, no_octets(0), lines)
}

/// The station does what is due.
pub fn tick<L: Lines>(parts: &mut WorldParts, node: u32, lines: &mut L) -> Result<(), NoMemory>
    requires whole { IsWhole parts.old }
    ensures happens { let w = world_seen parts.old in
        Happens L.tells result w (ComesAt w node Tick) (at_station w node Tick) lines.old lines.new (world_seen parts.new) }
    ensures stations { OnOk result (AllEntries (IsStationOf parts.old.rules parts.old.now) parts.new.stations.entries) }
    ensures rules { parts.new.rules ≡ parts.old.rules }
    ensures now { parts.new.now ≡ parts.old.now }
    ensures links { parts.new.links ≡ parts.old.links }
{
    event_at(parts, node, &mut PlacedEvent::Tick, no_octets(0), lines)
}

/// A copy comes to the station at its link's end.
pub fn arrive<L: Lines>(
    parts: &mut WorldParts,
    copy: u32,
    buf: &mut [u8],
    frame: &mut Frame,
    lines: &mut L,
) -> Result<(), NoMemory>
    requires whole { IsWhole parts.old }
    requires begun { first_refusal (refusals (world_seen parts.old) (Arrives copy)) ≡ None }
    requires room { MOST_DATA ≤ length buf.old }
    ensures happens { let w = world_seen parts.old in
        Happens L.tells result w (ComesTo w (Arrives copy)) (after_event w (Arrives copy)) lines.old lines.new (world_seen parts.new) }
    ensures stations { OnOk result (AllEntries (IsStationOf parts.old.rules parts.old.now) parts.new.stations.entries) }
    ensures rules { parts.new.rules ≡ parts.old.rules }
    ensures now { parts.new.now ≡ parts.old.now }
    ensures links { parts.new.links ≡ parts.old.links }
{
    let (link, mark) = take_copy(&parts.notes.copies, copy, frame);
    let to = link_of(parts, link).to;
    let brought = brought_by(frame.as_gram(), mark.place(), buf);
    let mut event = PlacedEvent::Arrive { link, frame, mark };
    event_at(parts, to, &mut event, brought, lines)
}

/// A copy is read into the frame. The answer is the link that it was put on, and its mark.
fn take_copy(copies: &Copies, copy: u32, frame: &mut Frame) -> (u16, Mark)
    requires there { copy < length copies.now }
    requires gram { IsGram (copy_in copies.now copy).parcel.octets }
    ensures link { result.0 ≡ (copy_in copies.entry.now copy).link }
    ensures parcel { record { octets = frame.new; tag = result.1 } ≡ (copy_in copies.entry.now copy).parcel }
{
    let seen = match copies.get(u64::from(copy)) {
        Some(seen) => seen,
        None => unreachable!(),
    };
    if !frame.refill(seen.octets) {
        unreachable!();
    }
    (seen.link, Mark::new(seen.birth, seen.place))
}

/// What the packet in a Deltagram brings: the octets of a data packet, which are copied into `room`.
fn brought_by<'a>(gram: GramOctets<'_>, place: u64, room: &'a mut [u8]) -> Brought<'a>
    requires carries { Carries (gram_in gram.octets.now) (value_in gram.octets.now) }
    requires room { MOST_DATA ≤ length room.old }
    ensures { BringsPacket gram.entry.octets.now place result }
{
    match read_packet(&gram.deltagram()) {
        Ok(
            Packet::Data {
                octets,
                begin,
                end,
                ..
            },
        ) => {
            let copied = &mut room[..octets.len()];
            copied.copy_from_slice(octets);
            Brought {
                octets: MarkedOctets {
                    octets: copied,
                    begin,
                    end,
                },
                place,
            }
        }
        Ok(Packet::Ack { .. }) => no_octets(place),
        Ok(Packet::Meet { .. }) => no_octets(place),
        Ok(Packet::Close { .. }) => no_octets(place),
        Err(_) => unreachable!(),
    }
}

/// What an event without octets brings.
fn no_octets(place: u64) -> Brought<'static>
    ensures octets { result.octets.octets.now ≡ [] }
    ensures place { result.place ≡ place }
{
    Brought {
        octets: MarkedOctets {
            octets: &[],
            begin: false,
            end: false,
        },
        place,
    }
}

/// A copy is lost.
pub fn lose<L: Lines>(parts: &mut WorldParts, copy: u32, lines: &mut L)
    requires begun { first_refusal (refusals (world_seen parts.old) (Loses copy)) ≡ None }
    ensures happens { let w = world_seen parts.old in
        HasHappened L.tells (loss w copy) lines.old lines.new (world_seen parts.new) }
    ensures stations { parts.new.stations ≡ parts.old.stations }
    ensures rules { parts.new.rules ≡ parts.old.rules }
    ensures now { parts.new.now ≡ parts.old.now }
    ensures links { parts.new.links ≡ parts.old.links }
{
    parts.notes.copies.lose(u64::from(copy));
    lines.line(&LogLine {
        moment: parts.now,
        node: None,
        report: Report::Lost { copy },
    });
}

/// The station starts again: its next life, with empty tables and an empty relay, and silent for a while.
/// Copies on links stay. One that isn't there does nothing.
pub fn restart<L: Lines>(parts: &mut WorldParts, node: u32, lines: &mut L) -> Result<(), NoMemory>
    requires whole { IsWhole parts.old }
    ensures happens { let w = world_seen parts.old in
        Happens L.tells result w (ComesTo w (Restarts node)) (after_event w (Restarts node)) lines.old lines.new (world_seen parts.new) }
    ensures within { OnOk result (IsLastLife (look ◌==◌ node (world_seen parts.old).stations) → ⊥) }
    ensures stations { OnOk result (AllEntries (IsStationOf parts.old.rules parts.old.now) parts.new.stations.entries) }
    ensures rules { parts.new.rules ≡ parts.old.rules }
    ensures now { parts.new.now ≡ parts.old.now }
    ensures links { parts.new.links ≡ parts.old.links }
{
    let alloc = *parts.stations.allocator();
    match parts.stations.get_mut(&node) {
        None => Ok(()),
        Some(placed) => {
            let now = Moment { ms: parts.now };
            match start_again(alloc, placed, &parts.rules, node, now) {
                Err(NoMemory) => Err(NoMemory),
                Ok(()) => {
                    lines.line(&LogLine {
                        moment: parts.now,
                        node: Some(node),
                        report: Report::Restarted { life: placed.life },
                    });
                    Ok(())
                }
            }
        }
    }
}

/// The greatest moment of a world.
const MOST_NOW: u64 = 1 << 61;

/// `by` milliseconds pass. `NoMemory` comes exactly where the moment would be above 2^61, and changes
/// nothing.
pub fn pass(parts: &mut WorldParts, by: u32) -> Result<(), NoMemory>
    requires whole { IsWhole parts.old }
    ensures passed { OnOk result (parts.new ≡ record parts.old { now = parts.old.now + by }) }
    ensures moment { OnOk result (parts.new.now ≤ most_now) }
    ensures same { OnErr result (parts.new ≡ parts.old) }
    ensures within { OnOk result (most_now < parts.old.now + by → ⊥) }
    ensures end { OnErr result (most_now < parts.old.now + by) }
{
    if parts.now > MOST_NOW - u64::from(by) {
        return Err(NoMemory);
    }
    parts.now += u64::from(by);
    Ok(())
}
