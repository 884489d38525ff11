//! The trait for the user of a station: it gets the reports, tags the frames and takes the packets that leave.
ghost use Rattle.std.specs.Prelude.{ℕ, List, OnErr, OnOk};
ghost use Rattle.dt_layout.specs.Carried.{IsGram};
ghost use Rattle.dt_reports.specs.Told.{Told, told};
ghost use Rattle.dt_relay.specs.Carrying.{parcel_seen};
ghost use Rattle.dt_world_model.specs.Host.{Host as HostState};
ghost use Rattle.dt_world_model.specs.Relay.{Parcel};

use dt_host::Host;
use dt_items::NoMemory;
use dt_layout::Frame;
use dt_relay::Carry;
use dt_reports::Report;

/// Is told what a station does, says what is to be written on the frames that its host makes, and is
/// given the packets that leave.
///
/// What it does is told by relations: from which of its states it may go on to which when something is
/// told, a tag is answered at a moment, a packet is handed out, or there was no memory for a packet. Each
/// impl chooses how much its relations say.
pub trait Visitor<P: Carry> {
    ghost tells: { Self → Told → Self → Type 0 };

    ghost tags: { ℕ → Self → HostState → List ℕ → P.Tag → Self → Type 0 };

    ghost hands: { Self → ℕ → Parcel P.Tag → Self → Type 0 };

    ghost fails: { Self → Self → Type 0 };

    /// What is to be written on a frame that the host made at `now`, the moment of the event. The report
    /// of the act or the reply that made it was told before. The host is the one after that act or reply.
    fn tag(&mut self, host: &Host, frame: &Frame, now: u64) -> P::Tag
        requires gram { IsGram frame.now }
        ensures { tags now self.old host.now.state frame.now result self.new };

    /// Receives a report. It can't refuse: a visitor that found no memory for it, or couldn't write it,
    /// keeps that fact, does nothing with later reports, and its owner answers it when the event has
    /// ended.
    fn tell(&mut self, report: &Report<'_>)
        ensures { tells self.old (told report.now) self.new };

    /// Is given a packet that leaves on a link after it waited for it, after its report. An error ends
    /// the event, and the station is used no more.
    fn out(&mut self, link: u16, packet: P) -> Result<(), NoMemory>
        requires gram { IsGram (P.octets packet) }
        ensures ok { OnOk result (hands self.old link (parcel_seen P.octets P.label packet) self.new) }
        ensures err { OnErr result (fails self.old self.new) };

    /// The same for a packet that leaves without having waited: its octets are in the frame, and `tag` is
    /// its tag. So no packet is moved.
    fn out_at_once(&mut self, link: u16, frame: &Frame, tag: P::Tag) -> Result<(), NoMemory>
        requires gram { IsGram frame.now }
        ensures ok { OnOk result (hands self.old link (record { octets = frame.now; tag = tag }) self.new) }
        ensures err { OnErr result (fails self.old self.new) };
}
