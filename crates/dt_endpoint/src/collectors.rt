//! Who sees the events of an endpoint's station: it collects what leaves and what is reported.
ghost use Rattle.std.specs.Prelude.{◌≡◌, ◌≤◌, [], IfOk, OnErr, OnOk, drop, false, option_map, option_to_list, ◌++◌};
ghost use Rattle.dt_reports.specs.Told.{told};
ghost use Rattle.dt_endpoint.specs.declared.heard_answers.HeardAnswer.TheVariants.{Nothing};
ghost use Rattle.dt_endpoint.specs.Acts.{plain};
ghost use Rattle.dt_endpoint.specs.Collecting.{CollectFails, CollectHands, Same, begun, with_told};
ghost use Rattle.dt_endpoint.specs.Counts.{counts_arrived, counts_refused, none_counted, with_flow};
ghost use Rattle.dt_world_model.specs.Tables.{look, same_flow};
ghost use Rattle.dt_endpoint.specs.Hearing.{piece_after};

use crate::counts::{Counts, Octets, more};
use crate::followed_totals::FollowedTotals;
use crate::frames::OutFrame;
use crate::heard_answers::{HeardAnswer, heard_after, kept_report};
use dt_host::Host;
use dt_items::NoMemory;
use dt_layout::{Frame, GramOctets};
use dt_reports::Report;
use dt_station::Visitor;
use dt_units::Flow;
use std::alloc::Global;
use std::collections::VecDeque;
use std::marker::Model;

/// Collects the frames that leave and the reports, and hears what is answered to the call that is under
/// way. Where it finds no memory it has failed, and collects nothing more.
#[derive(Drop)]
pub struct Collector {
    alloc: Global,
    frames: VecDeque<OutFrame>,
    reports: VecDeque<Report<'static>>,
    heard: HeardAnswer,
    /// The octets of the piece that was read.
    piece: Vec<u8>,
    counts: Counts,
    totals: FollowedTotals,
    failed: bool,
}

impl Model for Collector {
    ghost use Rattle.std.specs.Prelude.{map};
    ghost use Rattle.dt_reports.specs.Told.{told};
    ghost use Rattle.dt_endpoint.specs.Collecting.{Collected};

    ghost Value = { Collected };

    ghost view = { λ c. record { frames = c.frames.items; reports = map told c.reports.items; heard = c.heard; piece = c.piece.items; counts = record { node = c.counts; flows = c.totals }; failed = c.failed } };
}

impl Collector {
    /// Nothing was collected.
    pub fn new(alloc: Global) -> Collector
        ensures { result ≡ record { frames = []; reports = []; heard = Nothing; piece = []; counts = none_counted; failed = false } }
    {
        Collector {
            alloc,
            frames: VecDeque::new(alloc),
            reports: VecDeque::new(alloc),
            heard: HeardAnswer::Nothing,
            piece: Vec::new(alloc),
            counts: Counts::none(),
            totals: FollowedTotals::new(alloc),
            failed: false,
        }
    }

    /// A call begins.
    pub fn begin(&mut self)
        ensures { self.new ≡ begun self.old }
    {
        self.heard = HeardAnswer::Nothing;
        self.piece.clear();
    }

    pub fn heard(&self) -> HeardAnswer
        ensures { result ≡ self.now.heard }
    {
        self.heard
    }

    pub fn piece(&self) -> &[u8]
        ensures { result.now ≡ self.now.piece }
    {
        &self.piece
    }

    pub fn counts(&self) -> Counts
        ensures { result ≡ self.now.counts.node }
    {
        self.counts
    }

    /// What was reported of a flow since it is followed, or none where it isn't.
    pub fn totals(&self, flow: &Flow) -> Option<Octets>
        ensures { result ≡ look same_flow flow.now self.now.counts.flows }
    {
        self.totals.of(flow)
    }

    /// A flow is followed from now on. `NoMemory` changes nothing.
    pub fn follow(&mut self, flow: &Flow) -> Result<(), NoMemory>
        ensures done { OnOk result (self.new ≡ record self.old { counts = record { node = self.old.counts.node; flows = with_flow flow.now self.old.counts.flows } }) }
        ensures same { OnErr result (self.new ≡ self.old) }
    {
        self.totals.follow(flow)
    }

    /// A datagram comes.
    pub fn count_arrival(&mut self)
        ensures { self.new ≡ record self.old { counts = counts_arrived self.old.counts } }
    {
        self.counts.came = more(self.counts.came, 1);
    }

    /// A datagram was refused.
    pub fn count_refusal(&mut self)
        ensures { self.new ≡ record self.old { counts = counts_refused self.old.counts } }
    {
        self.counts.refused = more(self.counts.refused, 1);
    }

    pub fn failed(&self) -> bool
        ensures { result ≡ self.now.failed }
    {
        self.failed
    }

    /// The frame that left first.
    pub fn first_frame(&self) -> Option<&OutFrame>
        ensures { self.now.frames ≡ option_to_list (option_map (λ f. f.now) result) ++ drop 1 self.now.frames }
    {
        self.frames.front()
    }

    /// The frame that left first goes.
    pub fn next_frame(&mut self) -> Option<OutFrame>
        ensures first { self.old.frames ≡ option_to_list result ++ self.new.frames }
        ensures others { self.new ≡ record self.old { frames = drop 1 self.old.frames } }
    {
        self.frames.pop_front()
    }

    /// The report that was made first goes.
    pub fn next_report(&mut self) -> Option<Report<'static>>
        ensures first { self.old.reports ≡ option_to_list (option_map told result) ++ self.new.reports }
        ensures others { self.new ≡ record self.old { reports = drop 1 self.old.reports } }
    {
        self.reports.pop_front()
    }

    /// Keeps a frame that leaves on a link.
    fn keep(&mut self, link: u16, gram: GramOctets<'_>) -> Result<(), NoMemory>
        ensures ok { OnOk result (CollectHands self.old link (plain gram.entry.octets.now) self.new) }
        ensures err { OnErr result (CollectFails self.old self.new) }
    {
        if self.failed {
            return Err(NoMemory);
        }
        let left = OutFrame::copy_of(self.alloc, link, gram)?;
        self.frames.push_back(left)?;
        self.counts.left = more(self.counts.left, 1);
        Ok(())
    }

    /// Keeps a report, and what it answers.
    #[tactic(auto, using(std::proofs::lemmas::List::map_push))]
    fn note(&mut self, report: &Report<'_>) -> Result<(), NoMemory>
        ensures ok { OnOk result (self.new ≡ with_told (told report.now) self.old) }
        ensures err { OnErr result (Same self.old self.new) }
    {
        keep_piece(report, &mut self.piece)?;
        self.reports.push_back(kept_report(report))?;
        self.heard = heard_after(report, self.heard);
        self.counts.octets.note(report);
        self.totals.note(report);
        Ok(())
    }
}

/// The octets of a piece that was read are kept.
fn keep_piece(report: &Report<'_>, piece: &mut Vec<u8>) -> Result<(), NoMemory>
    ensures { OnOk result (piece.new.items ≡ piece_after (told report.now) piece.old.items) }
{
    if let Report::Read { octets, .. } = *report {
        piece.clear();
        piece.extend_from_slice(octets)?;
    }
    Ok(())
}

impl Visitor<Frame> for Collector {
    ghost use Rattle.dt_endpoint.specs.Collecting.{CollectFails, CollectHands, CollectTags, CollectTells};

    ghost tells = { λ s r t. CollectTells s r t };

    ghost tags = { λ now s host octets tag t. CollectTags s host octets tag t };

    ghost hands = { λ s link parcel t. CollectHands s link parcel t };

    ghost fails = { λ s t. CollectFails s t };

    fn tag(&mut self, _host: &Host, _frame: &Frame, _now: u64) {}

    fn tell(&mut self, report: &Report<'_>) {
        if !self.failed && self.note(report).is_err() {
            self.failed = true;
        }
    }

    fn out(&mut self, link: u16, packet: Frame) -> Result<(), NoMemory> {
        self.keep(link, packet.as_gram())
    }

    fn out_at_once(&mut self, link: u16, frame: &Frame, _tag: ()) -> Result<(), NoMemory> {
        self.keep(link, frame.as_gram())
    }
}
