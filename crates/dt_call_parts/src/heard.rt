//! What the world's events tell of messages.
ghost use Rattle.std.specs.Prelude.{◌≡◌, true, false, [], None, Some, MatchOption};
ghost use Rattle.dt_reports.specs.Matters.{matter_seen};
ghost use Rattle.dt_calls_model.specs.Heard.{AnAcceptance, heard_by};
ghost use Rattle.dt_call_parts.specs.Hearing.{first_piece, for_event, heard_with};
ghost use Rattle.dt_messages.specs.Joining.{piece_with};

use dt_messages::Marks;
use dt_notes::Lines;
use dt_reports::{LogLine, Matter};
use dt_units::Flow;
use std::alloc::Global;
use std::marker::Model;

/// What the lines of the world's events told. Where there was no memory for it, it has failed.
#[derive(Drop)]
pub struct Heard {
    /// The marks of the piece that the last event read, and its octets.
    piece: Option<Marks>,
    octets: Vec<u8>,
    /// Whether the last event's send was refused.
    refused: bool,
    /// The last flow of which the last event accepted data, and whether it did of several.
    accepted: Option<Flow>,
    several: bool,
    failed: bool,
}

impl Model for Heard {
    ghost use Rattle.dt_call_parts.specs.Hearing.{HeardValue, piece_seen};

    ghost Value = { HeardValue };

    ghost view = { λ h. record { piece = piece_seen h.octets.items h.piece; refused = h.refused; accepted = h.accepted; several = h.several; failed = h.failed } };
}

impl Heard {
    /// Nothing was reported yet.
    pub fn new(alloc: Global) -> Heard
        ensures { result ≡ record { piece = None; refused = false; accepted = None; several = false; failed = false } }
    {
        Heard {
            piece: None,
            octets: Vec::new(alloc),
            refused: false,
            accepted: None,
            several: false,
            failed: false,
        }
    }

    /// An event begins.
    pub fn begin_event(&mut self)
        ensures { self.new ≡ for_event self.old }
    {
        self.piece = None;
        self.refused = false;
        self.accepted = None;
        self.several = false;
    }

    /// Whether there was no memory for a line.
    pub fn has_failed(&self) -> bool
        ensures { result ≡ self.now.failed }
    {
        self.failed
    }

    /// The marks of the piece that was read, if one was, and its octets.
    pub fn piece(&self) -> Option<(Marks, &[u8])>
        ensures { MatchOption result (self.now.piece ≡ None) (λ piece. self.now.piece ≡ Some (piece_with piece.0 piece.1.now)) }
    {
        match self.piece {
            Some(marks) => Some((marks, self.octets.as_slice())),
            None => None,
        }
    }

    /// Whether the send of the last event was refused.
    pub fn is_refused(&self) -> bool
        ensures { result ≡ self.now.refused }
    {
        self.refused
    }

    /// The last flow of which the last event accepted data.
    pub fn accepted(&self) -> Option<Flow>
        ensures { result ≡ self.now.accepted }
    {
        self.accepted
    }

    /// Whether it accepted data of several flows.
    pub fn has_several(&self) -> bool
        ensures { result ≡ self.now.several }
    {
        self.several
    }

    /// What is said of octets is heard.
    fn hear_of(&mut self, matter: Matter<'_>)
        requires { self.old.failed ≡ false }
        ensures { self.new.failed ≡ false → self.new ≡ heard_with (heard_by (matter_seen matter.entry)) self.old }
    {
        match matter {
            Matter::Refused { .. } => self.refused = true,
            Matter::Accepted { flow, .. } => self.accept(flow),
            Matter::ReadOut {
                run,
                begin,
                end,
                octets,
                ..
            } => self.keep_piece(Marks { run, begin, end }, octets),
            Matter::Taken { .. }
            | Matter::Transmitted { .. }
            | Matter::Retransmitted { .. }
            | Matter::GivenUp { .. }
            | Matter::Acknowledged { .. }
            | Matter::Replied { .. }
            | Matter::Dropped { .. }
            | Matter::NothingRead { .. }
            | Matter::Left { .. }
            | Matter::Begun { .. }
            | Matter::Neither => {}
        }
    }

    /// Data of the flow was accepted.
    fn accept(&mut self, flow: Flow)
        ensures { self.new ≡ heard_with (AnAcceptance flow) self.old }
    {
        if let Some(before) = self.accepted {
            if before != flow {
                self.several = true;
            }
        }
        self.accepted = Some(flow);
    }

    /// A piece was read. The first of an event is kept.
    fn keep_piece(&mut self, marks: Marks, octets: &[u8])
        requires { self.old.failed ≡ false }
        ensures { self.new.failed ≡ false → self.new ≡ record self.old { piece = first_piece (piece_with marks octets.now) self.old.piece } }
    {
        if self.piece.is_some() {
            return;
        }
        self.octets.clear();
        self.failed = self.octets.extend_from_slice(octets).is_err();
        self.piece = Some(marks);
    }
}

impl Lines for Heard {
    ghost use Rattle.dt_call_parts.specs.Hearing.{Hears};

    ghost tells = { λ s entry t. Hears s entry t };

    fn line(&mut self, line: &LogLine<'_>) {
        if self.failed {
            return;
        }
        self.hear_of(line.report.matter());
    }
}
