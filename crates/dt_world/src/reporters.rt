//! Who sees a station's event for the world.
ghost use Rattle.std.specs.Prelude.{◌≡◌, OnErr, OnOk};
ghost use Rattle.dt_reports.specs.Told.{told};
ghost use Rattle.dt_world_model.specs.Ledgers.{ledgers_by};
ghost use Rattle.dt_world_model.specs.World.{world_told};
ghost use Rattle.dt_notes.specs.Effects.{effect_seen};
ghost use Rattle.dt_notes.specs.Notes.{ledgers_seen};
ghost use Rattle.dt_notes.specs.Occasions.{occasion_seen};

use crate::marks::mark_of;
use dt_host::Host;
use dt_items::NoMemory;
use dt_layout::Frame;
use dt_notes::{Effect, EventContext, Lines, Mark, MarkedFrame, Notes, change, effect_of};
use dt_reports::{LogLine, Report};
use dt_station::Visitor;

/// What the world notes of one event, and who receives its lines. Where something finds no memory, it
/// has failed: from then on it notes nothing, reports nothing and takes no packet.
#[derive(Drop)]
pub struct Reporter<'a, 'o, L> {
    pub notes: &'a mut Notes,
    pub lines: &'a mut L,
    pub context: EventContext<'o>,
    pub failed: bool,
}

impl<'a, 'o, L: Lines> Visitor<MarkedFrame> for Reporter<'a, 'o, L> {
    ghost use Rattle.dt_world.specs.Reporters.{Hands, Marks, Stays, Tells};

    ghost tells = { λ s r t. Tells L.tells s r t };

    ghost tags = { λ now s host octets mark t. Marks s host octets mark t };

    ghost hands = { λ s link parcel t. Hands s link parcel t };

    ghost fails = { λ s t. Stays s t };

    fn tag(&mut self, host: &Host, frame: &Frame, _now: u64) -> Mark {
        match mark_of(self.notes, &self.context, host, frame.as_gram()) {
            Some(mark) => mark,
            None => {
                self.failed = true;
                Mark::new(0, 0)
            }
        }
    }

    fn tell(&mut self, report: &Report<'_>) {
        if self.failed {
            return;
        }
        let effect = effect_of(report);
        if note(self.notes, &self.context, &effect).is_err() {
            self.failed = true;
            return;
        }
        self.lines.line(&LogLine {
            moment: self.context.now,
            node: Some(self.context.node),
            report: world_report(report, &effect, self.notes.copies.len()),
        });
    }

    fn out(&mut self, link: u16, packet: MarkedFrame) -> Result<(), NoMemory> {
        self.out_at_once(link, &packet.frame, packet.mark)
    }

    fn out_at_once(&mut self, link: u16, frame: &Frame, mark: Mark) -> Result<(), NoMemory> {
        if self.failed {
            return Err(NoMemory);
        }
        let put = self.context.now;
        self.notes.copies.add(link, frame.as_slice(), mark, put)
    }
}

/// What a report says of the world is noted. After `NoMemory` nothing was.
fn note(notes: &mut Notes, context: &EventContext<'_>, effect: &Effect) -> Result<(), NoMemory>
    ensures ok { OnOk result (ledgers_seen notes.new ≡ ledgers_by (occasion_seen context.entry.now) (effect_seen effect.now) (ledgers_seen notes.old)) }
    ensures err { OnErr result (ledgers_seen notes.new ≡ ledgers_seen notes.old) }
    ensures copies { notes.new.copies ≡ notes.old.copies }
{
    match *effect {
        Effect::Changes {
            flow,
            change: becomes,
        } => change(notes, context, &flow, becomes),
        Effect::Leaves { .. } | Effect::Neither => Ok(()),
    }
}

/// The report as the world reports it, by what it says of the world: where a packet leaves, the number of
/// the copy is reported too.
fn world_report<'a>(report: &Report<'a>, effect: &Effect, copies: u64) -> Report<'a>
    ensures { told result ≡ world_told copies (told report.now) (effect_seen effect.now) }
{
    match *effect {
        Effect::Leaves { link, life } => Report::PutAs {
            link,
            life,
            copy: copies,
        },
        Effect::Changes { .. } | Effect::Neither => *report,
    }
}
