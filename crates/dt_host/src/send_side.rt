//! The senders of a host, and what is noted of when each may act.
ghost use Rattle.std.specs.Prelude.{ℕ, ◌≡◌, ◌+◌, ◌<◌, ◌≤◌, [], false, length, IfErr, IfOk, IfSome, Some, None, unwrap_or};
ghost use Rattle.std.specs.Option.{option_and_then, option_copied};
ghost use Rattle.std.specs.Map.{lookup};
ghost use Rattle.dt_items.specs.Unread.{items_of};
ghost use Rattle.dt_layout.specs.Carried.{IsGram};
ghost use Rattle.dt_flow_model.specs.declared.acts.SendKind.TheVariants.{Resend};
ghost use Rattle.dt_flow_model.specs.Acting.{record_for};
ghost use Rattle.dt_flow_model.specs.Frames.{frame_of_act};
ghost use Rattle.dt_flow_model.specs.Keeping.{octets_below, taken_by};
ghost use Rattle.dt_flow_model.specs.SendRecord.{SendRecord, on_ack};
ghost use Rattle.dt_flow_model.specs.SendActs.{Act, record_after, told_of, wake_of};
ghost use Rattle.dt_world_model.specs.Host.{Host, ack_answer, sender_at};
ghost use Rattle.dt_world_model.specs.Tables.{Distinct, earliest, look, same_flow, write_or_erase};
ghost use Rattle.dt_host.specs.Notes.{note_of_send, send_place};
ghost use Rattle.dt_host.specs.Answers.{IsSent};
ghost use Rattle.dt_host.specs.declared.dues.DueKind.TheVariants as due;
ghost use Rattle.dt_host.specs.declared.faults.SendFault.TheVariants as send_fault;
ghost use Rattle.dt_host.specs.Dues.{HasDue, soonest_send};
ghost use Rattle.dt_host.specs.Hosts.{AreSendEntries, send_records};
ghost use Rattle.dt_host.specs.Notes.{send_noted};
ghost use Rattle.dt_table.specs.Places.{equal_flows};
ghost use Rattle.dt_host.specs.Soonest.{IsQuiet, IsSoonest, missed_senders, sender_moment};

use crate::dues::{DueAct, DueKind};
use crate::faults::SendFault;
use dt_flow_model::{Arrived, Reading, SendAct, SendKind};
use dt_items::{MarkedOctets, NoMemory};
use dt_layout::Frame;
use dt_send::Sender;
use dt_table::Table;
use dt_units::{Flow, Rules, Steps};
use std::alloc::Global;
use std::marker::Model;
use std::rc::Rc;
use std::sync::ledger::Ledger;

/// How many moments are noted of a sender: those of its acts, in the order of their kinds, and when to
/// wake it.
const KINDS: usize = 6;

/// Where the moment of a resend stands in a note.
const RESEND: usize = 2;

/// Where the moment to wake a sender stands in its note.
const WAKE: usize = 5;

/// The senders of a host, and what is noted of when each may act. A contract sees the parameters, the
/// latest moment, and the senders with their flows in the order of their making.
#[derive(Drop)]
pub struct SendSide {
    rules: Rc<Rules>,
    /// The greatest moment that it was given.
    latest: Reading,
    table: Table<Sender>,
}

impl Model for SendSide {
    ghost use Rattle.dt_table.specs.Places.{present};
    ghost use Rattle.dt_host.specs.Sides.{IsSendSide, SendSideValue};

    ghost Value = { SendSideValue };

    ghost view = { λ s. record { rules = s.rules.value; latest = s.latest.ms; entries = present s.table.slots.items } };

    ghost invariant = { λ s. IsSendSide s.rules.value s.latest.ms s.table.places s.table.slots.items s.table.agenda };
}

impl SendSide {
    /// No senders. What later calls take is taken of `alloc`.
    pub fn new(alloc: Global, rules: Rc<Rules>, latest: Reading) -> Result<SendSide, NoMemory>
        ensures { IfOk result (λ side. side ≡ record { rules = rules.value; latest = latest.ms; entries = [] }) }
    {
        Ok(SendSide {
            rules,
            latest,
            table: Table::new(alloc, KINDS)?,
        })
    }

    /// Now becomes the latest moment.
    pub fn reach(&mut self, now: Reading)
        requires past { self.old.latest ≤ now.ms }
        ensures { self.new ≡ record self.old { latest = now.ms } }
    {
        self.latest = now;
    }

    /// The parameters of the senders.
    pub fn rules(&self) -> &Rules
        ensures { result.now ≡ self.now.rules }
    {
        &*self.rules
    }

    /// How many flows have a sender.
    pub fn count(&self) -> usize
        ensures count { result ≡ length self.now.entries }
        ensures entries { AreSendEntries self.now.rules self.now.entries }
        ensures distinct { Distinct same_flow (send_records self.now.entries) }
    {
        self.table.places.count()
    }

    /// The flow's sender.
    pub fn sender(&self, flow: &Flow) -> Option<&Sender>
        ensures value { option_copied result ≡ lookup (equal_flows flow.now) self.now.entries }
        ensures entries { AreSendEntries self.now.rules self.now.entries }
    {
        self.table.find(flow)
    }

    /// The act that comes first at now: the best so far, or one of these senders. Each is looked at.
    pub fn soonest<L: Ledger>(
        &self,
        now: u64,
        best: Option<DueAct>,
        steps: &mut Steps<L>,
    ) -> Option<DueAct>
        ensures { result ≡ soonest_send now best self.now.entries }
    {
        let mut best = best;
        for slot in self.table.slots.iter() {
            if let Some((flow, sender)) = slot
                && let Some((kind, moment)) = sender.due(now, steps)
            {
                let due = DueAct {
                    kind: DueKind::Send(kind),
                    moment,
                    flow: *flow,
                };
                best = due.first_of(best);
            }
        }
        best
    }

    /// Puts octets into the flow's sender, which is made at the latest moment where there is none.
    pub fn put<L: Ledger>(
        &mut self,
        flow: &Flow,
        asked: &MarkedOctets<'_>,
        steps: &mut Steps<L>,
    ) -> Result<(), SendFault>
        requires counted { let records = send_records self.old.entries in
            taken_by (record_for self.old.rules self.old.latest (look same_flow flow.now records)) + length asked.now.octets.now < octets_below }
        ensures sent { let items = items_of asked.now in
            IsSent self.old.rules self.old.latest flow.now items self.old.entries self.new.entries result }
        ensures same { self.new ≡ record self.old { entries = self.new.entries } }
        ensures memory { IfErr result (λ fault. fault ≡ send_fault.NoMemory → look same_flow flow.now (send_records self.old.entries) ≡ None) }
        ensures looks { steps.new ≤ steps.old + 3 }
    {
        let Some(place) = self.table.place(flow) else {
            return self.make(flow, asked, steps);
        };
        let Some((_, sender)) = &mut self.table.slots[place] else {
            unreachable!();
        };
        let put = sender.put(asked.octets, asked.begin, asked.end, steps);
        let note = note_of(sender, self.latest.ms, steps);
        self.table.agenda.note(place, &note);
        put?;
        Ok(())
    }

    /// Makes the flow's sender with these octets in it. Whether they fit is tested first.
    fn make<L: Ledger>(
        &mut self,
        flow: &Flow,
        asked: &MarkedOctets<'_>,
        steps: &mut Steps<L>,
    ) -> Result<(), SendFault>
        requires counted { let records = send_records self.old.entries in
            taken_by (record_for self.old.rules self.old.latest (look same_flow flow.now records)) + length asked.now.octets.now < octets_below }
        requires none { lookup (equal_flows flow.now) self.old.entries ≡ None }
        ensures sent { let items = items_of asked.now in
            IsSent self.old.rules self.old.latest flow.now items self.old.entries self.new.entries result }
        ensures same { self.new ≡ record self.old { entries = self.new.entries } }
        ensures looks { steps.new ≤ steps.old + 3 }
    {
        let free = self.rules.params().cap;
        if asked.octets.len() > free as usize {
            return Err(SendFault::Full { free });
        }
        let mut sender = Sender::sharing(
            *self.table.slots.allocator(),
            &self.rules,
            *flow,
            self.latest.ms,
        )?;
        sender.put(asked.octets, asked.begin, asked.end, steps)?;
        let note = note_of(&sender, self.latest.ms, steps);
        self.table.add(flow, sender, &note)?;
        Ok(())
    }

    /// An acknowledgement goes to the flow's sender.
    pub fn on_ack<L: Ledger>(
        &mut self,
        flow: &Flow,
        number: u32,
        window: u32,
        steps: &mut Steps<L>,
    ) -> Arrived
        requires wide { window ≤ 65536 }
        ensures acked { (host : Host) → let before = record host { senders = send_records self.old.entries } in
            ack_answer before flow.now (option_and_then (λ x. on_ack self.old.rules x number window) (sender_at before flow.now))
            ≡ (result, record host { senders = send_records self.new.entries }) }
        ensures same { self.new ≡ record self.old { entries = self.new.entries } }
        ensures looks { steps.new ≤ steps.old + 3 }
    {
        let Some(place) = self.table.place(flow) else {
            return Arrived::Dropped;
        };
        let Some((_, sender)) = &mut self.table.slots[place] else {
            unreachable!();
        };
        let acked = sender.on_ack(number, window, steps);
        let note = note_of(sender, self.latest.ms, steps);
        self.table.agenda.note(place, &note);
        let Some(count) = acked else {
            return Arrived::Dropped;
        };
        Arrived::Acked { count }
    }

    /// Does the act that the flow's sender has due at the latest moment. A sender that is released goes.
    pub fn act<L: Ledger>(
        &mut self,
        flow: &Flow,
        frame: &mut Frame,
        steps: &mut Steps<L>,
    ) -> SendAct
        requires due { (x : SendRecord) × (act : Act) × HasDue self.old.rules self.old.latest (look same_flow flow.now (send_records self.old.entries)) x act }
        ensures told { (x : SendRecord) (act : Act) → HasDue self.old.rules self.old.latest (look same_flow flow.now (send_records self.old.entries)) x act
            → result ≡ told_of self.old.rules x act }
        ensures frame { (x : SendRecord) (act : Act) → HasDue self.old.rules self.old.latest (look same_flow flow.now (send_records self.old.entries)) x act
            → frame.new ≡ unwrap_or (frame_of_act self.old.rules flow.now x act) frame.old }
        ensures gram { (x : SendRecord) (act : Act) → HasDue self.old.rules self.old.latest (look same_flow flow.now (send_records self.old.entries)) x act
            → IfSome (frame_of_act self.old.rules flow.now x act) (λ octets. IsGram octets) }
        ensures after { (x : SendRecord) (act : Act) → HasDue self.old.rules self.old.latest (look same_flow flow.now (send_records self.old.entries)) x act
            → send_records self.new.entries ≡ write_or_erase same_flow flow.now (record_after self.old.rules self.old.latest x act) (send_records self.old.entries) }
        ensures same { self.new ≡ record self.old { entries = self.new.entries } }
        ensures looks { steps.new ≤ steps.old + 3 }
    {
        let Some(place) = self.table.place(flow) else {
            unreachable!();
        };
        let Some((_, sender)) = &mut self.table.slots[place] else {
            unreachable!();
        };
        let act = sender.act(self.latest.ms, frame, steps);
        if let SendAct::Released = act {
            self.table.remove(place, flow);
        } else {
            let note = note_of(sender, self.latest.ms, steps);
            self.table.agenda.note(place, &note);
        }
        act
    }

    /// The act of a kind other than a resend that comes first, where one is due at the latest moment.
    pub fn due(&self, kind: SendKind) -> Option<DueAct>
        requires exact { kind ≡ Resend → ⊥ }
        ensures quiet { result ≡ None → IsQuiet (sender_moment self.now.rules self.now.latest kind) self.now.latest self.now.entries }
        ensures found { IfSome result (λ d. IsSoonest (sender_moment self.now.rules self.now.latest kind) self.now.latest self.now.entries (due.Send kind) d) }
    {
        let (moment, place) = self.table.agenda.first(place_of(kind))?;
        if moment > self.latest.ms {
            return None;
        }
        let Some((flow, _)) = &self.table.slots[place] else {
            unreachable!();
        };
        Some(DueAct {
            kind: DueKind::Send(kind),
            moment,
            flow: *flow,
        })
    }

    /// The resend that comes first, where one is due at the latest moment. A moment that came and isn't
    /// that of a resend any more is that of one that was missed: one look at its sender gives the right
    /// one.
    pub fn resend_due<L: Ledger>(&mut self, steps: &mut Steps<L>) -> Option<DueAct>
        ensures quiet { result ≡ None → IsQuiet (sender_moment self.old.rules self.old.latest Resend) self.old.latest self.old.entries }
        ensures found { IfSome result (λ d. IsSoonest (sender_moment self.old.rules self.old.latest Resend) self.old.latest self.old.entries (due.Send Resend) d) }
        ensures same { self.new ≡ self.old }
        ensures looks { steps.new ≤ steps.old + missed_senders self.old.rules self.old.latest (send_records self.old.entries) + 1 }
        ensures none { result ≡ None → steps.new ≤ steps.old + missed_senders self.old.rules self.old.latest (send_records self.old.entries) }
    {
        while let Some((moment, place)) = self.table.agenda.first(RESEND) {
            if moment > self.latest.ms {
                return None;
            }
            let Some((flow, sender)) = &self.table.slots[place] else {
                unreachable!();
            };
            let resend = sender.moments(self.latest.ms, steps).resend;
            if resend == Some(moment) {
                return Some(DueAct {
                    kind: DueKind::Send(SendKind::Resend),
                    moment,
                    flow: *flow,
                });
            }
            self.table.agenda.note_one(place, RESEND, resend);
        }
        None
    }

    /// The least moment at which an act of a sender is due.
    pub fn wake(&self) -> Option<u64>
        ensures { result ≡ earliest (λ e. wake_of self.now.rules e.1) (send_records self.now.entries) }
    {
        let (moment, _) = self.table.agenda.first(WAKE)?;
        Some(moment)
    }
}

/// Where the moment of a kind of acts stands in a note.
fn place_of(kind: SendKind) -> usize
    ensures { result ≡ send_place kind }
{
    match kind {
        SendKind::GiveUp => 0,
        SendKind::Release => 1,
        SendKind::Resend => RESEND,
        SendKind::Send => 3,
        SendKind::Meet => 4,
    }
}

/// What is noted of a sender, as it stands at now.
fn note_of<L: Ledger>(sender: &Sender, now: u64, steps: &mut Steps<L>) -> [Option<u64>; KINDS]
    ensures note { result ≡ note_of_send (send_noted sender.now.rules now sender.now.state) }
    ensures looks { steps.new ≡ steps.old + 2 }
{
    let moments = sender.moments(now, steps);
    let wake = sender.wake(steps);
    [
        moments.give_up,
        moments.release,
        moments.resend,
        moments.send,
        moments.meet,
        wake,
    ]
}
