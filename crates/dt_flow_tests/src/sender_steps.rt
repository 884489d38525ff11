//! What happens to a sender, and what comes of it.
ghost use Rattle.std.specs.Prelude.{◌≤◌, ◌^◌};
ghost use Rattle.dt_flow_model.specs.Keeping.{taken_by};

use crate::frames::{has, holds};
use dt_layout::Frame;
use dt_send::{Cut, PutFault, SendAct, SendKind, SendMoments, Sender};
use dt_units::Steps;
use std::sync::ledger::Ledger;

/// Octets with the number of the first, and their marks as the log tells them.
pub struct Octets {
    pub number: u32,
    pub octets: &'static [u8],
    pub marks: &'static [u8],
}

pub enum Step {
    /// A message is put.
    Put(&'static [u8], Result<(), PutFault>),
    /// What was due since a moment goes out, or goes out again.
    Sends(u64, Octets),
    Resends(u64, Octets),
    /// A rendezvous with this number goes out that was due since a moment.
    Meets(u64, u32),
    /// So many octets are given up, and the frame holds still what went out last.
    GivesUp(u64, u32),
    Holds(Octets),
    Renews(u64),
    Releases(u64),
    /// Nothing is due, and the record is to be woken then.
    Waits(Option<u64>),
    /// An acknowledgement comes with a number and a window, and so many octets are acknowledged.
    Acks(u32, u32, Option<u32>),
    /// The number of the leftmost octet, the next one, and the end of the window.
    Stands(u32, u32, u32),
    /// How many octets wait, and how many are held.
    Counts(u32, u32),
    /// How many items the ring has, and how many it has room for.
    Ring(usize, usize),
    Moments(SendMoments),
}

impl Octets {
    fn cut(&self) -> Cut {
        Cut {
            number: self.number,
            length: u32::try_from(self.octets.len()).unwrap_or(u32::MAX),
            drf: has(self.marks, b'd'),
            begin: has(self.marks, b'b'),
            end: has(self.marks, b'e'),
        }
    }

    fn are_in(&self, frame: &Frame) -> bool {
        holds(frame, 1, self.marks, self.number, self.octets)
    }
}

/// Whether this kind is due since then, and the act is this one.
fn acts<L: Ledger>(
    sender: &mut Sender,
    now: u64,
    due: (SendKind, u64),
    act: SendAct,
    frame: &mut Frame,
    steps: &mut Steps<L>,
) -> bool
    requires { now ≤ 2 ^ 62 }
    ensures { taken_by sender.new.state ≤ taken_by sender.old.state }
{
    match sender.due(now, steps) {
        Some(found) => found == due && sender.act(now, frame, steps) == act,
        None => false,
    }
}

fn waits<L: Ledger>(sender: &Sender, now: u64, wake: &Option<u64>, steps: &mut Steps<L>) -> bool {
    sender.due(now, steps).is_none() && sender.wake(steps) == *wake
}

fn stands(sender: &Sender, left: u32, next: u32, edge: u32) -> bool {
    sender.left() == left && sender.next_number() == next && sender.edge() == edge
}

fn has_moments<L: Ledger>(
    sender: &Sender,
    now: u64,
    moments: &SendMoments,
    steps: &mut Steps<L>,
) -> bool {
    sender.moments(now, steps) == *moments
}

fn counts(sender: &Sender, waiting: u32, held: u32) -> bool {
    sender.waiting() == waiting && sender.held() == held
}

fn has_ring(sender: &Sender, len: usize, capacity: usize) -> bool {
    let ring = sender.ring();
    ring.len() == len && ring.capacity() == capacity
}

/// The act that a step says, its kind, and since when it is due; none where a step says no act.
fn wanted(step: &Step) -> Option<((SendKind, u64), SendAct)> {
    Some(match step {
        Step::Sends(due, octets) => ((SendKind::Send, *due), SendAct::Sent(octets.cut())),
        Step::Resends(due, octets) => ((SendKind::Resend, *due), SendAct::Resent(octets.cut())),
        Step::Meets(due, number) => ((SendKind::Meet, *due), SendAct::Met { number: *number }),
        Step::GivesUp(due, count) => ((SendKind::GiveUp, *due), SendAct::GaveUp { count: *count }),
        Step::Renews(due) => ((SendKind::Release, *due), SendAct::Renewed),
        Step::Releases(due) => ((SendKind::Release, *due), SendAct::Released),
        _ => return None,
    })
}

/// Whether the act that a step says is done as it says; also where it says none.
fn is_act<L: Ledger>(
    sender: &mut Sender,
    now: u64,
    step: &Step,
    frame: &mut Frame,
    steps: &mut Steps<L>,
) -> bool
    ensures { taken_by sender.new.state ≤ taken_by sender.old.state }
{
    match wanted(step) {
        Some((due, act)) => now <= 1 << 62 && acts(sender, now, due, act, frame, steps),
        None => true,
    }
}

/// Whether what a step says of the sender or the frame is so.
fn is_seen<L: Ledger>(
    sender: &Sender,
    now: u64,
    step: &Step,
    frame: &Frame,
    steps: &mut Steps<L>,
) -> bool {
    match step {
        Step::Sends(_, octets) | Step::Resends(_, octets) | Step::Holds(octets) => octets.are_in(
            frame,
        ),
        Step::Meets(_, number) => holds(frame, 3, b"", *number, b""),
        Step::Waits(wake) => waits(sender, now, wake, steps),
        Step::Stands(left, next, edge) => stands(sender, *left, *next, *edge),
        Step::Counts(waiting, held) => counts(sender, *waiting, *held),
        Step::Ring(len, capacity) => has_ring(sender, *len, *capacity),
        Step::Moments(moments) => has_moments(sender, now, moments, steps),
        _ => true,
    }
}

/// Whether a put of a message answers so. Those that were taken are no more than `taken`.
fn puts<L: Ledger>(
    sender: &mut Sender,
    taken: &mut u64,
    octets: &[u8],
    answer: &Result<(), PutFault>,
    steps: &mut Steps<L>,
) -> bool
    requires { taken_by sender.old.state ≤ taken.old }
    ensures { taken_by sender.new.state ≤ taken.new }
{
    if *taken > 1_000_000 || octets.len() > 1_000_000 {
        return false;
    }
    *taken += octets.len() as u64;
    sender.put(octets, true, true, steps) == *answer
}

/// Whether so many octets are acknowledged by an acknowledgement.
fn acks<L: Ledger>(
    sender: &mut Sender,
    number: u32,
    window: u32,
    acked: &Option<u32>,
    steps: &mut Steps<L>,
) -> bool
    ensures { taken_by sender.new.state ≤ taken_by sender.old.state }
{
    window <= 65_536 && sender.on_ack(number, window, steps) == *acked
}

/// Whether a step is as it says.
pub fn is_done<L: Ledger>(
    sender: &mut Sender,
    taken: &mut u64,
    now: u64,
    step: &Step,
    frame: &mut Frame,
    steps: &mut Steps<L>,
) -> bool
    requires { taken_by sender.old.state ≤ taken.old }
    ensures { taken_by sender.new.state ≤ taken.new }
{
    let done = match step {
        Step::Put(octets, answer) => puts(sender, taken, octets, answer, steps),
        Step::Acks(number, window, acked) => acks(sender, *number, *window, acked, steps),
        _ => is_act(sender, now, step, frame, steps),
    };
    done && is_seen(sender, now, step, frame, steps)
}
