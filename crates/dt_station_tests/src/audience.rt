//! A visitor that compares what it sees with what is wanted.
use dt_flow_model::Cut;
use dt_host::Host;
use dt_items::NoMemory;
use dt_layout::{Frame, LayoutFault};
use dt_relay::Carry;
use dt_reports::Report;
use dt_station::Visitor;
use dt_units::Flow;

/// What a visitor sees: one of the reports that the rows want, a question for a tag, a packet with so much
/// life that waited or that leaves at once.
pub enum Seen {
    Took {
        flow: Flow,
        count: u32,
    },
    Sent {
        flow: Flow,
        cut: Cut,
    },
    Acked {
        flow: Flow,
        number: u32,
        window: u32,
    },
    Accepted {
        flow: Flow,
        number: u32,
        length: u32,
        run: bool,
    },
    Nothing {
        flow: Flow,
    },
    Put {
        link: u16,
        life: u32,
    },
    ExpiredIn {
        link: u16,
    },
    ExpiredOut {
        link: u16,
    },
    NoRoute {
        to: u32,
    },
    Bad {
        fault: LayoutFault,
    },
    Asked,
    Handed {
        link: u16,
        life: u32,
        at_once: bool,
    },
}

fn is_took(report: &Report<'_>, wanted: Flow, octets: u32) -> bool {
    match *report {
        Report::Took { flow, count } => flow == wanted && count == octets,
        _ => false,
    }
}

fn is_sent(report: &Report<'_>, wanted: Flow, cut: &Cut) -> bool {
    match *report {
        Report::Sent {
            flow,
            number,
            length,
            drf,
            begin,
            end,
        } => {
            let sent = Cut {
                number,
                length,
                drf,
                begin,
                end,
            };
            flow == wanted && sent == *cut
        }
        _ => false,
    }
}

fn is_acked(report: &Report<'_>, wanted: Flow, next: u32, room: u32) -> bool {
    match *report {
        Report::Acked {
            flow,
            number,
            window,
        } => flow == wanted && number == next && window == room,
        _ => false,
    }
}

fn is_accepted(report: &Report<'_>, wanted: Flow, first: u32, octets: u32, begins: bool) -> bool {
    match *report {
        Report::Accepted {
            flow,
            number,
            length,
            run,
        } => flow == wanted && number == first && length == octets && run == begins,
        _ => false,
    }
}

fn is_nothing(report: &Report<'_>, wanted: Flow) -> bool {
    match *report {
        Report::Nothing { flow } => flow == wanted,
        _ => false,
    }
}

fn is_put(report: &Report<'_>, wanted: u16, left: u32) -> bool {
    match *report {
        Report::Put { link, life } => link == wanted && life == left,
        _ => false,
    }
}

fn is_expired_in(report: &Report<'_>, wanted: u16) -> bool {
    match *report {
        Report::ExpiredIn { link } => link == wanted,
        _ => false,
    }
}

fn is_expired_out(report: &Report<'_>, wanted: u16) -> bool {
    match *report {
        Report::ExpiredOut { link } => link == wanted,
        _ => false,
    }
}

fn is_no_route(report: &Report<'_>, wanted: u32) -> bool {
    match *report {
        Report::NoRoute { to } => to == wanted,
        _ => false,
    }
}

fn is_bad(report: &Report<'_>, wanted: LayoutFault) -> bool {
    match *report {
        Report::Bad { fault } => fault == wanted,
        _ => false,
    }
}

/// Whether a report is what is wanted.
fn is_report(report: &Report<'_>, wanted: &Seen) -> bool {
    match wanted {
        Seen::Took { flow, count } => is_took(report, *flow, *count),
        Seen::Sent { flow, cut } => is_sent(report, *flow, cut),
        Seen::Acked {
            flow,
            number,
            window,
        } => is_acked(report, *flow, *number, *window),
        Seen::Accepted {
            flow,
            number,
            length,
            run,
        } => is_accepted(report, *flow, *number, *length, *run),
        Seen::Nothing { flow } => is_nothing(report, *flow),
        Seen::Put { link, life } => is_put(report, *link, *life),
        Seen::ExpiredIn { link } => is_expired_in(report, *link),
        Seen::ExpiredOut { link } => is_expired_out(report, *link),
        Seen::NoRoute { to } => is_no_route(report, *to),
        Seen::Bad { fault } => is_bad(report, *fault),
        Seen::Asked | Seen::Handed { .. } => false,
    }
}

/// Compares what it sees with what is wanted, and has memory for so many packets.
#[derive(Drop)]
pub struct Audience<'a> {
    wanted: &'a [Seen],
    place: usize,
    fits: bool,
    memory: usize,
}

/// Whether a packet that was handed on is what is wanted.
fn is_handed(wanted: Option<&Seen>, on: u16, left: u32, straight: bool) -> bool {
    match wanted {
        Some(
            Seen::Handed {
                link,
                life,
                at_once,
            },
        ) => *link == on && *life == left && *at_once == straight,
        _ => false,
    }
}

impl<'a> Audience<'a> {
    pub fn new(wanted: &'a [Seen], memory: usize) -> Audience<'a> {
        Audience {
            wanted,
            place: 0,
            fits: true,
            memory,
        }
    }

    /// It saw what is wanted, and no less.
    pub fn is_content(&self) -> bool {
        self.fits && self.place == self.wanted.len()
    }

    fn see(&mut self, fits: bool) {
        self.fits = self.fits && fits;
        if self.place < self.wanted.len() {
            self.place += 1;
        }
    }

    fn hand(&mut self, link: u16, life: u32, at_once: bool) -> Result<(), NoMemory> {
        if self.memory == 0 {
            return Err(NoMemory);
        }
        self.memory -= 1;
        let fits = is_handed(self.wanted.get(self.place), link, life, at_once);
        self.see(fits);
        Ok(())
    }
}

impl Visitor<Frame> for Audience<'_> {
    ghost tells = { λ s r t. Unit {0} };

    ghost tags = { λ now s host octets tag t. Unit {0} };

    ghost hands = { λ s link parcel t. Unit {0} };

    ghost fails = { λ s t. Unit {0} };

    fn tag(&mut self, _host: &Host, _frame: &Frame, _now: u64) {
        let fits = matches!(self.wanted.get(self.place), Some(Seen::Asked));
        self.see(fits);
    }

    fn tell(&mut self, report: &Report<'_>) {
        let fits = match self.wanted.get(self.place) {
            Some(wanted) => is_report(report, wanted),
            None => false,
        };
        self.see(fits);
    }

    fn out(&mut self, link: u16, packet: Frame) -> Result<(), NoMemory> {
        self.hand(link, packet.life(), false)
    }

    fn out_at_once(&mut self, link: u16, frame: &Frame, _tag: ()) -> Result<(), NoMemory> {
        self.hand(link, frame.life(), true)
    }
}
