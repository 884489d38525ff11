//! Datagrams of any octets: node 2 hears a frame of node 1 with one octet changed, or cut short.
use crate::trial_rows::{ends_over, holds};
use dt_edges::MemWire;
use dt_trial::{FREELY, Trial};
use std::alloc::Global;

/// Node 2, which hears and routes to node 1 alone.
const SCRIPT: &[u8] = b"params 1000 3000 200 500 800 100 4096 4096 512 2147483648
me 2 first
local 127.0.0.1:4002
peer 1 127.0.0.1:4001 50 0
route 1 1
go
at 100 stop
";

/// A data packet from node 1, port 10, to node 2, port 20: life 999, number 0, all three marks, and
/// five octets.
const FRAME: [u8; 35] = [
    1, 1, 0, 19, 0, 0, 3, 231, 0, 0, 0, 1, 0, 0, 0, 2, 1, 7, 0, 10, 0, 20, 0, 0, 0, 0, 0, 0, 0, 0,
    104, 101, 108, 108, 111,
];

/// A run of the node.
const NODE: Trial<'static> = Trial {
    words: &["node"],
    input: SCRIPT,
    out_room: 16_384,
    ..FREELY
};

/// A wire on which nothing comes and nothing fails.
fn calm_wire(alloc: Global) -> Option<MemWire> {
    MemWire::new(alloc, false, &[], &[], None).ok()
}

/// Whether the node writes this log over a wire and by readings, and nothing fails.
fn writes(alloc: Global, wire: &mut MemWire, readings: &[u64], log: &str) -> bool {
    let trial = Trial { readings, ..NODE };
    ends_over(alloc, &trial, wire, 0, log)
}

/// Whether the node that finds these octets at 10 writes this log.
fn hears(alloc: Global, octets: &[u8], log: &str) -> bool {
    match calm_wire(alloc) {
        Some(mut wire) => {
            wire.add_take(1, octets).is_ok() && writes(alloc, &mut wire, &[1000, 1010, 1100], log)
        }
        None => false,
    }
}

/// One octet that is changed: its place in the frame, and its value.
#[derive(Clone, Copy)]
struct ChangedOctet {
    place: usize,
    value: u8,
}

impl ChangedOctet {
    /// The frame with this octet changed.
    fn octets(self) -> [u8; 35] {
        let mut octets = FRAME;
        if let Some(octet) = octets.get_mut(self.place) {
            *octet = self.value;
        }
        octets
    }

    /// A number of so many octets, 4 at most, that stands before the place `end`, as it is changed.
    fn number(self, number: u32, width: usize, end: usize) -> u32 {
        let mut octets = number.to_be_bytes();
        if width <= 4 && self.place < end && end - self.place <= width {
            octets[4 - (end - self.place)] = self.value;
        }
        u32::from_be_bytes(octets)
    }

    /// The fault for which the frame is refused, if it is: its word, its number, and what stands behind it.
    fn fault(self) -> Option<(&'static str, u32, &'static str)> {
        let value = u32::from(self.value);
        match self.place {
            0 if value == 2 => Some(("size", 5, "")),
            0 => Some(("version", value, "")),
            1 => Some(("protocol", value, "")),
            2 => Some(("length", 256 * value + 19, " 19")),
            3 => Some(("length", value, " 19")),
            16 if value == 2 || value == 3 => Some(("flags", 7, "")),
            16 => Some(("kind", value, "")),
            17 if value > 7 => Some(("flags", value, "")),
            26..=29 => Some(("window", self.number(0, 4, 30), "")),
            _ => None,
        }
    }

    /// The flow of the frame, as the log names it.
    fn flow(self, alloc: Global) -> Option<String> {
        let from = self.number(1, 4, 12);
        let from_port = self.number(10, 2, 20);
        let to_port = self.number(20, 2, 22);
        format!(in alloc; "{from}:{from_port}>2:{to_port}").ok()
    }

    /// The node's log of a packet of this flow that is acknowledged at once.
    fn acknowledged(self, alloc: Global, flow: &str) -> Option<String> {
        let number = self.number(0, 4, 26);
        let next = number.wrapping_add(5);
        let (way, last) = match self.number(1, 4, 12) {
            1 => ("put 1", 999),
            from => ("noroute", from),
        };
        format!(in alloc;
            "10 2 accepted {flow} {number} 5 run\n10 2 acked {flow} {next} 4091\n10 2 {way} {last}\nend 100\n"
        ).ok()
    }

    /// The node's log of a packet of this flow for it: data without the data-run flag meets no record, and a
    /// message that doesn't end is acknowledged later.
    fn heard_of(self, alloc: Global, flow: &str) -> Option<String> {
        let number = self.number(0, 4, 26);
        match self.number(7, 1, 18) {
            flags if flags % 2 == 0 => {
                format!(in alloc; "10 2 dropped {flow} {number}\nend 100\n").ok()
            }
            0..=3 => format!(in alloc; "10 2 accepted {flow} {number} 5 run\nend 100\n").ok(),
            _ => self.acknowledged(alloc, flow),
        }
    }

    /// The node's log of a packet for it: the flow and the number are any.
    fn heard(self, alloc: Global) -> Option<String> {
        let flow = self.flow(alloc)?;
        self.heard_of(alloc, flow.as_str())
    }

    /// The node's log where the frame reads.
    fn log(self, alloc: Global) -> Option<String> {
        match self.number(2, 4, 16) {
            2 => self.heard(alloc),
            // It is passed on, with its life less by the charge of 50 and one millisecond.
            1 => String::from_str(alloc, "10 2 put 1 948\nend 100\n").ok(),
            to => format!(in alloc; "10 2 noroute {to}\nend 100\n").ok(),
        }
    }

    /// Whether the node hears the frame with this octet changed, where it reads.
    fn is_heard(self, alloc: Global) -> bool {
        let octets = self.octets();
        if octets == FRAME || self.fault().is_some() {
            return true;
        }
        match self.log(alloc) {
            Some(log) => hears(alloc, &octets, log.as_str()),
            None => false,
        }
    }
}

/// What the node writes about the frame itself, and at its end.
const HEARD: &str = "10 2 accepted 1:10>2:20 0 5 run
10 2 acked 1:10>2:20 5 4091
10 2 put 1 999
end 100
";

/// What comes to the node, one datagram at each reading, and what it is to write of them.
#[derive(Drop)]
struct Arrivals {
    wire: MemWire,
    readings: Vec<u64>,
    log: String,
}

impl Arrivals {
    /// Nothing has come yet.
    fn new(alloc: Global) -> Option<Self> {
        Some(Arrivals {
            wire: calm_wire(alloc)?,
            readings: vec![in alloc; 1000].ok()?,
            log: String::new(alloc),
        })
    }

    /// These octets come at 10, of which the node writes this.
    fn add(&mut self, octets: &[u8], lines: &str) -> Option<()> {
        self.wire.add_take(1, octets).ok()?;
        self.readings.push(1010).ok()?;
        self.log.push_str(lines).ok()
    }

    /// The frame comes with this octet changed, where it is refused for that.
    fn add_refused(&mut self, alloc: Global, change: ChangedOctet) -> Option<()> {
        match change.fault() {
            Some((word, number, rest)) if change.octets() != FRAME => {
                let line = format!(in alloc; "10 2 bad {word} {number}{rest}\n").ok()?;
                self.add(&change.octets(), line.as_str())
            }
            _ => Some(()),
        }
    }

    /// Whether the node reports each frame that comes and is refused for this octet, and then hears the frame
    /// itself as if none had come, and ends at 100.
    fn are_heard(&mut self, alloc: Global, place: usize) -> Option<bool> {
        for value in 0..=255 {
            self.add_refused(alloc, ChangedOctet { place, value })?;
        }
        self.add(&FRAME, HEARD)?;
        self.readings.push(1100).ok()?;
        Some(writes(alloc, &mut self.wire, &self.readings, self.log.as_str()))
    }
}

/// Whether frames that are refused for this octet change nothing.
fn refuses_at(alloc: Global, place: usize) -> bool {
    match Arrivals::new(alloc) {
        Some(mut arrivals) => arrivals.are_heard(alloc, place) == Some(true),
        None => false,
    }
}

#[test]
fn octets_that_do_not_read_change_nothing(rt: HostRuntime) {
    for place in 0..FRAME.len() {
        holds(&rt, refuses_at(rt.alloc(), place), place);
    }
}

/// Values that each octet is changed to, where the frame is read.
static VALUES: [u8; 11] = [0, 1, 2, 3, 4, 5, 6, 7, 127, 128, 255];

#[test]
fn octets_that_read_are_heard(rt: HostRuntime) {
    for place in 0..FRAME.len() {
        for value in &VALUES {
            let change = ChangedOctet {
                place,
                value: *value,
            };
            holds(&rt, change.is_heard(rt.alloc()), place);
        }
    }
}

/// The node's log of so many first octets of the frame.
fn short_log(alloc: Global, count: usize) -> Option<String> {
    if count < 16 {
        format!(in alloc; "10 2 bad short {count}\nend 100\n").ok()
    } else {
        format!(in alloc; "10 2 bad length 19 {}\nend 100\n", count - 16).ok()
    }
}

/// Whether the node reports the first octets of the frame as too short.
fn is_short(alloc: Global, octets: &[u8]) -> bool {
    match short_log(alloc, octets.len()) {
        Some(log) => hears(alloc, octets, log.as_str()),
        None => false,
    }
}

#[test]
fn each_length(rt: HostRuntime) {
    for count in 0..FRAME.len() {
        holds(&rt, is_short(rt.alloc(), &FRAME[..count]), count);
    }
}
