//! The octets of a frame that a sender leaves.
use dt_layout::Frame;

/// The octets of a frame with a life of 1,000 ms from node 1 to node 2, before its body of so many.
fn gram_head(body: u8) -> [u8; 16] {
    [1, 1, 0, body, 0, 0, 3, 232, 0, 0, 0, 1, 0, 0, 0, 2]
}

/// The octets of a packet's kind, flags, ports 10 and 20, number and window 0.
fn packet_head(kind: u8, flags: u8, number: [u8; 4]) -> [u8; 14] {
    let [a, b, c, d] = number;
    [kind, flags, 0, 10, 0, 20, a, b, c, d, 0, 0, 0, 0]
}

/// Whether a mark of a packet is written as the log writes it: `d` data-run flag, `b` begin, `e` end.
pub fn has(marks: &[u8], mark: u8) -> bool {
    marks.contains(&mark)
}

fn flags(marks: &[u8]) -> u8 {
    u8::from(has(marks, b'd')) + 2 * u8::from(has(marks, b'b')) + 4 * u8::from(has(marks, b'e'))
}

/// Whether the octets are a Deltagram's head and a body of so many.
fn is_gram(head: Option<&[u8]>, body: usize) -> bool {
    match head {
        Some(head) => body <= 255 && head == gram_head(body as u8).as_slice(),
        None => false,
    }
}

/// Whether a body has this head and these octets after it.
fn is_body(body: &[u8], head: &[u8; 14], octets: &[u8]) -> bool {
    body.starts_with(head) && body.get(14..) == Some(octets)
}

/// Whether the frame holds exactly this packet.
pub fn holds(frame: &Frame, kind: u8, marks: &[u8], number: u32, octets: &[u8]) -> bool {
    let bytes = frame.as_slice();
    let head = packet_head(kind, flags(marks), number.to_be_bytes());
    match bytes.get(16..) {
        Some(body) => is_gram(bytes.get(..16), body.len()) && is_body(body, &head, octets),
        None => false,
    }
}
