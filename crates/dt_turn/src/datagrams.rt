//! What came for a turn.
ghost use Rattle.std.specs.Prelude.{◌≡◌, ◌≤◌, IfSome, length};
ghost use Rattle.dt_edges.specs.Wires.{handed};
ghost use Rattle.dt_turn.specs.Codes.{arrived};

/// A datagram that came on a link.
#[derive(Clone, Copy)]
pub struct LinkDatagram<'a> {
    pub link: u16,
    pub octets: &'a [u8],
}

/// What a take handed over: a link, and how many octets it put first into the buffer.
pub fn datagram_of(found: Option<(u16, usize)>, buf: &[u8]) -> Option<LinkDatagram<'_>>
    requires { IfSome found (λ d. d.1 ≤ length buf.now) }
    ensures { arrived result ≡ handed found buf.now }
{
    match found {
        Some((link, count)) => Some(LinkDatagram {
            link,
            octets: &buf[..count],
        }),
        None => None,
    }
}
