//! The scripts and the datagrams that rows name by a letter.

/// Two nodes over one link, and this is node 1. It sends five octets at once, and stops at 100.
pub const FIRST: &str = "params 1000 3000 200 500 800 100 4096 4096 512 2147483648
me 1 first
local 127.0.0.1:4001
peer 1 127.0.0.1:4002 50 0
route 2 1
go
at 0 send 1:10>2:20 be 68656c6c6f
at 100 stop
";

/// The same node, which begins again.
const AGAIN: &str = "params 1000 3000 200 500 800 100 4096 4096 512 2147483648
me 1 again
local 127.0.0.1:4001
peer 1 127.0.0.1:4002 50 0
route 2 1
go
at 0 send 1:10>2:20 be 68656c6c6f
at 100 stop
";

/// The other node, which reads at 10.
const OTHER: &str = "params 1000 3000 200 500 800 100 4096 4096 512 2147483648
me 2 first
local 127.0.0.1:4002
peer 1 127.0.0.1:4001 50 0
route 1 1
go
at 10 read 1:10>2:20 100
at 100 stop
";

/// The other node, which doesn't read.
const HEARS: &str = "params 1000 3000 200 500 800 100 4096 4096 512 2147483648
me 2 first
local 127.0.0.1:4002
peer 1 127.0.0.1:4001 50 0
route 1 1
go
at 100 stop
";

/// Node 2 with a shelf for four packets.
const SHELF: &str = "params 1000 3000 200 500 800 4 4096 4096 512 2147483648
me 2 first
local 127.0.0.1:4002
peer 1 127.0.0.1:4001 50 0
route 1 1
shelf 4
go
at 100 stop
";

/// The same with a shelf for one packet.
const SMALL_SHELF: &str = "params 1000 3000 200 500 800 4 4096 4096 512 2147483648
me 2 first
local 127.0.0.1:4002
peer 1 127.0.0.1:4001 50 0
route 1 1
shelf 1
go
at 100 stop
";

/// Scripts that are refused: one that ends too early, a route on no link, a flow of other nodes, two
/// shelves, a command after the stop, and a line with too few words.
const UNFINISHED: &str = "params 1000 3000 200 500 800 100 4096 4096 512 2147483648
me 1 first
";

const STRAY: &str = "params 1000 3000 200 500 800 100 4096 4096 512 2147483648
me 1 first
local 127.0.0.1:4001
route 1 1
";

const FOREIGN: &str = "params 1000 3000 200 500 800 100 4096 4096 512 2147483648
me 1 first
local 127.0.0.1:4001
go
at 0 send 3:1>2:1 be 00
at 1 stop
";

const TWICE: &str = "params 1000 3000 200 500 800 100 4096 4096 512 2147483648
me 1 first
local 127.0.0.1:4001
shelf 4
shelf 5
go
at 1 stop
";

const BEHIND: &str = "params 1000 3000 200 500 800 100 4096 4096 512 2147483648
me 1 first
local 127.0.0.1:4001
go
at 1 stop
at 2 stop
";

const SHORT: &str = "params 1
";

/// The script of a name.
pub fn script(name: &str) -> &'static str {
    match name {
        "first" => FIRST,
        "again" => AGAIN,
        "other" => OTHER,
        "hears" => HEARS,
        "shelf" => SHELF,
        "small shelf" => SMALL_SHELF,
        _ => refused_script(name),
    }
}

fn refused_script(name: &str) -> &'static str {
    match name {
        "unfinished" => UNFINISHED,
        "stray" => STRAY,
        "foreign" => FOREIGN,
        "twice" => TWICE,
        "behind" => BEHIND,
        _ => SHORT,
    }
}

/// What node 1 sends: five octets, as they leave it.
const DATA: &[u8] =
    b"\x01\x01\x00\x13\x00\x00\x03\xe7\x00\x00\x00\x01\x00\x00\x00\x02\x01\x07\x00\x0a\x00\x14\x00\x00\x00\x00\x00\x00\x00\x00hello";

/// What node 2 answers: an acknowledgement of five octets.
const ACK: &[u8] =
    b"\x01\x01\x00\x0e\x00\x00\x03\xe7\x00\x00\x00\x02\x00\x00\x00\x01\x02\x00\x00\x14\x00\x0a\x00\x00\x00\x05\x00\x00\x0f\xfb";

/// A closing packet of node 1, after five octets.
const CLOSE: &[u8] =
    b"\x02\x01\x00\x0e\x00\x00\x03\xe7\x00\x00\x00\x01\x00\x00\x00\x02\x04\x00\x00\x0a\x00\x14\x00\x00\x00\x05\x00\x00\x00\x00";

/// The first 15 octets of `DATA`.
const FIFTEEN: &[u8] = b"\x01\x01\x00\x13\x00\x00\x03\xe7\x00\x00\x00\x01\x00\x00\x00";

/// The first four octets of a message of node 1, the next four, and the last four.
const ABCD: &[u8] =
    b"\x01\x01\x00\x12\x00\x00\x03\xe7\x00\x00\x00\x01\x00\x00\x00\x02\x01\x03\x00\x0a\x00\x14\x00\x00\x00\x00\x00\x00\x00\x00abcd";

const EFGH: &[u8] =
    b"\x01\x01\x00\x12\x00\x00\x03\xe7\x00\x00\x00\x01\x00\x00\x00\x02\x01\x04\x00\x0a\x00\x14\x00\x00\x00\x04\x00\x00\x00\x00efgh";

const IJKL: &[u8] =
    b"\x01\x01\x00\x12\x00\x00\x03\xe7\x00\x00\x00\x01\x00\x00\x00\x02\x01\x04\x00\x0a\x00\x14\x00\x00\x00\x08\x00\x00\x00\x00ijkl";

/// The first two, with a life of 51 ms.
const OLD_ABCD: &[u8] =
    b"\x01\x01\x00\x12\x00\x00\x00\x33\x00\x00\x00\x01\x00\x00\x00\x02\x01\x03\x00\x0a\x00\x14\x00\x00\x00\x00\x00\x00\x00\x00abcd";

const OLD_EFGH: &[u8] =
    b"\x01\x01\x00\x12\x00\x00\x00\x33\x00\x00\x00\x01\x00\x00\x00\x02\x01\x04\x00\x0a\x00\x14\x00\x00\x00\x04\x00\x00\x00\x00efgh";

/// The datagram of a name, or none.
pub fn datagram(name: &str) -> Option<&'static [u8]> {
    match name {
        "data" => Some(DATA),
        "ack" => Some(ACK),
        "close" => Some(CLOSE),
        "fifteen" => Some(FIFTEEN),
        _ => piece(name),
    }
}

fn piece(name: &str) -> Option<&'static [u8]> {
    match name {
        "abcd" => Some(ABCD),
        "efgh" => Some(EFGH),
        "ijkl" => Some(IJKL),
        "old abcd" => Some(OLD_ABCD),
        "old efgh" => Some(OLD_EFGH),
        _ => None,
    }
}
