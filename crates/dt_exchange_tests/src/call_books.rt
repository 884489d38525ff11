//! A client and a server by their call books alone: pieces and reports are handed in by hand.
use dt_call_book::{CallBook, reversed, write_message};
use dt_items::NoMemory;
use dt_messages::Marks;
use dt_reports::Report;
use dt_service_model::{CallNumber, Cause, Happening, Most, PortKind, Token};
use dt_units::{Flow, NodeId};
use std::alloc::Global;

// From a caller's port to a service's.
const FLOW: Flow = Flow {
    from: NodeId(1),
    from_port: 10,
    to: NodeId(2),
    to_port: 20,
};

const MOST: Most = Most {
    calls: 8,
    requests: 8,
    of_a_flow: 8,
};

const FIRST: CallNumber = CallNumber { life: 5, count: 0 };

// The first call of a life: it is made at 0 and waits until 1,000.
fn calls(client: &mut CallBook) -> Result<bool, NoMemory> {
    let is_new = client.set_kind(10, PortKind::Caller)?;
    if client.next_number() != Some(FIRST) {
        return Ok(false);
    }
    client.add_call(FLOW, 9, 1000)?;
    Ok(is_new)
}

// A whole message of a flow is handed in as one piece, which begins a run.
fn comes(alloc: Global, book: &mut CallBook, flow: Flow, carried: &[u8]) -> Result<(), NoMemory> {
    let mut message = Vec::new(alloc);
    write_message(FIRST, carried, &mut message)?;
    let marks = Marks {
        run: true,
        begin: true,
        end: true,
    };
    book.take_piece(alloc, flow, marks, &message)
}

fn is_request(happening: &Option<Happening>, carried: &[u8]) -> bool {
    match happening {
        Some(Happening::Request { token, payload }) => {
            token.flow == FLOW && token.number == FIRST && payload.octets.as_slice() == carried
        }
        _ => false,
    }
}

fn is_answer(happening: &Option<Happening>, carried: &[u8]) -> bool {
    match happening {
        Some(Happening::Answered { call, answer }) => {
            *call == FIRST && answer.octets.as_slice() == carried
        }
        _ => false,
    }
}

// Whether what the client tells next is the answer.
fn answers(client: &mut CallBook) -> bool {
    is_answer(&client.next_happening(), b"A")
}

fn is_unsure(happening: &Option<Happening>, why: Cause) -> bool {
    match happening {
        Some(Happening::Unsure { call, cause }) => *call == FIRST && *cause == why,
        _ => false,
    }
}

// Whether the call ends so.
fn ends_unsure(client: &mut CallBook, why: Cause) -> bool {
    is_unsure(&client.next_happening(), why)
}

// Whether anything is told.
fn tells(client: &mut CallBook) -> bool {
    client.next_happening().is_some()
}

// Whether the request is open and told.
fn asks(server: &mut CallBook) -> bool {
    let token = Token {
        flow: FLOW,
        number: FIRST,
    };
    server.is_open(&token) && is_request(&server.next_happening(), b"a")
}

// Whether the port is new, and the flow of octets that were accepted is unread.
fn hears(alloc: Global, server: &mut CallBook) -> Result<bool, NoMemory> {
    let is_new = server.set_kind(20, PortKind::Service)?;
    let accepted = Report::Accepted {
        flow: FLOW,
        number: 0,
        length: 9,
        run: true,
    };
    server.hear(&accepted)?;
    Ok(is_new && server.unread(alloc)?.as_slice() == [FLOW].as_slice())
}

fn serves(alloc: Global, server: &mut CallBook) -> Result<bool, NoMemory> {
    let is_heard = hears(alloc, server)?;
    comes(alloc, server, FLOW, b"a")?;
    Ok(is_heard && asks(server))
}

// Whether the call is handed out to the server, and its answer to the client.
fn is_answered(
    alloc: Global,
    client: &mut CallBook,
    server: &mut CallBook,
) -> Result<bool, NoMemory> {
    let is_served = calls(client)? && serves(alloc, server)?;
    comes(alloc, client, reversed(FLOW), b"A")?;
    client.judge(1)?;
    Ok(is_served && answers(client))
}

// The same of a server that begins.
fn is_served(alloc: Global, client: &mut CallBook) -> Result<bool, NoMemory> {
    let mut server = CallBook::new(alloc, MOST, 1)?;
    is_answered(alloc, client, &mut server)
}

#[test]
fn a_call_is_handed_out_and_answered(rt: HostRuntime) {
    assert!(rt; ends(rt.alloc(), End::Answered) == Ok(true));
}

// Whether the call ends at 1,000 for its patience, and not at 999.
fn runs_out(client: &mut CallBook) -> Result<bool, NoMemory> {
    let is_made = calls(client)?;
    client.judge(999)?;
    let is_early = tells(client);
    client.judge(1000)?;
    Ok(is_made && !is_early && ends_unsure(client, Cause::Patience))
}

#[test]
fn patience_ends_a_call(rt: HostRuntime) {
    assert!(rt; ends(rt.alloc(), End::Patience) == Ok(true));
}

// Whether the call ends, since the octets of its request are given up.
fn is_given_up(client: &mut CallBook) -> Result<bool, NoMemory> {
    let is_made = calls(client)?;
    client.hear(&Report::Uncertain {
        flow: FLOW,
        count: 9,
    })?;
    client.judge(1)?;
    Ok(is_made && ends_unsure(client, Cause::GivenUp))
}

// How a call is to end.
#[derive(Drop)]
enum End {
    Answered,
    Patience,
    GivenUp,
}

// Whether the call of a client that begins ends so.
fn ends(alloc: Global, end: End) -> Result<bool, NoMemory> {
    let mut client = CallBook::new(alloc, MOST, 5)?;
    match end {
        End::Answered => is_served(alloc, &mut client),
        End::Patience => runs_out(&mut client),
        End::GivenUp => is_given_up(&mut client),
    }
}

#[test]
fn octets_that_are_given_up_end_a_call(rt: HostRuntime) {
    assert!(rt; ends(rt.alloc(), End::GivenUp) == Ok(true));
}
