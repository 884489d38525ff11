//! Messages of calls: the number of the call in eight octets, the highest first, and what it carries.
ghost use Rattle.std.specs.Prelude.{◌≡◌, true, false, MatchOption, OnOk};
ghost use Rattle.dt_units.specs.Flows.{IsFlow};
ghost use Rattle.dt_calls_model.specs.Messages.{carried_in, has_number, message_of, number_in, reversed};

use dt_items::NoMemory;
use dt_units::Flow;

/// How many octets the number of a call takes.
const NUMBER: usize = 8;

/// The way of the replies to the requests that go along a flow.
pub fn reversed(flow: Flow) -> Flow
    ensures flow { result ≡ reversed flow }
    ensures range { IsFlow result }
{
    Flow {
        from: flow.to,
        from_port: flow.to_port,
        to: flow.from,
        to_port: flow.from_port,
    }
}

/// Puts the message of a call in place of what was in `message`. After `NoMemory` it isn't said what
/// stands there. The cost is that of what the message carries.
pub fn write_message(call: u64, carried: &[u8], message: &mut Vec<u8>) -> Result<(), NoMemory>
    ensures { OnOk result (message.new.items ≡ message_of call carried.now) }
{
    message.clear();
    message.extend_from_slice(&call.to_be_bytes())?;
    message.extend_from_slice(carried)?;
    Ok(())
}

/// The number in a message, and what it carries. `None` exactly where it has fewer than eight octets.
pub fn read_message(message: &[u8]) -> Option<(u64, &[u8])>
    ensures { MatchOption result (has_number message.now ≡ false)
        (λ read. (has_number message.now ≡ true) × (read.0 ≡ number_in message.now) × (read.1.now ≡ carried_in message.now)) }
{
    if message.len() < NUMBER {
        return None;
    }
    let number = [
        message[0], message[1], message[2], message[3], message[4], message[5], message[6],
        message[7],
    ];
    Some((u64::from_be_bytes(number), &message[NUMBER..]))
}
