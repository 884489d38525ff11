//! The message of a call: its number in front of what it carries.
ghost use Rattle.std.specs.Prelude.{◌≡◌, OnOk};
ghost use Rattle.dt_calls_model.specs.Messages.{message_of};
ghost use Rattle.dt_service_model.specs.Names.{to_u64};

use dt_items::NoMemory;
use dt_service_model::CallNumber;

/// Puts the message of a call in place of what was in `message`. After `NoMemory` it isn't said what
/// stands there. The cost is that of what the message carries.
pub fn write_message(
    number: CallNumber,
    carried: &[u8],
    message: &mut Vec<u8>,
) -> Result<(), NoMemory>
    ensures { OnOk result (message.new.items ≡ message_of (to_u64 number) carried.now) }
{
    dt_messages::write_message(number.to_u64(), carried, message)
}
