//! What a user of a node asks of it.
ghost use Rattle.std.specs.Prelude.{◌≡◌, IfOk, IsTrue, OnErr};
ghost use Rattle.dt_text.specs.Hexadecimal.{are_pairs, octets_of_hex};
ghost use Rattle.dt_text.specs.Said.{user_said};
ghost use Rattle.dt_text.specs.Tasks.{HasOctets, HasPairs, Sends, task_of, task_seen};

use crate::hexadecimal::decode_hex;
use crate::lines::UserLine;
use dt_items::NoMemory;
use dt_units::Flow;
use std::alloc::Global;

/// What a user of a node asks of it.
#[derive(Drop)]
pub enum Task {
    /// Octets are sent, 1 to 65,536. The first begins a message and the last ends one, where that is
    /// asked for.
    Send {
        flow: Flow,
        begin: bool,
        end: bool,
        octets: Vec<u8>,
    },
    /// Unread octets are read, at most so many, 1 to 65,536.
    Read {
        flow: Flow,
        max: u32,
    },
}

impl Task {
    /// What a line asks for. The octets that its digits spell are put into memory of `alloc`; `NoMemory`
    /// comes only where there is none for them, so never for a read. The cost is the line.
    pub fn of(line: &UserLine<'_>, alloc: Global) -> Result<Task, NoMemory>
        requires pairs { HasPairs (user_said line.now) }
        ensures task { IfOk result (λ task. task_seen task ≡ task_of (user_said line.now)) }
        ensures memory { OnErr result (HasOctets (user_said line.now)) }
    {
        match *line {
            UserLine::Send {
                flow,
                begin,
                end,
                hex,
            } => {
                let mut octets = Vec::new(alloc);
                decode_hex(hex, &mut octets)?;
                Ok(Task::Send {
                    flow,
                    begin,
                    end,
                    octets,
                })
            }
            UserLine::Read { flow, max } => Ok(Task::Read { flow, max }),
        }
    }
}
