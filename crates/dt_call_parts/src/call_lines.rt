//! What is reported of calls.
use dt_units::Flow;

/// What is reported of a call, which has this number.
#[derive(Clone, Copy)]
pub enum CallLine<'a> {
    /// It is made, with a payload of `count` octets.
    Call { call: u64, flow: Flow, count: u32 },
    /// The client's host refused it.
    Declined { call: u64 },
    /// It was served.
    Served { call: u64 },
    /// Its answer came.
    Answered { call: u64, payload: &'a [u8] },
    /// Its answer may never come.
    Unsure { call: u64 },
}

/// Receives the lines of calls, in order.
pub trait CallLines {
    ghost use Rattle.dt_calls_model.specs.CallTold.{CallEntry};
    ghost use Rattle.dt_call_parts.specs.Telling.{call_entry};

    ghost tells: { Self → CallEntry → Self → Type 0 };

    /// The next line, reported at this moment of the world, in ms.
    fn line(&mut self, moment: u64, line: &CallLine<'_>)
        ensures { tells self.old (call_entry moment line.now) self.new };
}
