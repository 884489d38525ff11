//! The reasons for which a host takes no octets: silence after a restart, no room, or out of memory.
use dt_flow_model::PutFault;
use dt_items::NoMemory;

/// Why a host took no octets. Its records are as they were.
#[derive(Clone, Copy, Debug, PartialEq, Eq)]
pub enum SendFault {
    /// The host is silent until this moment of its clock, in milliseconds.
    Quiet { until: u64 },
    /// The octets don't fit: the flow's sender holds all but `free` octets of its capacity, 0 to
    /// 65,536. Without a sender all of it is free.
    Full { free: u32 },
    /// There was no memory for the flow's sender, which had to be made.
    NoMemory,
}

impl From<PutFault> for SendFault {
    ghost use Rattle.std.specs.Prelude.{◌≡◌};
    ghost use Rattle.dt_host.specs.Answers.{send_fault_of};

    ghost from_gives = { λ fault answer. answer ≡ send_fault_of fault };

    fn from(fault: PutFault) -> SendFault {
        match fault {
            PutFault::Full { free } => SendFault::Full { free },
        }
    }
}

impl From<NoMemory> for SendFault {
    ghost use Rattle.std.specs.Prelude.{◌≡◌};
    ghost use Rattle.dt_host.specs.declared.faults.SendFault.TheVariants as fault;

    ghost from_gives = { λ _ answer. answer ≡ fault.NoMemory };

    fn from(_: NoMemory) -> SendFault {
        SendFault::NoMemory
    }
}
