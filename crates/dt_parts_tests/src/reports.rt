//! Reports and the faults of a setup and of a step.
use dt_items::NoMemory;
use dt_reports::{Report, SetupFault, StepFault, Totals};
use dt_units::{Flow, NodeId};

fn no_setup() -> Result<(), SetupFault> {
    Err(NoMemory)?
}

fn no_step() -> Result<(), StepFault> {
    Err(NoMemory)?
}

#[test]
fn want_of_memory_is_passed_on(rt: HostRuntime) {
    assert!(rt; matches!(no_setup(), Err(SetupFault::NoMemory)));
    assert!(rt; matches!(no_step(), Err(StepFault::NoMemory)));
}

const FLOW: Flow = Flow {
    from: NodeId(1),
    from_port: 10,
    to: NodeId(2),
    to_port: 20,
};

const TOTALS: Totals = Totals {
    taken: 6,
    acked: 1,
    uncertain: 2,
    unsettled: 3,
    given: 5,
    read: 4,
};

/// Whether these totals are reported as those of the flow.
fn are_reported(totals: Totals) -> bool {
    match totals.report(FLOW) {
        Report::FlowTotals {
            flow,
            taken,
            acked,
            uncertain,
            unsettled,
            given,
            read,
        } => {
            let told = Totals {
                taken,
                acked,
                uncertain,
                unsettled,
                given,
                read,
            };
            flow == FLOW && told == totals
        }
        _ => false,
    }
}

#[test]
fn totals_are_reported(rt: HostRuntime) {
    assert!(rt; are_reported(TOTALS));
}
