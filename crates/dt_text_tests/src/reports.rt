//! The line of each report.
use crate::forms::holds;
use crate::writing::{is_line, is_written};
use dt_edges::{Failed, MemSink};
use dt_layout::LayoutFault;
use dt_log::write_line;
use dt_reports::{LogLine, Refusal, Report};
use dt_units::{Flow, NodeId};

const FLOW: Flow = Flow {
    from: NodeId(1),
    from_port: 10,
    to: NodeId(4_294_967_295),
    to_port: 0,
};

/// Each report, and the line of it.
static REPORTS: [(Report<'static>, &str); 39] = [
    (
        Report::Took {
            flow: FLOW,
            count: 5,
        },
        "40 2 took 1:10>4294967295:0 5\n",
    ),
    (
        Report::Refused {
            flow: FLOW,
            fault: Refusal::Quiet { until: 3340 },
        },
        "40 2 refused 1:10>4294967295:0 quiet 3340\n",
    ),
    (
        Report::Refused {
            flow: FLOW,
            fault: Refusal::Full { free: 2 },
        },
        "40 2 refused 1:10>4294967295:0 full 2\n",
    ),
    (
        Report::Sent {
            flow: FLOW,
            number: 0,
            length: 5,
            drf: true,
            begin: true,
            end: true,
        },
        "40 2 sent 1:10>4294967295:0 0 5 dbe\n",
    ),
    (
        Report::Sent {
            flow: FLOW,
            number: 4,
            length: 4,
            drf: false,
            begin: false,
            end: false,
        },
        "40 2 sent 1:10>4294967295:0 4 4 -\n",
    ),
    (
        Report::Resent {
            flow: FLOW,
            number: 4,
            length: 3,
            drf: false,
            begin: false,
            end: true,
        },
        "40 2 resent 1:10>4294967295:0 4 3 e\n",
    ),
    (
        Report::Met {
            flow: FLOW,
            number: 7,
        },
        "40 2 met 1:10>4294967295:0 7\n",
    ),
    (
        Report::Uncertain {
            flow: FLOW,
            count: 7,
        },
        "40 2 uncertain 1:10>4294967295:0 7\n",
    ),
    (
        Report::Released {
            flow: FLOW,
            sending: true,
        },
        "40 2 released 1:10>4294967295:0 send\n",
    ),
    (
        Report::Released {
            flow: FLOW,
            sending: false,
        },
        "40 2 released 1:10>4294967295:0 receive\n",
    ),
    (
        Report::Renewed { flow: FLOW },
        "40 2 renewed 1:10>4294967295:0\n",
    ),
    (
        Report::Acked {
            flow: FLOW,
            number: 5,
            window: 4091,
        },
        "40 2 acked 1:10>4294967295:0 5 4091\n",
    ),
    (
        Report::Replied {
            flow: FLOW,
            number: 5,
            window: 0,
        },
        "40 2 replied 1:10>4294967295:0 5 0\n",
    ),
    (
        Report::Accepted {
            flow: FLOW,
            number: 0,
            length: 5,
            run: true,
        },
        "40 2 accepted 1:10>4294967295:0 0 5 run\n",
    ),
    (
        Report::Accepted {
            flow: FLOW,
            number: 5,
            length: 1,
            run: false,
        },
        "40 2 accepted 1:10>4294967295:0 5 1 on\n",
    ),
    (
        Report::Dropped {
            flow: FLOW,
            number: 9,
        },
        "40 2 dropped 1:10>4294967295:0 9\n",
    ),
    (
        Report::Closing {
            flow: FLOW,
            number: 4_294_967_295,
        },
        "40 2 closing 1:10>4294967295:0 4294967295\n",
    ),
    (
        Report::Settled {
            flow: FLOW,
            count: 5,
            window: 4091,
        },
        "40 2 settled 1:10>4294967295:0 5 4091\n",
    ),
    (
        Report::Ignored {
            flow: FLOW,
            number: 5,
            window: 4091,
        },
        "40 2 ignored 1:10>4294967295:0 5 4091\n",
    ),
    (
        Report::Quiet {
            until: 18_446_744_073_709_551_615,
        },
        "40 2 quiet 18446744073709551615\n",
    ),
    (
        Report::Read {
            flow: FLOW,
            run: true,
            begin: true,
            end: true,
            octets: b"hello",
        },
        "40 2 read 1:10>4294967295:0 rbe 68656c6c6f\n",
    ),
    (
        Report::Read {
            flow: FLOW,
            run: false,
            begin: true,
            end: false,
            octets: b"\x00\xfa",
        },
        "40 2 read 1:10>4294967295:0 b 00fa\n",
    ),
    (
        Report::Nothing { flow: FLOW },
        "40 2 nothing 1:10>4294967295:0\n",
    ),
    (Report::Put { link: 1, life: 999 }, "40 2 put 1 999\n"),
    (
        Report::PutAs {
            link: 1,
            life: 999,
            copy: 0,
        },
        "40 2 put 1 999 as 0\n",
    ),
    (Report::ExpiredIn { link: 255 }, "40 2 expired in 255\n"),
    (Report::ExpiredOut { link: 255 }, "40 2 expired out 255\n"),
    (Report::NoRoute { to: 3 }, "40 2 noroute 3\n"),
    (Report::Full { link: 1 }, "40 2 full 1\n"),
    (
        Report::Bad {
            fault: LayoutFault::Dead,
        },
        "40 2 bad dead\n",
    ),
    (Report::Unsent { link: 1 }, "40 2 unsent 1\n"),
    (
        Report::Shelved {
            flow: FLOW,
            number: 4,
        },
        "40 2 shelved 1:10>4294967295:0 4\n",
    ),
    (
        Report::NoShelf {
            flow: FLOW,
            number: 8,
        },
        "40 2 noshelf 1:10>4294967295:0 8\n",
    ),
    (
        Report::Again {
            flow: FLOW,
            number: 0,
        },
        "40 2 again 1:10>4294967295:0 0\n",
    ),
    (
        Report::Stale {
            flow: FLOW,
            number: 4_294_967_295,
        },
        "40 2 stale 1:10>4294967295:0 4294967295\n",
    ),
    (Report::Restarted { life: 1 }, "40 2 restarted 1\n"),
    (Report::Lost { copy: 3 }, "40 lost 3\n"),
    (
        Report::FlowTotals {
            flow: FLOW,
            taken: 12,
            acked: 5,
            uncertain: 4,
            unsettled: 3,
            given: 6,
            read: 1,
        },
        "flow 1:10>4294967295:0 taken 12 acked 5 uncertain 4 open 3 given 6 read 1\n",
    ),
    (Report::End, "end 40\n"),
];

#[test]
fn each_report_has_its_line(rt: HostRuntime) {
    for (report, text) in &REPORTS {
        holds(&rt, is_written(rt.alloc(), *report, text), text);
    }
}

/// A line without a node.
static LINE: LogLine<'static> = LogLine {
    moment: 40,
    node: None,
    report: Report::NoRoute { to: 3 },
};

#[test]
fn a_line_without_a_node_leaves_its_word_out(rt: HostRuntime) {
    assert!(rt; is_line(rt.alloc(), &LINE, b"40 noroute 3\n"));
}

#[test]
fn a_put_that_fails_leaves_a_part(rt: HostRuntime) {
    let mut sink = MemSink::new(rt.alloc(), 512, &[3]).expect(&rt, "memory");
    assert!(rt; write_line(&LINE, &mut sink) == Err(Failed));
    assert!(rt; b"40 noroute 3".starts_with(sink.as_slice()));
}
