//! The report of an act, and of a packet that came.
ghost use Rattle.std.specs.Prelude.{◌≡◌};
ghost use Rattle.dt_layout.specs.Spelling.{packet_of};
ghost use Rattle.dt_reports.specs.Told.{told};
ghost use Rattle.dt_flow_model.specs.Frames.{number_in};
ghost use Rattle.dt_host.specs.Answers.{told_done};
ghost use Rattle.dt_world_model.specs.Host.{told_arrival, told_dropped, told_recv, told_send, window_in};

use dt_flow_model::{Arrived, RecvAct, SendAct};
use dt_host::{Act, Done};
use dt_layout::Packet;
use dt_reports::Report;
use dt_units::Flow;

/// What is reported of an act of a host.
pub(crate) fn report_of_act(done: &Done) -> Report<'static>
    ensures { told result ≡ told_done done.now }
{
    let flow = done.flow;
    match done.act {
        Act::Send(act) => report_of_send_act(flow, act),
        Act::Recv(act) => report_of_recv_act(flow, act),
    }
}

// `Sent` and `Resent` tell the same of a cut.
macro_rules! told_cut {
    ($report:ident, $flow:expr, $cut:expr) => {
        Report::$report {
            flow: $flow,
            number: $cut.number,
            length: $cut.length,
            drf: $cut.drf,
            begin: $cut.begin,
            end: $cut.end,
        }
    };
}

fn report_of_send_act(flow: Flow, act: SendAct) -> Report<'static>
    ensures { told result ≡ told_send flow act }
{
    match act {
        SendAct::GaveUp { count } => Report::Uncertain { flow, count },
        SendAct::Released => Report::Released {
            flow,
            sending: true,
        },
        SendAct::Renewed => Report::Renewed { flow },
        SendAct::Resent(cut) => told_cut!(Resent, flow, cut),
        SendAct::Sent(cut) => told_cut!(Sent, flow, cut),
        SendAct::Met { number } => Report::Met { flow, number },
    }
}

fn report_of_recv_act(flow: Flow, act: RecvAct) -> Report<'static>
    ensures { told result ≡ told_recv flow act }
{
    match act {
        RecvAct::Released => Report::Released {
            flow,
            sending: false,
        },
        RecvAct::Acked { number, window } => Report::Acked {
            flow,
            number,
            window,
        },
    }
}

/// What is reported of a packet that came to a host, and of its answer.
pub(crate) fn report_of_arrival(flow: Flow, packet: &Packet<'_>, answer: Arrived) -> Report<'static>
    ensures { told result ≡ told_arrival flow (packet_of packet.now) answer }
{
    match answer {
        Arrived::Quiet { until } => Report::Quiet { until },
        Arrived::Accepted { run, count } => Report::Accepted {
            flow,
            number: number_of(packet),
            length: count,
            run,
        },
        Arrived::Replied { number, window } => Report::Replied {
            flow,
            number,
            window,
        },
        Arrived::Dropped => report_of_dropped(flow, packet),
        Arrived::Acked { count } => Report::Settled {
            flow,
            count,
            window: window_of(packet),
        },
        Arrived::Closing { number } => Report::Closing { flow, number },
    }
}

fn report_of_dropped(flow: Flow, packet: &Packet<'_>) -> Report<'static>
    ensures { told result ≡ told_dropped flow (packet_of packet.now) }
{
    match *packet {
        Packet::Data { number, .. } | Packet::Meet { number, .. } | Packet::Close { number, .. } =>
            { Report::Dropped { flow, number } }
        Packet::Ack { number, window, .. } => Report::Ignored {
            flow,
            number,
            window,
        },
    }
}

// The sequence number that a packet has.
fn number_of(packet: &Packet<'_>) -> u32
    ensures { result ≡ number_in (packet_of packet.now) }
{
    match *packet {
        Packet::Data { number, .. }
        | Packet::Ack { number, .. }
        | Packet::Meet { number, .. }
        | Packet::Close { number, .. } => number,
    }
}

// The window that an acknowledgement has. Nothing else has one.
fn window_of(packet: &Packet<'_>) -> u32
    ensures { result ≡ window_in (packet_of packet.now) }
{
    match *packet {
        Packet::Ack { window, .. } => window,
        Packet::Data { .. } | Packet::Meet { .. } | Packet::Close { .. } => 0,
    }
}
