//! An acknowledgement: its number and window, its packet, and the answer and the act that report it.
ghost use Rattle.std.specs.Prelude.{◌≡◌, ◌≤◌};
ghost use Rattle.dt_layout.specs.Carried.{IsGram};
ghost use Rattle.dt_flow_model.specs.declared.acts.RecvAct.TheVariants.{Acked};
ghost use Rattle.dt_flow_model.specs.declared.arrivals.Arrived.TheVariants.{Replied};
ghost use Rattle.dt_flow_model.specs.Frames.{ack_packet, back};

use dt_flow_model::{Arrived, RecvAct};
use dt_layout::{Frame, Packet, write_frame};
use dt_units::{Flow, Rules};

/// What an acknowledgement says.
#[derive(Clone, Copy)]
pub struct Acknowledgement {
    /// The number that is acknowledged, which the sender's next octet is to have.
    pub number: u32,
    /// How many octets from that number on fit into the queue.
    pub window: u32,
}

impl Acknowledgement {
    /// Makes the frame hold it, on the way back of its flow, with the life `mpl`.
    pub fn write(&self, rules: &Rules, flow: &Flow, frame: &mut Frame)
        requires { self.now.window ≤ rules.now.rcap }
        ensures spelled { frame.new ≡ back rules.now flow.now (ack_packet flow.now self.now.number self.now.window) }
        ensures gram { IsGram frame.new }
    {
        let packet = Packet::Ack {
            from_port: flow.to_port,
            to_port: flow.from_port,
            number: self.number,
            window: self.window,
        };
        write_frame(frame, rules.params().mpl, flow.to.0, flow.from.0, &packet);
    }

    /// The answer to a packet that it replies to.
    pub fn replied(&self) -> Arrived
        ensures { result ≡ Replied self.now.number self.now.window }
    {
        Arrived::Replied {
            number: self.number,
            window: self.window,
        }
    }

    /// What is reported of it as an act.
    pub fn acknowledged(&self) -> RecvAct
        ensures { result ≡ Acked self.now.number self.now.window }
    {
        RecvAct::Acked {
            number: self.number,
            window: self.window,
        }
    }
}
