//! The acts of the host, until none is due.
ghost use Rattle.std.specs.Prelude.{◌≡◌, OnOk};
ghost use Rattle.dt_world_model.specs.Host.{IsCurrentHost, work};
ghost use Rattle.dt_world_model.specs.Script.{Concludes};
ghost use Rattle.dt_world_model.specs.Station.{do_turns};
ghost use Rattle.dt_station.specs.Acts.{makes_frame};
ghost use Rattle.dt_station.specs.Stations.{Stays};

use crate::passing::send_off;
use crate::stations::Station;
use crate::telling::report_of_act;
use crate::visitor::Visitor;
use dt_flow_model::{RecvAct, SendAct};
use dt_host::Act;
use dt_items::NoMemory;
use dt_relay::Carry;
use dt_units::Steps;
use std::sync::ledger::Ledger;

impl<P: Carry> Station<P> {
    /// Does the acts of the host until none is due. Each is reported, and then its frame goes off, which is
    /// made in the station's.
    pub(crate) fn do_turns<V: Visitor<P>, L: Ledger>(
        &mut self,
        steps: &mut Steps<L>,
        visitor: &mut V,
    ) -> Result<(), NoMemory>
        ensures ends { Concludes V.tells (V.tags self.old.latest) V.hands V.fails result (do_turns (work self.old.rules self.old.latest self.old.state.host) self.old.rules self.old.latest self.old.state) visitor.old visitor.new self.new.state }
        ensures current { OnOk result (IsCurrentHost self.new.rules self.new.latest self.new.state.host) }
        ensures stays { Stays self.old self.new }
    {
        'turns: while let Some(done) = self.host.next(self.latest.ms, &mut *self.frame, steps) {
            visitor.tell(&report_of_act(&done));
            if !makes_frame(&done.act) {
                continue;
            }
            send_off(
                &*self.host,
                &mut *self.relay,
                &mut *self.frame,
                self.latest,
                visitor,
            )?;
        }
        Ok(())
    }
}

/// Whether an act makes a frame.
fn makes_frame(act: &Act) -> bool
    ensures { result ≡ makes_frame act.now }
{
    match act {
        Act::Send(SendAct::GaveUp { .. } | SendAct::Released | SendAct::Renewed) => false,
        Act::Send(SendAct::Resent(_) | SendAct::Sent(_) | SendAct::Met { .. }) => true,
        Act::Recv(RecvAct::Released) => false,
        Act::Recv(RecvAct::Acked { .. }) => true,
    }
}
