//! A law of networks whose nodes have shelves. It is the contract of a public function whose body names
//! the laws that it rests on, and does nothing.
#![tactic(auto)]

ghost use Rattle.std.specs.Prelude.{◌≡◌, List};
ghost use Rattle.dt_network.specs.Duties.{KeepsDuties};
ghost use Rattle.dt_network.specs.Network.{Setup, new_network};
ghost use Rattle.dt_network.specs.Steps.{AreSteps, Step, network_by};
ghost use Rattle.dt_early_laws.specs.Shelved.{AreShelfSteps, KeepShelvesDuties, ShelfStep, Without, new_shelved, shelved_by};

use dt_early::shelf_is_a_link_that_delays;
use dt_layout::laws::unrefused_spells;

/// A NETWORK WITH SHELVES IS A NETWORK. Take any steps of a network whose nodes have shelves, in which the
/// duties are kept for each datagram when it comes. Then there are steps of a network without shelves that
/// leave the same network, in which the duties are kept for each datagram when it is handed in: it was under
/// way for longer, and has waited so much longer. The sends, the reads and all else but the arrivals are the
/// same, in the same order. So what is proved of networks is true of nodes with shelves.
pub fn shelved_network_is_a_network()
    ensures { (setup : Setup) (shelved : List ShelfStep) →
        AreShelfSteps setup shelved (new_shelved setup) → KeepShelvesDuties setup shelved (new_shelved setup) →
        (steps : List Step) × Without shelved steps
        × AreSteps setup steps (new_network setup) × KeepsDuties setup steps (new_network setup)
        × (network_by steps (new_network setup) ≡ (shelved_by shelved (new_shelved setup)).network) }
{
    shelf_is_a_link_that_delays();
    unrefused_spells();
}
