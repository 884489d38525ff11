//! Whole messages over a network.
ghost use Rattle.std.specs.Prelude.{ℕ, ◌≡◌, false, List, None, Option};
ghost use Rattle.dt_items.specs.declared.item.Item.{Item};
ghost use Rattle.dt_units.specs.declared.endpoints.Flow.{Flow};
ghost use Rattle.dt_units.specs.Limits.{IsWithinLimits};
ghost use Rattle.dt_calls_laws.specs.Wholes.{AreSome, items_of_all};
ghost use Rattle.dt_network.specs.Duties.{KeepsDuties};
ghost use Rattle.dt_network.specs.Network.{Setup, new_network};
ghost use Rattle.dt_network.specs.Octets.{AreTaken, IsReadOf};
ghost use Rattle.dt_network.specs.Steps.{AreSteps, Step};
ghost use Rattle.dt_service_laws.specs.Orders.{AreSomeOf};
ghost use Rattle.dt_service_laws.specs.Reading.{messages_read};
ghost use Rattle.dt_service_laws.specs.Wholes.{messages_in};

use dt_network::what_is_read_is_what_was_sent;

/// WHOLE MESSAGES COME ONCE, AND IN ORDER. Where a program keeps its duties, the messages that it puts
/// together from what it reads of a flow are messages of the octets that the sends of the flow took:
/// each at most once, and in the order of their sending. Some may be left out. It holds over all openings
/// of the flow's nodes, with a longest message or without.
pub fn whole_messages_come_once_and_in_order()
    ensures network { (setup : Setup) (steps : List Step) (f : Flow) (longest : Option ℕ) → IsWithinLimits setup.params → AreSteps setup steps (new_network setup) → KeepsDuties setup steps (new_network setup) → (taken : List Item) × AreTaken f steps taken × AreSomeOf (messages_read longest f None steps) (messages_in taken) }
    ensures octets { (read taken : List Item) → IsReadOf false read taken → AreSomeOf (messages_in read) (messages_in taken) }
{
    what_is_read_is_what_was_sent();
}

/// Messages that were sent whole, side by side, are the messages of their octets.
pub fn messages_sent_whole_are_those_that_were_sent()
    ensures { (messages : List (List ℕ)) → AreSome messages → messages_in (items_of_all messages) ≡ messages }
{}
