//! Laws of the messages that a mailbox hands out. Each is the contract of a public function whose body
//! names the law of networks that it stands on, and does nothing.
#![tactic(auto)]

ghost use Rattle.std.specs.Prelude.{ℕ, ◌≡◌, ◌++◌, ◌∷◌, [], List, None, Option, Some, false};
ghost use Rattle.std.specs.List.{All};
ghost use Rattle.dt_items.specs.declared.item.Item.{Item};
ghost use Rattle.dt_units.specs.declared.endpoints.Flow.{Flow};
ghost use Rattle.dt_units.specs.Limits.{IsWithinLimits};
ghost use Rattle.dt_calls_model.specs.Messages.{Piece};
ghost use Rattle.dt_messages.specs.Joining.{JoinerValue, MessageValue, NoneWhole, joiner_by, message_with};
ghost use Rattle.dt_inbox.specs.declared.mailboxes.Letter.{Letter};
ghost use Rattle.dt_inbox.specs.Mailboxes.{new_mailbox};
ghost use Rattle.dt_network.specs.Duties.{KeepsDuties};
ghost use Rattle.dt_network.specs.Network.{Setup, new_network};
ghost use Rattle.dt_network.specs.Octets.{AreTaken, all_read};
ghost use Rattle.dt_network.specs.Steps.{AreSteps, Step};
ghost use Rattle.dt_service_laws.specs.Orders.{AreSomeOf};
ghost use Rattle.dt_service_laws.specs.Wholes.{messages_in};
ghost use Rattle.dt_mailbox_laws.specs.Gaps.{FollowDirectly, NoneLost};
ghost use Rattle.dt_mailbox_laws.specs.Mails.{Mails, messages_for};

use dt_network::what_is_read_is_what_was_sent;

/// A MAILBOX HANDS OUT MESSAGES THAT WERE SENT, whole, each at most once and in the order of their
/// sending. Take any list of calls of a network in which the callers keep their duties, and a node at
/// which a mailbox alone reads a flow: whatever flows it hears of and forgets, whichever messages are too
/// long or find no memory, however small the buffers are, and however often the mailbox is made anew, as
/// it is where the node opens again. The messages that it hands out of the flow are whole messages of what
/// the sends of the flow took, with some left out.
pub fn mailbox_hands_out_messages_once_and_in_order()
    ensures { (setup : Setup) (steps : List Step) (letters : List Letter) (n : ℕ) (f : Flow) (longest : Option ℕ) → IsWithinLimits setup.params → AreSteps setup steps (new_network setup) → KeepsDuties setup steps (new_network setup) → Mails n f (new_mailbox longest) (new_network setup) steps letters → (taken : List Item) × AreTaken f steps taken × AreSomeOf (messages_for f letters) (messages_in taken) }
{
    what_is_read_is_what_was_sent();
}

/// A MESSAGE WITHOUT A GAP DIRECTLY FOLLOWS. Take a joiner that made a message whole, and the pieces that
/// go on it until it makes the next one whole. If that one has no gap, the joiner had none to report, no
/// piece has a run mark, and with none a message outgrew the longest (`joiner`). And take any list of
/// calls of a network in which the callers keep their duties: octets that were read one after another, of
/// which none has a run mark, were sent directly after the octet that was read before them (`octets`). So
/// of what was sent between two such messages of a joiner everything was read.
pub fn message_without_a_gap_directly_follows()
    ensures joiner { (j : JoinerValue) (pieces : List Piece) (q : Piece) (next : MessageValue) → NoneWhole j pieces → message_with (joiner_by j pieces) q ≡ Some next → next.gap ≡ false → (j.gap ≡ false) × NoneLost j (pieces ++ q ∷ []) }
    ensures octets { (setup : Setup) (steps : List Step) (f : Flow) (before : List Item) (last : Item) (since after : List Item) → IsWithinLimits setup.params → AreSteps setup steps (new_network setup) → KeepsDuties setup steps (new_network setup) → all_read f steps ≡ before ++ last ∷ (since ++ after) → All (λ (i : Item). i.run ≡ false) since → (taken : List Item) × AreTaken f steps taken × FollowDirectly last since taken }
{
    what_is_read_is_what_was_sent();
}
