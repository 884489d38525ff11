//! Laws of joiners. Each is the contract of a function with an empty body.
ghost use Rattle.std.specs.Prelude.{◌≡◌, List, None, Some, option_map, true};
ghost use Rattle.dt_calls_model.specs.Messages.{Piece, begun_with, whole_with};
ghost use Rattle.dt_messages.specs.Joining.{JoinerValue, MessageValue, NoneWhole, joiner_after, joiner_by, message_with, outgrows};

/// A joiner with no longest message puts together what the definition of messages says.
pub fn joiner_without_a_longest_is_the_definition()
    ensures whole { (j : JoinerValue) (p : Piece) → j.longest ≡ None → option_map (λ m. m.octets) (message_with j p) ≡ whole_with j.begun p }
    ensures begun { (j : JoinerValue) (p : Piece) → j.longest ≡ None → (joiner_after j p).begun ≡ begun_with j.begun p }
    ensures none { (j : JoinerValue) (p : Piece) → j.longest ≡ None → (joiner_after j p).dropped ≡ j.dropped }
{}

/// A message that is longer than the longest is left out, and the next whole message has a gap: after the
/// piece with which it outgrows the longest, and whatever pieces that make no message whole.
pub fn message_too_long_leaves_a_gap()
    ensures { (j : JoinerValue) (p : Piece) (pieces : List Piece) (q : Piece) (next : MessageValue) → outgrows j.longest j.begun p ≡ true → NoneWhole (joiner_after j p) pieces → message_with (joiner_by (joiner_after j p) pieces) q ≡ Some next → next.gap ≡ true }
{}
