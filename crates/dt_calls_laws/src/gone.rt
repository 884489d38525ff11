//! What is unread, what is gone, and what a piece does to a message that is begun.
ghost use Rattle.std.specs.Prelude.{ℕ, ◌+◌, ◌≡◌, ◌==◌, Bool, false, List, [], Some, None, Option};
ghost use Rattle.dt_items.specs.Unread.{first_piece};
ghost use Rattle.dt_units.specs.declared.endpoints.Flow.{Flow};
ghost use Rattle.dt_units.specs.Flows.{IsFlow};
ghost use Rattle.dt_units.specs.Limits.{IsWithinLimits};
ghost use Rattle.dt_world_model.specs.Tables.{look, same_flow};
ghost use Rattle.dt_world_model.specs.World.{Placed, World, view};
ghost use Rattle.dt_world_model.specs.WorldFacts.{CanHappen, WorldFacts};
ghost use Rattle.dt_world_model.specs.WorldStep.{Reads, Restarts, Sends, WorldEvent, after_event, first_refusal, refusals};
ghost use Rattle.dt_calls_model.specs.CallFacts.{AreBegun, LieSideBySide, Span};
ghost use Rattle.dt_calls_model.specs.Messages.{Piece};
ghost use Rattle.dt_calls_laws.specs.Calm.{AllIsGone, Calm, GivesUnread, IsNoRestartOf, PieceIsGone, Steady};
ghost use Rattle.dt_calls_laws.specs.Grown.{IsNoSendOrRead};
ghost use Rattle.dt_calls_laws.specs.Joins.{Joins};
ghost use Rattle.dt_calls_laws.specs.ReadTold.{piece_of};
ghost use Rattle.dt_calls_laws.specs.Unread.{UnreadIsTheEnd};

/// What is unread of a flow are the last of its given rows: those after the rows that are gone. They
/// are all of the reader's present life.
#[tactic(auto, using(crate::proofs::UnreadEnd::unread_end))]
pub fn unread_is_the_end_of_what_was_given()
    ensures { (w : World) (f : Flow) → WorldFacts w → UnreadIsTheEnd w f }
{}

/// What an event gives that is no send, no read and no restart of the flow's reader is unread after what
/// was; a restart of the reader leaves nothing unread.
pub fn what_is_given_is_unread()
    ensures given { (w : World) → IsWithinLimits w.params → WorldFacts w → (e : WorldEvent) (g : Flow) → CanHappen e → first_refusal (refusals w e) ≡ None → IsNoSendOrRead e → IsNoRestartOf g.to.0 e → GivesUnread w (after_event w e).1 g }
    ensures restarted { (w : World) → IsWithinLimits w.params → WorldFacts w → (n : ℕ) (at : Placed) (g : Flow) → look ◌==◌ n w.stations ≡ Some at → n ≡ g.to.0 → (view (after_event w (Restarts n)).1 g).unread ≡ [] }
{}

/// An event of the world that is no send, no read and no restart of the flow's reader leaves the octets
/// that the flow took, the rows that are gone, and the reader's life.
pub fn other_events_leave_what_is_gone()
    ensures { (w : World) → IsWithinLimits w.params → WorldFacts w → (e : WorldEvent) (g : Flow) → CanHappen e → first_refusal (refusals w e) ≡ None → IsNoSendOrRead e → IsNoRestartOf g.to.0 e → Calm w (after_event w e).1 g }
{}

/// A send leaves the rows that are gone, of every flow, and what is unread.
pub fn sends_leave_what_is_gone()
    ensures gone { (w : World) → IsWithinLimits w.params → WorldFacts w → (f : Flow) (octets : List ℕ) (begin end : Bool) (at : Placed) → IsFlow f → look ◌==◌ f.from.0 w.stations ≡ Some at → (g : Flow) → Steady w (after_event w (Sends f octets begin end)).1 g }
    ensures unread { (w : World) → IsWithinLimits w.params → WorldFacts w → (f : Flow) (octets : List ℕ) (begin end : Bool) (at : Placed) → IsFlow f → look ◌==◌ f.from.0 w.stations ≡ Some at → (g : Flow) → (view (after_event w (Sends f octets begin end)).1 g).unread ≡ (view w g).unread }
{}

/// A read lets the rows of its piece go, and leaves those of every other flow.
pub fn read_lets_its_piece_go()
    ensures here { (w : World) → IsWithinLimits w.params → WorldFacts w → (f : Flow) (most : ℕ) (at : Placed) → IsFlow f → look ◌==◌ f.to.0 w.stations ≡ Some at → PieceIsGone w (after_event w (Reads f most)).1 f most }
    ensures others { (w : World) → IsWithinLimits w.params → WorldFacts w → (f : Flow) (most : ℕ) (at : Placed) → IsFlow f → look ◌==◌ f.to.0 w.stations ≡ Some at → (g : Flow) → same_flow f g ≡ false → Calm w (after_event w (Reads f most)).1 g }
{}

/// A restart of a flow's reader lets all its given rows go: what was unread is lost.
pub fn restart_of_the_reader_lets_all_go()
    ensures { (w : World) → IsWithinLimits w.params → WorldFacts w → (n : ℕ) (at : Placed) (g : Flow) → look ◌==◌ n w.stations ≡ Some at → n ≡ g.to.0 → AllIsGone w (after_event w (Restarts n)).1 g }
{}

/// Where a flow took nothing but messages that lie side by side, a piece that is read goes on a first
/// part of one of them, or makes it whole: then it is that message, and its last octet is gone with
/// this piece and wasn't before.
pub fn piece_goes_on_a_message_or_makes_it_whole()
    ensures { (w after : World) (f : Flow) (most : ℕ) (p : Piece) (spans : List Span) (carried : Span → List ℕ) (begun : Option (List ℕ)) → WorldFacts w → PieceIsGone w after f most → piece_of (first_piece most (view w f).unread) ≡ Some p → LieSideBySide w f carried 0 spans → AreBegun w f spans begun → Joins w after f spans carried begun p }
{}
