//! A visitor that does what a handler does ends where the handler's play ends.
ghost use Rattle.std.specs.Prelude.{ℕ, ◌≡◌, ◌++◌, Bool, IsTrue, List};
ghost use Rattle.dt_reports.specs.Told.{Told};
ghost use Rattle.dt_world_model.specs.Host.{Host};
ghost use Rattle.dt_world_model.specs.Relay.{Parcel};
ghost use Rattle.dt_world_model.specs.Script.{Along, Handler, Plays, Script, Stops, play};

/// A visitor that tells, tags and takes packets as a handler does, ends in the handler's last state and
/// with the play's answer. Where it stopped on the way, what passes all along the play passes.
pub fn visitor_ends_where_the_play_ends<S, T, A>()
    ensures ends { (handler : Handler S T) (script : Script T A) (v w : S) (b : A) → Plays (λ x r y. y ≡ handler.tell r x) (λ x host octets t y. (y ≡ x) × (t ≡ handler.tag host octets x)) (λ x link parcel y. y ≡ handler.hand link parcel x) script v w b → ((play handler script v).0 ≡ w) × ((play handler script v).1 ≡ b) }
    ensures stops { (handler : Handler S T) (script : Script T A) (v w : S) (test : S → Bool) → Along handler (λ x. IsTrue (test x)) script v → Stops (λ x r y. y ≡ handler.tell r x) (λ x host octets t y. (y ≡ x) × (t ≡ handler.tag host octets x)) (λ x link parcel y. y ≡ handler.hand link parcel x) (λ x y. y ≡ x) script v w → IsTrue (test w) }
{}
