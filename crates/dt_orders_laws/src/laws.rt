//! Each law is the contract of a public function with an empty body. A history has any calls of the orders
//! that were noted, in any order and as often as one likes: so its wire loses, repeats and reorders calls and
//! answers as it likes, and clients crash and are set back as they like. Its server's store may lose commits
//! at any time, where a law doesn't say otherwise.
ghost use Rattle.std.specs.Prelude.{ℕ, ◌≡◌, ◌≢◌, ◌+◌, ◌≤◌, ◌⊎◌, Bool, true, List, Option, Some};
ghost use Rattle.dt_orders_model.specs.declared.knowledge.Known.{Known};
ghost use Rattle.dt_orders_model.specs.declared.knowledge.Opening.{Opening};
ghost use Rattle.dt_orders_model.specs.declared.requests.Verdict.{Verdict};
ghost use Rattle.dt_orders_model.specs.declared.requests.Verdict.TheVariants as verdict;
ghost use Rattle.dt_orders_model.specs.Chains.{opening_at, place_by, place_in};
ghost use Rattle.dt_orders_model.specs.Closing.{IsClosed};
ghost use Rattle.dt_orders_model.specs.Fates.{WasExecuted, WasWithdrawn};
ghost use Rattle.dt_orders_model.specs.Histories.{Call, HasNoNewer, IsNew, Onward, Reached, World, commit, verdict_at};
ghost use Rattle.dt_orders_model.specs.Stores.{Among, Entry, Name, Store, executed, executions, heard, row_of, touched, withdrawn};

/// EACH ORDER IS EXECUTED ONCE AT MOST, in the history of each state that the store ever had.
pub fn each_order_is_executed_once_at_most()
    ensures { (w : World) (s : Store) (o : Name) → Reached w → Among s w.past →
        executions o s.log ≤ 1 }
{}

/// DONE MEANS EXECUTED ONCE WITH THIS RESULT: of an answer by the row, whose result stands beside it, and of
/// the answer to the call that executed the order. It stays so while no commit of the store is lost.
pub fn done_means_executed_once_with_this_result()
    ensures answered { (w : World) (strict : Bool) (c : Call) → Reached w →
        verdict_at strict w.present c ≡ verdict.Done →
        (e : Entry) × (w.present.rows c.note.name.lane ≡ Some e) × WasExecuted w.present c.note.name e.result }
    ensures written { (w : World) (strict : Bool) (c : Call) (result : List ℕ) → Reached w →
        Among c.note w.notes → verdict_at strict w.present c ≡ verdict.Execute →
        WasExecuted (executed w.present c.note.name result) c.note.name result }
    ensures stays { (w v : World) (o : Name) (result : List ℕ) → Reached w → Onward w v →
        WasExecuted w.present o result → WasExecuted v.present o result }
{}

/// NEVER IS NOW AND EVER: an order that is answered so, or that is cancelled by this call, wasn't executed
/// and isn't, while no commit of the store is lost.
pub fn never_is_now_and_ever()
    ensures answered { (w v : World) (strict : Bool) (c : Call) → Reached w →
        verdict_at strict w.present c ≡ verdict.Never → Onward w v →
        executions c.note.name v.present.log ≡ 0 }
    ensures written { (w v : World) (strict : Bool) (c : Call) → Reached w → Among c.note w.notes →
        verdict_at strict w.present c ≡ verdict.Cancel →
        Onward (commit w (withdrawn w.present c.note.name)) v →
        executions c.note.name v.present.log ≡ 0 }
{}

/// A CLOSED NUMBER STAYS CLOSED on its lane, for all that was shared up to the present clock, whatever rows
/// are forgotten.
pub fn closed_number_stays_closed()
    ensures { (w v : World) (lane number at : ℕ) → Reached w → Onward w v → at ≤ w.present.clock →
        IsClosed w.present.horizon (row_of (w.present.rows lane)) number at →
        IsClosed v.present.horizon (row_of (v.present.rows lane)) number at }
{}

/// WHO IS SERVED HAS LOST NOTHING: if a client knows of a commit and isn't refused as forked, then all that
/// was executed or cancelled up to that commit is so in the present store, whatever was set back between.
pub fn who_is_served_has_lost_nothing()
    ensures executed { (w : World) (strict : Bool) (s : Store) (c : Call) (o : Name) → Reached w →
        Among s w.past → c.knows ≡ Some (heard s) →
        verdict_at strict w.present c ≢ verdict.Forked → executions o s.log ≡ 1 →
        executions o w.present.log ≡ 1 }
    ensures withdrawn { (w : World) (strict : Bool) (s : Store) (c : Call) (o : Name) → Reached w →
        Among s w.past → c.knows ≡ Some (heard s) →
        verdict_at strict w.present c ≢ verdict.Forked → WasWithdrawn s o →
        executions o w.present.log ≡ 0 }
{}

/// ONLY WHAT WAS NOTED IS EXECUTED: an order without a note was never executed. An order counts as noted from
/// its first call on, so one that is cancelled before that never is executed.
pub fn only_what_was_noted_is_executed()
    ensures { (w : World) (s : Store) (o : Name) → Reached w → Among s w.past → IsNew o w.notes →
        executions o s.log ≡ 0 }
{}

/// TWO OPENINGS ARE ENOUGH: what a store's whole list of openings says of a commit is what `place` computes
/// of the opening of its number and of the next one.
pub fn two_openings_are_enough()
    ensures { (q : Known) (clock : ℕ) (chain : List Opening) →
        place_in q.opening q.nonce clock chain ≡ place_by clock q (opening_at q.opening chain) (opening_at (q.opening + 1) chain) }
{}

/// UNKNOWN IS SETTLED: an order that is refused as old or as stale isn't executed from then on, while no
/// commit is lost, if no note of it names a newer commit than the call that was refused. After a row was
/// touched for it that holds whatever its notes name.
pub fn unknown_is_settled()
    ensures answered { (w v : World) (strict : Bool) (c : Call) → Reached w → Among c.note w.notes →
        HasNoNewer w c.note →
        (verdict_at strict w.present c ≡ verdict.Old) ⊎ (verdict_at strict w.present c ≡ verdict.Stale) →
        Onward w v → executions c.note.name v.present.log ≡ executions c.note.name w.present.log }
    ensures touched { (w v : World) (strict : Bool) (c : Call) (e : Entry) → Reached w → Among c.note w.notes →
        w.present.rows c.note.name.lane ≡ Some e → verdict_at strict w.present c ≡ verdict.Touch →
        Onward (commit w (touched w.present c.note.name.lane e)) v →
        executions c.note.name v.present.log ≡ executions c.note.name w.present.log }
{}
