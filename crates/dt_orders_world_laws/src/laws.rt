//! Each law is the contract of a public function with an empty body. A history (`Runs`) has one server and any
//! number of clients. The server handles any call that was ever made, in any order and as often as one likes,
//! and any answer that ever left it may be heard by any call, any number of times or never. Either end may lose
//! at any time what it didn't sync. `Rules` say which ends' stores may also be set back.
ghost use Rattle.std.specs.Prelude.{ℕ, ◌≡◌, ◌≢◌, ◌≤◌, ◌⊎◌, Bool, List, false, true, Some};
ghost use Rattle.dt_orders_model.specs.declared.lanes.Fate.TheVariants.{Done, Never, Unknown};
ghost use Rattle.dt_orders_model.specs.declared.requests.Verdict.TheVariants as verdict;
ghost use Rattle.dt_orders_model.specs.Fates.{WasExecuted};
ghost use Rattle.dt_orders_model.specs.Histories.{verdict_at};
ghost use Rattle.dt_orders_model.specs.Judging.{is_ask};
ghost use Rattle.dt_orders_model.specs.Stores.{Among, Name, Store, executions, heard};
ghost use Rattle.dt_orders_world_laws.specs.Both.{Both, Rules, Runs, Told};
ghost use Rattle.dt_orders_world_laws.specs.Ordered.{MayComeNext, RunsInOrder};
ghost use Rattle.dt_orders_world_laws.specs.Wires.{Sent, call_as, name_of};

/// EACH ORDER IS EXECUTED ONCE AT MOST in the history of each state that the server's store ever had, whatever
/// store is set back.
pub fn each_order_is_executed_once_at_most()
    ensures { (rules : Rules) (w : Both) (s : Store) (o : Name) → Runs rules w → Among s w.server.past →
        executions o s.log ≤ 1 }
{}

/// ONLY WHAT A CLIENT CALLED IS EXECUTED, whatever store is set back.
pub fn only_what_was_called_is_executed()
    ensures { (rules : Rules) (w : Both) (s : Store) (o : Name) → Runs rules w → Among s w.server.past →
        ((c : Sent) → Among c w.sent → name_of c ≢ o) → executions o s.log ≡ 0 }
{}

/// DONE MEANS EXECUTED ONCE WITH THIS RESULT. An order whose program was told so was executed exactly once in
/// the history of the commit that the answer named, whatever store is set back. While none is, that is so in
/// the server's present store, and after any crash.
pub fn done_means_executed_once_with_this_result()
    ensures named { (rules : Rules) (w : Both) (t : Told) → Runs rules w → Among t w.told →
        t.ended.fate ≡ Done →
        (s : Store) × Among s w.server.past × (t.ended.heard ≡ Some (heard s)) ×
        WasExecuted s t.ended.name t.ended.result }
    ensures now { (rules : Rules) (w : Both) (t : Told) → rules.server ≡ false → rules.clients ≡ false →
        Runs rules w → Among t w.told → t.ended.fate ≡ Done →
        WasExecuted w.server.present t.ended.name t.ended.result }
{}

/// NEVER IS NOW AND EVER: an order whose program was told so isn't executed in any later state of the server's
/// store, if no store is set back.
pub fn never_is_now_and_ever()
    ensures { (rules : Rules) (w : Both) (t : Told) → rules.server ≡ false → rules.clients ≡ false →
        Runs rules w → Among t w.told → t.ended.fate ≡ Never →
        executions t.ended.name w.server.present.log ≡ 0 }
{}

/// UNKNOWN IS SETTLED: after its program was told so, no call of the order that was ever made is executed, if
/// no store is set back.
pub fn unknown_is_settled()
    ensures { (rules : Rules) (w : Both) (t : Told) (c : Sent) (strict : Bool) → rules.server ≡ false →
        rules.clients ≡ false → Runs rules w → Among t w.told → t.ended.fate ≡ Unknown →
        Among c w.sent → name_of c ≡ t.ended.name →
        verdict_at strict w.server.present (call_as c) ≢ verdict.Execute }
{}

/// ONE FATE: an order's program is told one fate with one result, in whatever lives, if no client's store is set
/// back.
pub fn one_fate()
    ensures { (rules : Rules) (w : Both) (t u : Told) → rules.clients ≡ false → Runs rules w →
        Among t w.told → Among u w.told → t.ended.name ≡ u.ended.name → t.ended ≡ u.ended }
{}

/// NEVER AND UNKNOWN OVER SET BACKS of the server's store, to any state that it ever had: after its program was
/// told so, no call of the order that was ever made is executed by a strict server, if no client's store is set
/// back.
pub fn never_and_unknown_stay_over_set_backs()
    ensures { (rules : Rules) (w : Both) (t : Told) (c : Sent) → rules.clients ≡ false → Runs rules w →
        Among t w.told → (t.ended.fate ≡ Never) ⊎ (t.ended.fate ≡ Unknown) →
        Among c w.sent → name_of c ≡ t.ended.name →
        verdict_at true w.server.present (call_as c) ≢ verdict.Execute }
{}

/// NEVER AND UNKNOWN OVER SET BACKS WHERE CALLS KEEP THEIR ORDER, as those of services do: if the calls of a lane
/// are handed out in the order in which they were made, each once at most, then after its program was told so,
/// no call of the order is handed out any more. The server needn't be strict.
pub fn settled_orders_are_handed_out_no_more()
    ensures { (rules : Rules) (w : Both) (out : List Sent) (t : Told) (c : Sent) → rules.clients ≡ false →
        RunsInOrder rules w out → Among t w.told → (t.ended.fate ≡ Never) ⊎ (t.ended.fate ≡ Unknown) →
        Among c w.sent → is_ask c.called.kind ≡ false → name_of c ≡ t.ended.name →
        MayComeNext w.sent out c → ⊥ }
{}
