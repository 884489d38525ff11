//! The rows of a log follow the ledger of its flow, report by report, and its numbers name places. So
//! the log of a world passes the audit, step by step and as a whole.
//! Each function has an empty body and is called for its contract alone.
#![tactic(auto)]

ghost use Rattle.std.specs.List.{All};
ghost use Rattle.std.specs.Prelude.{ℕ, ◌≡◌, false, ◌++◌, ◌+◌, ◌-◌, ◌<◌, ◌≤◌, Bool, List, true, length, Ok, Some, ◌^◌};
ghost use Rattle.dt_units.specs.declared.parameters.Params.{Params};
ghost use Rattle.dt_items.specs.declared.item.Item.{Item};
ghost use Rattle.dt_units.specs.declared.endpoints.Flow.{Flow};
ghost use Rattle.dt_layout.specs.Spelling.{Data as DataPacket};
ghost use Rattle.dt_reports.specs.declared.reports.Report.TheVariants.{Settled as SettledReport, Took as TookReport};
ghost use Rattle.dt_flow_model.specs.Acting.{acked_flow, after_act, after_taking, data_flow};
ghost use Rattle.dt_flow_model.specs.Facts.{AllFit, Facts, Fits};
ghost use Rattle.dt_flow_model.specs.Flow.{Data, FlowState, Packet, Run, new_flow, receiver_of, sender_reading};
ghost use Rattle.dt_flow_model.specs.Ledger.{first_unsent};
ghost use Rattle.dt_flow_model.specs.Numbering.{number_of};
ghost use Rattle.dt_flow_model.specs.Safe.{SafeLedger};
ghost use Rattle.dt_flow_model.specs.ReceiveRecord.{answer_to_data};
ghost use Rattle.dt_flow_model.specs.SendActs.{Act, act_of, told_of};
ghost use Rattle.dt_flow_model.specs.SendRecord.{Segment, SendRecord, items_in};
ghost use Rattle.dt_flow_model.specs.Steps.{IsAlive, Step};
ghost use Rattle.dt_world_model.specs.Host.{told_arrival, told_send};
ghost use Rattle.dt_world_model.specs.Tables.{same_flow};
ghost use Rattle.dt_log.specs.Logs.{log_text};
ghost use Rattle.dt_reports.specs.Entries.{Entry};
ghost use Rattle.dt_world_model.specs.Setup.{Setup, new_world};
ghost use Rattle.dt_world_model.specs.World.{World, last_lines};
ghost use Rattle.dt_world_model.specs.WorldFacts.{CanHappen};
ghost use Rattle.dt_world_model.specs.WorldStep.{Stepped, WorldEvent, run, world_after, world_step};
ghost use Rattle.dt_world_model.specs.Ledgers.{Accepts, FlowLedger, GivesUp, Occasion, Settles, Takes, Transmits, ledger_after};
ghost use Rattle.dt_audit.specs.declared.flow_facts.FlowFact.TheVariants.{Accepted, Sent, Settled, Took, Uncertain};
ghost use Rattle.dt_audit.specs.declared.facts.Fact.{Fact};
ghost use Rattle.dt_audit.specs.Audits.{has_flaw};
ghost use Rattle.dt_audit.specs.Books.{Book, begun, kept};
ghost use Rattle.dt_audit.specs.LogRows.{by_rows, FlowLog, first_place, is_sent, no_rows, open_places, send, unsent_places};
ghost use Rattle.dt_audit_laws.specs.Books.{FollowsAll, GoesOn, IsAbout};
ghost use Rattle.dt_audit_laws.specs.Bounds.{IsShort};
ghost use Rattle.dt_audit_laws.specs.Following.{Followed, FollowsFlow};
ghost use Rattle.dt_audit_laws.specs.Logged.{CanBeSetUp, IsLogged, StepPasses};
ghost use Rattle.dt_audit_laws.specs.Numbering.{IsNumbered};
ghost use Rattle.dt_audit_laws.specs.Showing.{Passes, Shows, UnsentLast};
ghost use Rattle.dt_audit_laws.specs.Telling.{changes_in, changes_of, changes_told};

/// What a log shows of a flow's ledger stays so with each report that changes the ledger, and the
/// report's line passes: where the report names octets that are there, and the ledger after it is safe.
/// The lives are those of the flow's two stations; of an occasion at the sending one the receiver's
/// may be any, and the other way round.
pub fn log_follows_the_ledger()
    ensures took { (o : Occasion) (receiver : ℕ) (ledger : FlowLedger) (log : FlowLog) → Shows ledger log
        → Passes record { sender = o.life; receiver = receiver } (Took (length o.items)) log (ledger_after o Takes ledger) }
    ensures sent { (o : Occasion) (receiver number count : ℕ) (ledger : FlowLedger) (log : FlowLog) → Shows ledger log → UnsentLast o.life ledger.taken → count ≤ length (unsent_places o.life log)
        → Passes record { sender = o.life; receiver = receiver } (Sent number count) log (ledger_after o (Transmits count) ledger) }
    ensures given_up { (o : Occasion) (receiver count : ℕ) (ledger : FlowLedger) (log : FlowLog) → Shows ledger log → count ≤ length (open_places o.life log)
        → Passes record { sender = o.life; receiver = receiver } (Uncertain count) log (ledger_after o (GivesUp count) ledger) }
    ensures acknowledged { (o : Occasion) (receiver count : ℕ) (ledger : FlowLedger) (log : FlowLog) → Shows ledger log → count ≤ length (open_places o.life log)
        → (let after = ledger_after o (Settles count) ledger in SafeLedger o.life after.taken after.given after.reads)
        → Passes record { sender = o.life; receiver = receiver } (Settled count) log (ledger_after o (Settles count) ledger) }
    ensures accepted { (o : Occasion) (sender number : ℕ) (run : Bool) (ledger : FlowLedger) (log : FlowLog) → Shows ledger log → 0 < length o.items → first_place number log ≡ Some o.place
        → is_sent ledger.taken o.place ≡ true → is_sent ledger.taken (o.place + length o.items - 1) ≡ true
        → (let after = ledger_after o (Accepts run) ledger in SafeLedger sender after.taken after.given after.reads)
        → Passes record { sender = sender; receiver = o.life } (Accepted number (length o.items) run) log (ledger_after o (Accepts run) ledger) }
{}

/// The numbers of a log name places. A number that is less than a whole round below the last one that
/// was sent is that of a place of the present run, counted back from the place after the last one that
/// was sent; and a first transmission, whose place is that of the leftmost octet that waits, keeps that.
pub fn numbers_of_a_log_name_places()
    ensures named { (p : Params) (run : Run) (offset : ℕ) (log : FlowLog) → IsNumbered p (Some run) log → run.base + offset ≤ log.edge → log.edge < run.base + offset + 2 ^ 32
        → first_place (number_of p offset) log ≡ Some (run.base + offset) }
    ensures kept { (p : Params) (run : Run) (o : Occasion) (offset count : ℕ) (ledger : FlowLedger) (log next : FlowLog) → Shows ledger log → UnsentLast o.life ledger.taken → count < length (unsent_places o.life log)
        → run.base + offset ≡ first_unsent o.life ledger.taken → send o.life (number_of p offset) (count + 1) log ≡ Ok next → IsNumbered p (Some run) next }
{}

/// A log that follows a flow goes on following it with each small step of the flow: the lines of what
/// the step tells pass, one after another, and what the log says of the flow then is what the flow is.
/// The facts of the flow before the step and after it are those that each small step keeps. A flow that
/// has just begun is followed by a log without a line.
pub fn log_follows_each_small_step()
    ensures step { (p : Params) (s after : FlowState) (ins made : List Packet) (step : Step p s ins made after) (log : FlowLog) → Facts p s → AllFit p s ins → Facts p after → FollowsFlow p s log
        → Followed p s after (changes_of p s after ins made step) log }
    ensures begun { (p : Params) (sender_zero receiver_zero : ℕ) → FollowsFlow p (new_flow sender_zero receiver_zero) no_rows }
{}

/// Each report that a station makes of a flow passes, with the state of the flow that it leads to: an act
/// of the sender, octets that are taken, an acknowledgement that is used, and data that comes. What a
/// station reports of a flow beside these says nothing of octets.
pub fn reports_of_a_flow_pass()
    ensures act { (p : Params) (s : FlowState) (f : Flow) (node : ℕ) (x : SendRecord) (act : Act) (log : FlowLog) → s.sender ≡ Some x → Facts p s → act_of p (sender_reading s) x ≡ Some act → FollowsFlow p s log
        → Followed p s (after_act p s x act) (changes_told node (told_send f (told_of p x act))) log }
    ensures taken { (p : Params) (s : FlowState) (f : Flow) (node : ℕ) (items : List Item) (log : FlowLog) → FollowsFlow p s log → Followed p s (after_taking p s items) (changes_told node (TookReport f (length items))) log }
    ensures acknowledged { (p : Params) (s : FlowState) (f : Flow) (node : ℕ) (x after : SendRecord) (gone rest : List Segment) (window : ℕ) (log : FlowLog) → s.sender ≡ Some x → x.outstanding ≡ gone ++ rest → Facts p s
        → Facts p (acked_flow s (Some (after, items_in gone))) → FollowsFlow p s log
        → Followed p s (acked_flow s (Some (after, items_in gone))) (changes_told node (SettledReport f (items_in gone) window)) log }
    ensures came { (p : Params) (s : FlowState) (f : Flow) (node : ℕ) (q : Packet) (drf : Bool) (items : List Item) (from_port to_port : ℕ) (begin end : Bool) (octets : List ℕ) (log : FlowLog) → q.kind ≡ Data drf items → IsAlive p s q → Fits p s q
        → Facts p s → Facts p (data_flow p s q drf items) → FollowsFlow p s log
        → Followed p s (data_flow p s q drf items) (changes_told node (told_arrival f (DataPacket from_port to_port q.number drf begin end octets) (answer_to_data p (receiver_of s) drf q.number items))) log }
{}

/// A report that is about one flow, and passes there, passes in the log of all flows: what is kept of
/// the flow follows it then, and what is kept of the others follows them as before.
pub fn report_changes_its_flow_alone()
    ensures { (p : Params) (views after : Flow → FlowState) (book : Book FlowLog) (f : Flow) (fact : Fact) → FollowsAll p views book → ((g : Flow) → same_flow f g ≡ false → after g ≡ views g)
        → (after f).sender_life ≡ (views f).sender_life → (after f).receiver_life ≡ (views f).receiver_life → IsAbout f fact → Followed p (views f) (after f) (changes_in fact) (kept by_rows book.flows f)
        → GoesOn p after fact book }
{}

/// The log of a world passes, line by line. What is kept before the first line follows all flows of a
/// new world. After each step that isn't refused, the lines that it told are read back and pass, each
/// as it is met, and what is kept then follows all flows of the world after it: whatever a station does
/// in the step, and where one starts again. The steps are fewer than 2^32, so that a life's number has
/// 32 bits, and in each less than 2^32 ms pass, so that a moment has 64.
pub fn log_of_each_step_passes()
    ensures begun { (setup : Setup) → CanBeSetUp setup → IsLogged 0 (new_world setup) (begun by_rows) }
    ensures step { (count : ℕ) (w : World) (book : Book FlowLog) (e : WorldEvent) (lines : List Entry) (after : World) → count + 1 < 2 ^ 32 → CanHappen e → IsShort e → IsLogged count w book → world_step w e ≡ Stepped lines after → StepPasses count after book lines }
{}

/// THE LOG OF A RUN PASSES THE AUDIT. Whatever happens in a world, refused events among it, the log of
/// all that was told and of the last lines has no flaw.
pub fn log_of_a_run_has_no_flaw()
    ensures { (setup : Setup) (events : List WorldEvent) → CanBeSetUp setup → All CanHappen events → All IsShort events → length events < 2 ^ 32
        → has_flaw (log_text ((run events (new_world setup)).0 ++ last_lines (world_after (new_world setup) events))) ≡ false }
{}
