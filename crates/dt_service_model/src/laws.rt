//! Laws of the definitions. Each law is the contract of a public function with an empty body.
ghost use Rattle.std.specs.Prelude.{ℕ, ◌+◌, ◌≡◌, ◌≤◌, Bool, List, false, true};
ghost use Rattle.std.specs.List.{list_any};
ghost use Rattle.dt_units.specs.declared.endpoints.Flow.{Flow};
ghost use Rattle.dt_world_model.specs.Station.{Event};
ghost use Rattle.dt_calls_model.specs.Messages.{reversed};
ghost use Rattle.dt_service_model.specs.declared.names.CallNumber.{CallNumber};
ghost use Rattle.dt_service_model.specs.declared.names.Token.{Token};
ghost use Rattle.dt_service_model.specs.Accounts.{account, has_cause, made_in};
ghost use Rattle.dt_service_model.specs.Asked.{call};
ghost use Rattle.dt_service_model.specs.Ends.{close, judge};
ghost use Rattle.dt_service_model.specs.CallBook.{CallBook, is_service, kind_in};
ghost use Rattle.dt_service_model.specs.Hearing.{GivesUp, Heard, hear_as, is_uncertain};
ghost use Rattle.dt_service_model.specs.Stopping.{ArriveStops, CallStops, ForgetStops, GoesOn, ReplyStops, TickStops};
ghost use Rattle.dt_service_model.specs.Turns.{Node, turn, turn_end};
ghost use Rattle.dt_service_model.specs.Uncertain.{GivesUpReply, uncertain_in};

/// A call that waits goes on waiting or has one end reported, never more and never none: no turn changes the
/// account of a number, whatever its event is and whatever is heard, read and judged in it, and neither does
/// the end of a turn without an event. A call adds one to that of its number where it is made, and nothing
/// where it is declined or refused.
pub fn call_waits_or_ends_once()
    ensures turn { (n : CallNumber) (now : ℕ) (event : Event (Unit {0})) (x : Node) → account n (turn now event x).book ≡ account n x.book }
    ensures call { (n : CallNumber) (now : ℕ) (f : Flow) (payload : List ℕ) (patience : ℕ) (x : Node) → account n (call now f payload patience x).1.book ≡ account n x.book + made_in n (call now f payload patience x).0 }
    ensures end { (n : CallNumber) (now : ℕ) (x : Node) → account n (turn_end now x).book ≡ account n x.book }
{}

/// Once calls were judged at a moment, none that waits has a cause to be unsure: no octet of its request was
/// given up, and its deadline is later.
pub fn no_cause_is_left()
    ensures { (now : ℕ) (h : CallBook) → list_any (has_cause now) (judge now h).calls ≡ false }
{}

/// A turn that finds no memory is a first part of it, wherever it stops: frames that had left and happenings
/// that were reported stay, and each number has its account. A call may have been made before that, and then its
/// number has one more. The close that follows keeps each account too, so that a call that waited ends once.
pub fn turn_that_stops_is_a_first_part()
    ensures call { (now : ℕ) (f : Flow) (payload : List ℕ) (patience : ℕ) (n m : Node) → CallStops now f payload patience n m → (made : Bool) × GoesOn made n m }
    ensures reply { (now : ℕ) (token : Token) (payload : List ℕ) (n m : Node) → ReplyStops now token payload n m → GoesOn false n m }
    ensures forget { (now : ℕ) (token : Token) (n m : Node) → ForgetStops now token n m → GoesOn false n m }
    ensures tick { (now : ℕ) (n m : Node) → TickStops now n m → GoesOn false n m }
    ensures arrive { (now link : ℕ) (octets : List ℕ) (waited : ℕ) (n m : Node) → ArriveStops now link octets waited n m → GoesOn false n m }
    ensures close { (x : CallNumber) (h : CallBook) → account x (close h) ≡ account x h }
{}

/// Where octets that went from a service are given up, the flow of their requests is told, and no report
/// tells another. No flow is told again while that wasn't taken: so no turn leaves more of these than flows.
pub fn given_up_reply_is_told_once()
    ensures told { (f : Flow) (count : ℕ) (h : CallBook) → is_service (kind_in f.from_port h.ports) ≡ true → list_any (is_uncertain (reversed f)) (hear_as (GivesUp f count) h).happenings ≡ true }
    ensures alone { (f : Flow) (what : Heard) (h : CallBook) → list_any (is_uncertain f) h.happenings ≡ false → list_any (is_uncertain f) (hear_as what h).happenings ≡ true → GivesUpReply f what h }
    ensures once { (f : Flow) (now : ℕ) (event : Event (Unit {0})) (x : Node) → uncertain_in f x.book.happenings ≤ 1 → uncertain_in f (turn now event x).book.happenings ≤ 1 }
    ensures end { (f : Flow) (now : ℕ) (x : Node) → uncertain_in f x.book.happenings ≤ 1 → uncertain_in f (turn_end now x).book.happenings ≤ 1 }
{}
