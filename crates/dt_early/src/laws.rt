//! Laws of the definitions. Each law is the contract of a public function with an empty body.
ghost use Rattle.std.specs.Prelude.{ℕ, List, ◌++◌};
ghost use Rattle.dt_endpoint.specs.declared.answers.Received.{Received};
ghost use Rattle.dt_endpoint.specs.Calls as endpoint_calls;
ghost use Rattle.dt_endpoint.specs.Endpoints.{EndpointValue};
ghost use Rattle.dt_service_model.specs.Turns.{Node};
ghost use Rattle.dt_service.specs.Calls as service_calls;
ghost use Rattle.dt_early.specs.Delays.{Call, Delays, IsDelay};
ghost use Rattle.dt_early.specs.Early.{Early, EarlyShelf, ShelfArrives, ShelfServes};

/// A SHELF IS A LINK THAT DELAYS. One call of a shelf is a list of calls of the endpoint behind it, or of the
/// service: each hands in a datagram that was on the shelf or the one that came, with the link and the octets
/// with which it came. It is handed in at once and as it came, or later, and then it has waited for its time
/// on the shelf too, and a millisecond more. None is handed in twice; those that aren't handed in are on the
/// shelf still, or are lost.
pub fn shelf_is_a_link_that_delays()
    ensures endpoint { (answer : Received) (now link : ℕ) (octets : List ℕ) (waited : ℕ) (s t : EarlyShelf) (e f : EndpointValue) → ShelfArrives answer now link octets waited s e t f → IsDelay endpoint_calls.Arrives now link octets waited s e t f }
    ensures service { (answer : Received) (now link : ℕ) (octets : List ℕ) (waited : ℕ) (s t : EarlyShelf) (n m : Node) → ShelfServes answer now link octets waited s n t m → IsDelay service_calls.Arrives now link octets waited s n t m }
{}

/// Delays follow one another: what comes meanwhile is under way beside what is.
pub fn delays_go_on()
    ensures { (first then : List (Call EndpointValue)) (before came between more after : List Early) → Delays first (before ++ came) between → Delays then (between ++ more) after → Delays (first ++ then) ((before ++ came) ++ more) after }
{}
