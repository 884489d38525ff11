//! What is true of every input of calls. Each law is the contract of a public function with an empty
//! body.
ghost use Rattle.std.specs.Prelude.{ℕ, ◌≤◌, IfSome, List, length};
ghost use Rattle.dt_text.specs.InputLines.{most_input};
ghost use Rattle.dt_calls_model.specs.Promises.{AreServedOnce};
ghost use Rattle.dt_calls_input.specs.CallAnswers.{AreCallsOf, TellsOwnAnswers};
ghost use Rattle.dt_calls_input.specs.CallInputs.{calls_after_lines};

/// The calls of every input of at most 16,777,216 octets, after each of its lines: each was served at
/// most once, one that is answered was served once, and one that is declined never. They are the calls
/// of its first `call` lines, with their octets; and whatever event comes next, each answer that is reported
/// of it is the payload of its call in reversed order. Where a line is refused it holds of the calls up
/// to there. And in the text of the input each answer is that of its own call: `answered N` has the octets
/// of the `call` line N, counted from 0, in reversed order, and there is such a line.
pub fn calls_of_an_input_are_served_at_most_once()
    ensures once { (count : ℕ) (octets : List ℕ) → length octets ≤ most_input → IfSome (calls_after_lines count octets) (λ c. AreServedOnce c) }
    ensures calls { (count : ℕ) (octets : List ℕ) → length octets ≤ most_input → IfSome (calls_after_lines count octets) (λ c. AreCallsOf octets c) }
    ensures answers { (octets : List ℕ) → length octets ≤ most_input → TellsOwnAnswers octets }
{}
