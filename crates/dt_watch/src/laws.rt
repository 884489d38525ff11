//! Laws of clocks and ages. Each is the contract of a public function with an empty body. A clock is a
//! function from the true moments to what is read of it, in microseconds.
ghost use Rattle.std.specs.Prelude.{ℕ, ◌≡◌, ◌+◌, ◌-◌, ◌*◌, ◌/◌, ◌^◌, ◌≤◌, ◌<◌, List, Option, None, IfSome};
ghost use Rattle.dt_watch.specs.declared.clock_bounds.ClockBounds.{ClockBounds};
ghost use Rattle.dt_watch.specs.declared.readings.Bound.{Bound};
ghost use Rattle.dt_watch.specs.Ages.{IsMade, age_of, waited_of};
ghost use Rattle.dt_watch.specs.Clocks.{GoTogether, HadNotPassed, HadPassed, KeepsRate, WasHeard};
ghost use Rattle.dt_watch.specs.Drift.{drift_over};
ghost use Rattle.dt_watch.specs.Lower.{aged_down, kept_of, lower_around, lower_at, most_passed, passed};
ghost use Rattle.dt_watch.specs.LowerRuns.{HadAllPassed, InOrder, WereHeard, lower_by, new_lower};
ghost use Rattle.dt_watch.specs.Stops.{Came, RestsOn, unstopped};
ghost use Rattle.dt_watch.specs.Upper.{aged_up, upper_at};
ghost use Rattle.dt_watch.specs.UpperRuns.{HadNonePassed, new_upper, upper_by};

/// CLOCKS THAT KEEP THEIR RATES GO TOGETHER: two clocks, each within `d` parts in a million of the true time,
/// up to 999, and read in steps of `step` microseconds, where the bounds have one part more and three steps.
pub fn clocks_that_keep_their_rates_go_together()
    ensures { (b : ClockBounds) (d step : ℕ) (clock other : ℕ → ℕ) → d < 1000 → d + 1 ≤ b.drift → 3 * step ≤ b.grain → KeepsRate d step clock → KeepsRate d step other → GoTogether b clock other }
{}

/// ONE BOUND IS ENOUGH: what is kept of a span says as much, at each later reading, as the most that any of
/// the bounds says that were seen in it, in their order.
#[tactic(auto, using(crate::proofs::Lowest::kept_says_most))]
pub fn one_bound_is_enough()
    ensures { (b : ClockBounds) (es : List Bound) (now : ℕ) → InOrder 0 now es → passed b (kept_of b None es) now ≡ most_passed b es now }
{}

/// SURE HAD PASSED: where the two clocks go together, and each bound that was seen is a stamp of a clock
/// that was heard not before it was read, the clock has passed what is surely passed: at every moment,
/// whatever was seen, in any order.
#[tactic(auto, using(crate::proofs::Lowest::sure_had_passed))]
pub fn sure_had_passed()
    ensures { (b : ClockBounds) (clock other : ℕ → ℕ) (seen : List (Option Bound)) (t : ℕ) → GoTogether b clock other → WereHeard clock other seen → lower_at (lower_by (new_lower b) seen) (other t) ≤ clock t }
{}

/// WHAT IS SAID OF A SOONER READING, TOO: where the two clocks go together and each bound is true, the clock had
/// passed what it says of any moment, before the bounds or after.
#[tactic(auto, using(crate::proofs::Lowest::had_passed_around))]
pub fn had_passed_around()
    ensures { (b : ClockBounds) (clock other : ℕ → ℕ) (seen : List (Option Bound)) (t : ℕ) → GoTogether b clock other → HadAllPassed clock other seen → lower_around (lower_by (new_lower b) seen) (other t) ≤ clock t }
{}

/// NO FALSE ALARM: where the two clocks go together and each bound is true, what was surely not passed is
/// never below what was surely passed. So where it is, one of the clocks stood, was set or drifts by more
/// than its bound, or a stamp was wrong.
#[tactic(auto, using(crate::proofs::Highest::no_false_alarm))]
pub fn alarm_means_a_broken_clock()
    ensures { (b : ClockBounds) (clock other : ℕ → ℕ) (passed not_passed : List (Option Bound)) (t : ℕ) → GoTogether b clock other → HadAllPassed clock other passed → HadNonePassed clock other not_passed → IfSome (upper_at (upper_by (new_upper b) not_passed) (other t)) (λ most. lower_at (lower_by (new_lower b) passed) (other t) ≤ most) }
{}

/// NO DATAGRAM IS OLDER THAN ITS AGE, by the receiver's clock; nor than the charge and what it waited, in
/// microseconds and in the milliseconds that the node reads, unless it waited 2^32 - 1 milliseconds, which
/// no life reaches.
pub fn datagram_is_no_older_than_charge_and_wait()
    ensures age { (clock : ℕ → ℕ) (sure made came uncertain : ℕ) → IsMade clock sure made came → clock came - clock made ≤ age_of (clock came) sure uncertain }
    ensures micros { (age charge : ℕ) → waited_of age charge < 2 ^ 32 - 1 → age + 1000 ≤ 1000 * (charge + waited_of age charge) }
    ensures millis { (clock : ℕ → ℕ) (sure made came uncertain charge : ℕ) → IsMade clock sure made came → waited_of (age_of (clock came) sure uncertain) charge < 2 ^ 32 - 1 → clock came / 1000 - clock made / 1000 ≤ charge + waited_of (age_of (clock came) sure uncertain) charge }
{}

/// WHAT IS SURE RESTS ON ITS STAMP, where a clock may stand: it had passed but for the stops after the stamp
/// was read.
pub fn sure_rests_on_its_stamp()
    ensures { (b : ClockBounds) (clock stood other : ℕ → ℕ) (e : Bound) (heard : WasHeard clock other e) (t : ℕ) → GoTogether b (unstopped clock stood) other → heard.heard_at ≤ t → aged_down b e (other t) - b.grain + stood heard.read_at ≤ unstopped clock stood t }
{}

/// STOPS OF THE RECEIVER'S CLOCK sum to no more than the width of the interval between them: from a datagram
/// that came, whose upper bound is kept, to the stamp on which a later lower bound rests.
pub fn width_bounds_stops_of_the_receiver()
    ensures { (b : ClockBounds) (clock stood other : ℕ → ℕ) (upper lower : Bound) (came read : ℕ) → GoTogether b (unstopped clock stood) other → Came clock other upper came → RestsOn clock stood other lower read → upper.at.micros ≤ lower.at.micros → stood read + lower.reading.micros ≤ stood came + (aged_up b upper lower.at.micros + b.grain) }
{}

/// STOPS OF THE SENDER'S CLOCK sum to no more than the width of the interval between them and their own
/// drift: from the moment of a lower bound to that of a later upper one.
pub fn width_bounds_stops_of_the_sender()
    ensures { (b : ClockBounds) (clock other stood : ℕ → ℕ) (lower upper : Bound) (l : HadPassed clock other lower) (u : HadNotPassed clock other upper) → GoTogether b clock (unstopped other stood) → l.moment ≤ u.moment → lower.at.micros ≤ upper.at.micros → stood l.moment ≤ stood u.moment → aged_down b lower upper.at.micros + (stood u.moment - stood l.moment) ≤ upper.reading.micros + b.grain + drift_over b.drift (stood u.moment - stood l.moment) }
{}

/// WHERE NOTHING RINGS, the receiver's clock has stood, since the stamp was read on which a lower bound
/// rests, no longer than the flight `back` of that stamp and the flight `forth` of a later datagram.
#[tactic(auto, using(crate::proofs::Standing::no_longer_than_flights))]
pub fn no_alarm_bounds_stops_by_the_flights()
    ensures { (b : ClockBounds) (clock stood other : ℕ → ℕ) (lower upper : Bound) (read came back forth : ℕ) (l : RestsOn clock stood other lower read) (u : Came clock other upper came) → GoTogether b (unstopped clock stood) other → l.moment ≤ u.made → unstopped clock stood l.moment ≤ lower.reading.micros + stood read + back → unstopped clock stood came ≤ unstopped clock stood u.made + forth → aged_down b lower upper.at.micros ≤ upper.reading.micros + 2 * b.grain → stood came ≤ stood read + back + forth + 2 * drift_over b.drift (upper.at.micros - lower.at.micros) + 3 * b.grain }
{}

/// THE AGE COUNTS STOPS: where the receiver's clock has stood, since the stamp was read on which `sure` rests,
/// no longer than what is counted for stops, the datagram is no older than its age by a clock that never
/// stood.
#[tactic(auto, using(crate::proofs::Standing::age_over_stops))]
pub fn age_counts_stops()
    ensures { (clock stood : ℕ → ℕ) (sure read made came uncertain : ℕ) → sure + stood read ≤ unstopped clock stood made → sure ≤ clock came → stood came ≤ stood read + uncertain → unstopped clock stood came - unstopped clock stood made ≤ age_of (clock came) sure uncertain }
{}
