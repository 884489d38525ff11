//! Laws of openings and of windows. Each is the contract of a public function with an empty body.
ghost use Rattle.std.specs.Prelude.{ℕ, ◌≡◌, ◌≢◌, ◌+◌, ◌≤◌, max, List, Some};
ghost use Rattle.dt_watch.specs.declared.arrivals.Arrival.{Arrival};
ghost use Rattle.dt_watch.specs.declared.arrivals.Opening.{Opening};
ghost use Rattle.dt_watch.specs.declared.clock_bounds.ClockBounds.{ClockBounds};
ghost use Rattle.dt_watch.specs.declared.openings.Openings.{Openings};
ghost use Rattle.dt_watch.specs.declared.readings.Bound.{Bound};
ghost use Rattle.dt_watch.specs.declared.windows.Window.{Window};
ghost use Rattle.dt_watch.specs.Clocks.{GoesOn};
ghost use Rattle.dt_watch.specs.Former.{HaveNoneAfter, NoneIsTaken};
ghost use Rattle.dt_watch.specs.Lower.{passed_by};
ghost use Rattle.dt_watch.specs.Windows.{MayEnter, Runs};

/// NOTHING OF A FORMER OPENING IS TAKEN after another one is present, whatever comes between: where no
/// datagram of the former one has a reading that is later, by more than the grain, than what the present
/// one proved.
pub fn nothing_of_a_former_opening_is_taken()
    ensures { (o : Openings) (p : Opening) (name : ℕ) (arrivals : List Arrival) → o.present ≡ Some p → p.name ≢ name → HaveNoneAfter name (p.proved.micros + o.grain) arrivals → NoneIsTaken name o arrivals }
{}

/// A FORMER OPENING HAS NO SUCH READING, where the clock is never set back and the stamp that proved the new
/// opening was read after the former one made its last datagram: what had passed when that was made is at
/// most the stamp, and what a bound that rests on the stamp says is no less, but for the grain.
pub fn former_opening_has_no_later_reading()
    ensures made { (clock : ℕ → ℕ) (sure made read stamp : ℕ) → GoesOn clock → sure ≤ clock made → made ≤ read → clock read ≡ stamp → sure ≤ stamp }
    ensures proved { (b : ClockBounds) (e : Bound) (now : ℕ) → e.at.micros ≤ now → e.reading.micros ≤ passed_by b e now + b.grain }
{}

/// WHAT IS UNDER WAY is at most the window or one message: after a message was admitted, and, over any
/// admissions and settlements, within the largest window or the longest message.
pub fn under_way_is_within_the_window_or_one_message()
    ensures admitted { (w : Window) (under_way octets : ℕ) → MayEnter w under_way octets → under_way + octets ≤ max w.octets octets }
    ensures always { (most longest under_way : ℕ) → Runs most longest under_way → under_way ≤ max most longest }
{}
