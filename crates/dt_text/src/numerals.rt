//! Words that are numbers.
ghost use Rattle.std.specs.Prelude.{◌≡◌, ◌+◌, ◌-◌, ◌*◌, ◌<◌, ◌≤◌, ◌^◌, IfSome, IsTrue};
ghost use Rattle.std.specs.Char.{is_ascii_digit};
ghost use Rattle.std.specs.Option.{SomeIff};
ghost use Rattle.dt_text.specs.Numerals.{numeral, digits_number};

/// The number with one more digit at its end, where it fits.
fn with_digit(number: u64, digit: u8) -> Option<u64>
    ensures { SomeIff result (IsTrue (is_ascii_digit digit) × (number * 10 + (digit - 48) < 2 ^ 64)) (number * 10 + (digit - 48)) }
{
    if !digit.is_ascii_digit() {
        return None;
    }
    number.checked_mul(10)?.checked_add(u64::from(digit - b'0'))
}

/// The number from 0 to `most` that decimal digits make.
fn digits_number(digits: &[u8], most: u64) -> Option<u64>
    ensures value { result ≡ digits_number most digits.now }
    ensures within { IfSome result (λ n. n ≤ most) }
{
    let mut value = 0;
    for digit in digits {
        value = with_digit(value, *digit)?;
    }
    (value <= most).then_some(value)
}

/// The number from 0 to `most` that a word is: decimal digits, without a leading zero unless the
/// number is 0. It is `None` exactly where the word isn't one. The cost is at most 21 digits.
#[tactic(auto, unfolding(crate::specs::Numerals::numeral))]
pub fn read_number(word: &[u8], most: u64) -> Option<u64>
    ensures value { result ≡ numeral most word.now }
    ensures within { IfSome result (λ n. n ≤ most) }
{
    let (first, more) = word.split_first()?;
    if *first == b'0' && !more.is_empty() {
        return None;
    }
    digits_number(word, most)
}
