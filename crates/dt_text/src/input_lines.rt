//! A function that splits an input after its first line: the line without its line feed, and the rest.
ghost use Rattle.std.specs.Prelude.{◌≡◌, ◌<◌, ◌⊎◌, ◌∷◌, ◌++◌, [], length};
ghost use Rattle.dt_text.specs.InputLines.{lines_of};

use memchr::memchr;

/// The first line of an input that isn't empty, without its line feed, and what stands after it.
/// The cost is the line, and no memory is taken.
pub fn split_line(input: &[u8]) -> (&[u8], &[u8])
    requires { 0 < length input.now }
    ensures lines { lines_of input.now ≡ result.0.now ∷ lines_of result.1.now }
    ensures parts { (input.now ≡ result.0.now ++ 10 ∷ result.1.now) ⊎ ((input.now ≡ result.0.now) × (result.1.now ≡ [])) }
    ensures fewer { length result.1.now < length input.now }
{
    match memchr(b'\n', input) {
        Some(place) => (&input[..place], &input[place + 1..]),
        None => (input, &[]),
    }
}
