//! What the grammar says in other words: what is written in one way is read, and nothing else is.
//! Each function has an empty body and is called for its contract alone.
ghost use Rattle.std.specs.Prelude.{◌≡◌, ◌≤◌, ◌<◌, ◌^◌, ◌⊎◌, ℕ, List, Some, length, IsTrue};
ghost use Rattle.std.specs.List.{AllByRecursion};
ghost use Rattle.std.specs.Str.{str_to_ascii_lowercase};
ghost use Rattle.std.specs.Fmt.{decimal};
ghost use Rattle.dt_units.specs.declared.endpoints.Flow.{Flow};
ghost use Rattle.dt_text.specs.Endpoints.{flow_read};
ghost use Rattle.dt_text.specs.Hexadecimal.{is_hex, are_pairs, octets_of_hex};
ghost use Rattle.dt_log.specs.Words.{flow_text, hex_text};
ghost use Rattle.dt_units.specs.Flows.{IsFlow};
ghost use Rattle.dt_text.specs.Spelling.{IsLine, IsSpelling};
ghost use Rattle.dt_text.specs.declared.lines.Line.TheVariants as lines;
ghost use Rattle.dt_text.specs.Said.{Said};
ghost use Rattle.dt_text.specs.Lines.{line_of};
ghost use Rattle.dt_text.specs.declared.lines.Form.{Form};
ghost use Rattle.dt_text.specs.Numerals.{numeral};

/// A number of at most 64 bits has one spelling: its decimal digits.
pub fn numbers_have_one_spelling()
    ensures read { (most n : ℕ) → most < 2 ^ 64 → n ≤ most → numeral most (decimal n) ≡ Some n }
    ensures only { (most n : ℕ) (word : List ℕ) → most < 2 ^ 64 → numeral most word ≡ Some n → (word ≡ decimal n) × (n ≤ most) }
{}

/// A flow has one spelling: `a:p>b:q` with each number in its one spelling.
pub fn flows_have_one_spelling()
    ensures read { (f : Flow) → IsFlow f → flow_read (flow_text f) ≡ Some f }
    ensures only { (word : List ℕ) (f : Flow) → flow_read word ≡ Some f → (word ≡ flow_text f) × IsFlow f }
{}

/// Octets are spelled by the hexadecimal digits of each, and what spells them is that up to the
/// case of the letters.
pub fn octets_have_one_spelling_in_lower_case()
    ensures read { (most : ℕ) (octets : List ℕ) → AllByRecursion (λ octet. octet < 256) octets → 0 < length octets → length octets ≤ most → IsTrue (is_hex most (hex_text octets)) }
    ensures decoded { (octets : List ℕ) → AllByRecursion (λ octet. octet < 256) octets → octets_of_hex (hex_text octets) ≡ octets }
    ensures only { (hex : List ℕ) → IsTrue (are_pairs hex) → hex_text (octets_of_hex hex) ≡ str_to_ascii_lowercase hex }
{}

/// A line that isn't blank is written in words with one space between two of them, and has one
/// spelling. Parameters whose START is 0 have two: START may be left out.
pub fn lines_are_their_spellings()
    ensures read { (form : Form) (line : Said) (octets : List ℕ) → IsSpelling form line octets → line_of form octets ≡ Ok line }
    ensures only { (form : Form) (line : Said) (octets : List ℕ) → line_of form octets ≡ Ok line → (line ≡ lines.Blank) ⊎ (IsLine form line × IsSpelling form line octets) }
{}
