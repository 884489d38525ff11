//! The words of a line of a log that no other line has.
ghost use Rattle.std.specs.Prelude.{◌≡◌};
ghost use Rattle.dt_audit.specs.Facts.{letters_read, run_read};

use dt_reports::LineFault;
use dt_text::splitting::is;

/// Whether a word is the letters of a packet: `d`, `b` and `e` in this order, each or none of them,
/// or `-` for none.
pub fn letters(word: &[u8]) -> Result<(), LineFault>
    ensures { result ≡ letters_read word.now }
{
    if is(word, "dbe")
        || is(word, "db")
        || is(word, "de")
        || is(word, "d")
        || is(word, "be")
        || is(word, "b")
        || is(word, "e")
        || is(word, "-")
    {
        Ok(())
    } else {
        Err(LineFault::Word)
    }
}

/// Whether accepted octets have a run mark: `run`, or `on` where they go on.
pub fn run(word: &[u8]) -> Result<bool, LineFault>
    ensures { result ≡ run_read word.now }
{
    if is(word, "run") {
        Ok(true)
    } else if is(word, "on") {
        Ok(false)
    } else {
        Err(LineFault::Word)
    }
}
