//! A script and a trace in one input.
ghost use Rattle.std.specs.Prelude.{◌≡◌, ◌≤◌, length};
ghost use Rattle.std.specs.Str.{bytes_eq};
ghost use Rattle.std.specs.Prelude.{codes};
ghost use Rattle.dt_text.specs.InputLines.{most_input};
ghost use Rattle.dt_node.specs.InputParts.{CutsTo, is_mark};

use dt_text::split_line;

/// An input that is cut at its first line `trace`.
#[derive(Clone, Copy)]
pub struct CutInput<'a> {
    /// The lines before it.
    pub script: &'a [u8],
    /// The number of that line, counted from 1.
    pub mark: u64,
    /// What stands after it.
    pub trace: &'a [u8],
}

/// Whether a line is `trace`.
fn is_mark(line: &[u8]) -> bool
    ensures { result ≡ is_mark line.now }
{
    line == b"trace".as_slice()
}

/// Cuts an input of at most 16,777,216 octets at its first line `trace`. Without one it says how many
/// lines there are. The cost is the part up to that line.
pub fn cut_input(input: &[u8]) -> Result<CutInput<'_>, u64>
    requires { length input.now ≤ most_input }
    ensures { CutsTo result input.now }
{
    let mut rest = input;
    let mut lines = 0;
    while !rest.is_empty() {
        let (line, more) = split_line(rest);
        if is_mark(line) {
            let script = &input[..input.len() - rest.len()];
            let mark = lines + 1;
            return Ok(CutInput {
                script,
                mark,
                trace: more,
            });
        }
        rest = more;
        lines += 1;
    }
    Err(lines)
}
