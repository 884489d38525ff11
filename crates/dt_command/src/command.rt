//! A command of the program, found by one or two words: a job for an input, or a schedule to generate.
ghost use Rattle.std.specs.Prelude.{◌≡◌, ◌≤◌, IfSome, option_map};
ghost use Rattle.dt_make.specs.Schedules.{most_rounds};
ghost use Rattle.dt_command.specs.Commands as commands;
ghost use Rattle.dt_command.specs.Commands.{IsInRange};
ghost use Rattle.dt_command.specs.Words as texts;

use crate::job::Job;
use dt_make::MOST_ROUNDS;
use dt_text::read_number;

/// What the words ask for.
#[derive(Clone, Copy)]
pub enum Command {
    /// An input is read to its end, and this is done with it.
    Serve(Job),
    /// The generator's schedule of this many rounds, 1 to 50,000, is written.
    Make(u32),
}

/// The number of rounds that a word is, 1 to 50,000.
fn rounds_of(word: &str) -> Option<u32>
    ensures value { result ≡ texts.rounds_of word.now }
    ensures within { IfSome result (λ n. (1 ≤ n) × (n ≤ most_rounds)) }
{
    match read_number(word.as_bytes(), u64::from(MOST_ROUNDS)) {
        Some(n) if n > 0 => Some(n as u32),
        _ => None,
    }
}

impl Command {
    /// The command of one word.
    fn alone(word: &str) -> Option<Self>
        ensures value { result ≡ commands.alone word.now }
        ensures within { IfSome result IsInRange }
    {
        match Job::named(word) {
            Some(job) => Some(Command::Serve(job)),
            None => None,
        }
    }

    /// The command of the first word and the next, where they are there.
    pub fn named_by(word: Option<&str>, count: Option<&str>) -> Option<Self>
        ensures value { result ≡ commands.named_by (option_map (λ w. w.now) word.entry) (option_map (λ c. c.now) count.entry) }
        ensures within { IfSome result IsInRange }
    {
        match (word, count) {
            (Some(word), None) => Command::alone(word),
            (Some(word), Some(count)) => Command::counted(word, count),
            (None, _) => None,
        }
    }

    /// The command of a word and a count.
    fn counted(word: &str, count: &str) -> Option<Self>
        ensures value { result ≡ commands.counted word.now count.now }
        ensures within { IfSome result IsInRange }
    {
        match word {
            "make" => Some(Command::Make(rounds_of(count)?)),
            _ => None,
        }
    }
}
