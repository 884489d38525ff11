//! The words of the command line are read with `clap`: a word, and a count where one is given. The
//! first `--` among them is none of the two.
ghost use Rattle.std.specs.Prelude.{◌≡◌, ◌⊎◌, ◌≤◌, IfOk, IfErr, IfSome, None, codes, length, map, slice_get, string_bytes};
ghost use Rattle.clap.specs.Words.{first_value, found_of, kind_of};
ghost use Rattle.dt_command.specs.Commands as commands;
ghost use Rattle.dt_command.specs.Commands.{IsInRange};
ghost use Rattle.dt_command.specs.Words.{without_mark};

use crate::command::Command;
use clap::error::ErrorKind;
use clap::{Arg, ArgMatches, Error};
use dt_items::NoMemory;
use std::alloc::Global;

/// What `clap` finds: the word and the count, or its error.
fn found<'a>(alloc: Global, words: &'a [String]) -> Result<ArgMatches<'a>, Error>
    ensures count { IfOk result (λ matches. length (without_mark (map string_bytes words.entry.now)) ≤ 2) }
    ensures word { IfOk result (λ matches. first_value (found_of matches) (codes "command") ≡ slice_get (without_mark (map string_bytes words.entry.now)) 0) }
    ensures next { IfOk result (λ matches. first_value (found_of matches) (codes "count") ≡ slice_get (without_mark (map string_bytes words.entry.now)) 1) }
    ensures lacks { IfErr result (λ e. (kind_of e ≡ ErrorKind.OutOfMemory) ⊎ (commands.command_of words.entry.now ≡ None)) }
{
    let command = Arg::new(alloc, "command").required(true);
    let count = Arg::new(alloc, "count");
    let line = clap::Command::new(alloc, "deltat")
        .no_binary_name(true)
        .disable_help_flag(true)
        .disable_version_flag(true)
        .arg(command)?
        .arg(count)?;
    line.try_get_matches_from(words)
}

/// The command that the words name, or none. `NoMemory` comes with any words, for want of memory in
/// `clap` alone.
#[tactic(auto, using(crate::proofs::Naming::named_parts))]
pub fn command_of(alloc: Global, words: &[String]) -> Result<Option<Command>, NoMemory>
    ensures value { IfOk result (λ command. command ≡ commands.command_of words.now) }
    ensures within { IfOk result (λ command. IfSome command IsInRange) }
{
    match found(alloc, words) {
        Ok(matches) => {
            let word = matches.get_str("command");
            let count = matches.get_str("count");
            Ok(Command::named_by(word, count))
        }
        Err(error) if error.kind() == ErrorKind::OutOfMemory => Err(NoMemory),
        Err(_) => Ok(None),
    }
}
