//! The command that the words of the command line name.
#![tactic(auto)]

mod command;
mod command_line;
mod job;

pub use command::Command;
pub use command_line::command_of;
pub use job::Job;
