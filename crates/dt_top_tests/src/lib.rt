//! Tests of the program's commands as one call, `run`, over the forms in memory, of a node alone, and of a trace that is run
//! again: worked inputs with what is printed and how each ends, each failure of source, sink, wire and clock, datagrams
//! with any octets, and inputs that are cut short or too long.
#![tactic(auto)]

#[cfg(test)]
mod commands;
#[cfg(test)]
mod datagrams;
#[cfg(test)]
mod failures;
#[cfg(test)]
mod inputs;
#[cfg(test)]
mod node_inputs;
#[cfg(test)]
mod node_rows;
#[cfg(test)]
mod node_runs;
#[cfg(test)]
mod node_waits;
#[cfg(test)]
mod retraces;
#[cfg(test)]
mod trial_rows;
