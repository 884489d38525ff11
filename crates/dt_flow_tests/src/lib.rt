//! Tests of the two ends of a flow: the senders of worked runs, moment by moment; what is done with a packet, case by
//! case, and the receivers of worked runs, event by event.
#![tactic(auto)]

#[cfg(test)]
mod actions;
#[cfg(test)]
mod fixtures;
#[cfg(test)]
mod frames;
#[cfg(test)]
mod receivers;
#[cfg(test)]
mod sender_rows;
#[cfg(test)]
mod sender_steps;
#[cfg(test)]
mod senders;
