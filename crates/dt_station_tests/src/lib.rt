//! Tests of a station and its parts. Of a station: what events tell and hand on, in their order, and want of memory.
//! Of a host: which act comes first of those that are due at one moment, in rows that were worked out by hand; and
//! with many records, that an act is found among them in 4 looks at most, and where none is due no record is looked
//! at. Of a relay: what packets pay and where they wait, step by step, and a mark that stays on its packet.
#![tactic(auto)]

#[cfg(test)]
mod audience;
#[cfg(test)]
mod benches;
#[cfg(test)]
mod event_rows;
#[cfg(test)]
mod events;
#[cfg(test)]
mod fixtures;
#[cfg(test)]
mod hosts;
#[cfg(test)]
mod many_senders;
#[cfg(test)]
mod marks;
#[cfg(test)]
mod memory;
#[cfg(test)]
mod order_of_acts;
#[cfg(test)]
mod relay_links;
#[cfg(test)]
mod relays;
