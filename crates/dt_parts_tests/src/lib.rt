//! Tests of the lowest parts: parameters and numbers, queues, tables of cases, deadlines, maps in the order of insertion,
//! packets, their limits and the frames that hold them, reports, ledgers and shelves.
#![tactic(auto)]

#[cfg(test)]
mod cases;
#[cfg(test)]
mod frames;
#[cfg(test)]
mod gram_octets;
#[cfg(test)]
mod items;
#[cfg(test)]
mod ledgers;
#[cfg(test)]
mod octets;
#[cfg(test)]
mod ordered_maps;
#[cfg(test)]
mod packet_limits;
#[cfg(test)]
mod packets;
#[cfg(test)]
mod reports;
#[cfg(test)]
mod rows;
#[cfg(test)]
mod shelves;
#[cfg(test)]
mod timers;
#[cfg(test)]
mod units;
