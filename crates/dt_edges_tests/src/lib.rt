//! Tests of where octets come from and go to. Of dt_edges: sources, sinks, wires and clocks, in memory and over a
//! reader or a writer, call by call. Of dt_machine: the machine's wire and clock, over sockets of this machine, and the
//! parts of the wire: what waits in it, what waited too long, and when it looks for a datagram before it waits.
#![tactic(auto)]

#[cfg(test)]
mod clocks;
#[cfg(test)]
mod machine_clocks;
#[cfg(test)]
mod machine_wires;
#[cfg(test)]
mod rough;
#[cfg(test)]
mod sinks;
#[cfg(test)]
mod sockets;
#[cfg(test)]
mod sources;
#[cfg(test)]
mod wire_parts;
#[cfg(test)]
mod wires;
