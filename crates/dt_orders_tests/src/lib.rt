//! Tests of orders: worked runs of a server and of a client.
#![tactic(auto)]

#[cfg(test)]
mod client;
#[cfg(test)]
mod client_runs;
#[cfg(test)]
mod server;
#[cfg(test)]
mod server_runs;
