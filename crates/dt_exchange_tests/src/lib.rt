//! Tests of what endpoints exchange, in rows: two endpoints and what goes between them, the answers of each call, the
//! pieces that make messages whole, and an inbox over two endpoints; of request and reply, what a node keeps beside its
//! endpoint, and services over their endpoints. Each call that takes memory finds it, where there is some.
#![tactic(auto)]

#[cfg(test)]
mod answers;
#[cfg(test)]
mod call_books;
#[cfg(test)]
mod calls;
#[cfg(test)]
mod exchange;
#[cfg(test)]
mod fixtures;
#[cfg(test)]
mod inboxes;
#[cfg(test)]
mod long_payloads;
#[cfg(test)]
mod pairs;
#[cfg(test)]
mod pieces;
#[cfg(test)]
mod routes;
#[cfg(test)]
mod services;
