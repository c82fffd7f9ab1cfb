//! Calls of `yd_machines` and `yd_aware` that no command makes: a client that has a state of its own,
//! one that is edited, and a table without a replica.
//!
//! The commands `serve` and `sync` have none of these. What is judged is bytes of y-protocols, and
//! what it keeps of a state that is dropped.
#![tactic(auto)]

#[cfg(test)]
mod lending;
#[cfg(test)]
mod sending;
#[cfg(test)]
mod stating;
#[cfg(test)]
mod table;
