//! Calls of units and of the outside that no command makes.
//!
//! Each is made once, with memory at hand and an answer from outside: units are cut and joined, and
//! a board in memory tells what was sent.
#![tactic(auto)]

#[cfg(test)]
mod units;
#[cfg(test)]
mod world;
