//! Edits: the steps of an edit, when it is refused, what it makes, and what stands afterwards.
//!
//! There are definitions and laws, and no code: whoever carries out edits cites `specs/`. Each law
//! is the contract of an empty function ([`law`]), and [`example`] has small edits that the checker
//! computes.
//!
//! ```rust
//! law::made_runs_stand();
//! ```
#![tactic(auto)]

pub mod example;
pub mod law;
