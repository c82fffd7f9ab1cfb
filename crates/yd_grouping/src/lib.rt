//! Grouping: the one update that has given operations and deletions and is grouped, and what is
//! made with it: merges, cuts and replies.
//!
//! There are definitions and laws, and no code. Which operations stand in one struct and which of
//! them join (`specs/Groups.antt`), the grouped update (`specs/Grouped.antt`) and what can be
//! grouped (`specs/Groupable.antt`), how it is built (`specs/Building.antt`), merges, cuts and
//! replies (`specs/Merged.antt`), the reach of an update (`specs/Reach.antt`), and the smallest id
//! on which updates disagree (`specs/Disagreement.antt`). Each law is the contract of an empty
//! function ([`law`]), and [`example`] has small updates that the checker computes.
//!
//! ```rust
//! law::grouping_keeps();
//! ```
#![tactic(auto)]

pub mod example;
pub mod law;
