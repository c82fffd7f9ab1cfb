//! Calls of `yd_merge` and `yd_agreement` once each: updates are merged and cut, how far they reach
//! is told, and where they disagree.
//!
//! What is merged or cut and what comes of it are bytes in V1, worked by hand.
#![tactic(auto)]

#[cfg(test)]
mod agreeing;
#[cfg(test)]
mod cutting;
#[cfg(test)]
mod merging;
