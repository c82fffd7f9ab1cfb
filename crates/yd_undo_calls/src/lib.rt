//! Calls of `yd_undo` where others change the same meanwhile.
//!
//! A script is one client's, so no case of a script has this. What is judged is worked by hand.
#![tactic(auto)]

#[cfg(test)]
mod meanwhile;
