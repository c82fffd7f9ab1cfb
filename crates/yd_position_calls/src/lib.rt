//! Calls of `yd_position`: positions read from bytes that were worked by hand, and written.
#![tactic(auto)]

#[cfg(test)]
mod bytes;
