//! Calls of values and their codec that no command makes: any-values printed, copies, updates made
//! by hand, logs and state vectors.
//!
//! What `read_v1`, `write_v1`, `read_v2` and `write_v2` answer, and with them each call of the crates
//! below, stands in the cases of `yd_cases`. Here the other calls are seen to answer where memory is
//! there; the bytes are worked by hand or are those that Yjs writes.
#![tactic(auto)]

#[cfg(test)]
mod cutting;
#[cfg(test)]
mod logs;
#[cfg(test)]
mod samples;
#[cfg(test)]
mod updates;
#[cfg(test)]
mod values;
#[cfg(test)]
mod vectors;
