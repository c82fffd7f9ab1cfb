//! What is shown of a document: a parent as text, delta, list, map or tree, with the types that lie in it.
//!
//! There are definitions and laws, and no code: whoever shows a document cites `specs/`. What is
//! shown is a plain value of `yd_any`, so it is printed as every value is. Each law is the contract
//! of an empty function ([`law`]), and [`example`] has small documents that the checker computes.
//!
//! ```rust
//! law::views_converge();
//! ```
#![tactic(auto)]

pub mod example;
pub mod law;
