//! The order of a list, told by the first and the last units of its pieces.
//!
//! A piece is a part of a stretch that no origin of another unit parts. Where the order is strict,
//! the units of a piece stand in it one directly behind another, so a list is compared in the time
//! and memory of its pieces, however many units they have ([`compare_firsts`]).
//!
//! ```rust
//! let firsts = compare_firsts(alloc, &stretches)?;
//! ```
#![tactic(auto)]

mod collapsing;
mod comparing;
mod cutting;
mod fault;

pub use comparing::{Firsts, compare_firsts};
pub use fault::NoMemory;
