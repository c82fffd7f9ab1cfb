//! What is told of updates: how much of them is held, waits and is deleted, and whether they keep
//! what convergence and placement ask for.
//!
//! The numbers are those that the received operations and deletions define, in whatever order they
//! came; where an id breaks the edit rules, the deleted units are those of the replica's own document
//! ([`count`]). Beside them stand the smallest id on which the updates disagree, and the smallest one
//! that breaks these rules ([`check`]). Updates that agree and are the same changes are told alike
//! ([`law`]). No unit is walked to be counted.
//!
//! ```rust
//! let found = check(alloc, updates)?;
//! if found.disagreement.is_none() {
//!     // The updates agree.
//! }
//! ```
#![tactic(auto)]

mod checking;
mod counts;
pub mod example;
mod fault;
pub mod law;
mod lists;

pub use checking::{Findings, check};
pub use counts::{Counts, count};
pub use fault::NoMemory;
