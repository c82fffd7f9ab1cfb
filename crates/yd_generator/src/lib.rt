//! What a generator makes: edits of one text by three clients, drawn from a number, and the replies
//! that they pass to one another.
//!
//! There are definitions, the draws and a law; no code makes the edits yet. For each number of steps
//! below 2^53 no edit is refused, and the three replicas end equal ([`law`]).
//!
//! ```rust
//! let draws = draws_from(1);
//! law::generations_converge();
//! ```
#![tactic(auto)]

mod draws;
pub mod law;

pub use draws::{Draws, draws_from};
