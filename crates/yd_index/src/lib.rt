//! The index of an arena: of each client, which run begins at which clock, and where it stands.
//!
//! The runs of a client fill its clocks from 0 to the next one, without a gap. So an id is found by a
//! bisection, and it is found exactly where its clock is below the next one ([`law`]). Entries for so
//! many runs can be reserved, and then the next runs go in without memory.
//!
//! ```rust
//! let mut index = Index::new(alloc);
//! index.add(Client(1), 0, 3)?;
//! assert_eq!(rt; index.next(Client(1)), 3);
//! ```
#![tactic(auto)]

mod finding;
mod index;
pub mod law;
mod line;
mod lines;

pub use index::Index;
pub use line::Entry;
