//! Updates that are cut or measured while they are read, so that none is kept.
//!
//! [`Reach`] takes updates, and keeps no more of them than the ids of their structs. It tells how
//! far their merge reaches. [`cut_v1`] answers what an update in V1 has from a state vector on, in
//! V1, by a [`BlockWriter`], which writes the blocks of an update struct by struct.
//!
//! ```rust
//! let mut reach = Reach::new(alloc);
//! reach.take_v1(alloc, bytes)?;
//! let vector = reach.vector(alloc)?;
//! let news = cut_v1(alloc, other, &vector)?;
//! ```
#![tactic(auto)]

mod block_writing;
mod clocks;
mod cutter;
mod cutting;
mod group_writing;
mod noting;
mod parting;
mod reaching;
mod tails;

pub use block_writing::BlockWriter;
pub use cutting::cut_v1;
pub use reaching::Reach;
