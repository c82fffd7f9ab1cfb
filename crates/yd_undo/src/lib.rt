//! Undo and redo of one's own edits.
//!
//! [`Undo`] keeps an entry for each update that is noted: the ids that it inserted, and those that it
//! deleted outside what was noted before. What an undo removes and makes again, and where, is said by
//! `specs/Steps.antt` and `specs/Remade.antt`: it removes nothing that its entry did not insert
//! ([`law`]).
//!
//! ```rust
//! let mut undo = Undo::new(alloc, 100);
//! undo.note(&update)?;
//! let undone = undo.undo(&mut replica)?;
//! let again = undo.redo(&mut replica)?;
//! ```
#![tactic(auto)]

mod entry;
mod keys;
pub mod law;
mod remaking;
mod stacks;
mod steps;
mod turn;

pub use entry::Entry;
pub use stacks::Undo;
pub use steps::undo_steps;
pub use yd_making::NoMemory;
