//! The lists of a store by their names, lent run by run.
//!
//! What is told is said of each document that the store tells: its lists are those of the store, and
//! its deleted ids those that are marked (`specs/Listing.antt`). A list is found in a look-up by a
//! hash. Reading takes a few loads a run, from either end, and no memory.
//!
//! ```rust
//! let mut view = list(&kept, &name);
//! while let Some(run) = view.next() {
//!     shown.take(run.content, run.deleted)?;
//! }
//! let last = last_of(&kept, &name);
//! ```
//!
//! Which ids become deleted when more is held or named is answered by spans
//! ([`deletions_besides`], `specs/Falling.antt`): the work is that of what came and of what falls, and
//! not of what is known. With it all is deleted that must be, and nothing else ([`law`]).
#![tactic(auto)]

mod arriving;
mod came;
mod closing;
mod dropping;
mod ends;
mod last;
pub mod law;
mod lent;
mod listing;
mod naming;
mod outliving;
mod own;
mod queue;
mod row;
mod spans;
mod standing;
mod walking;

pub use came::Came;
pub use dropping::deletions_besides;
pub use ends::last_run;
pub use last::last_of;
pub use lent::LentRun;
pub use listing::{ListView, list, list_around, list_at, list_from, own_list};
pub use walking::{ListWalk, walk};
pub use yd_ops::NoMemory;
