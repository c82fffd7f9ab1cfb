//! The store: the runs that are held, with what they hold, in the order of their lists.
//!
//! A store is an arena of runs, and beside it by place the marks of deletion and what the runs
//! hold. Lists have numbers, in the order in which they were added. An id is found by a bisection;
//! reading a list follows links and copies nothing. `reserve` takes memory ahead, and then the next
//! runs of a client go in without any. What is typed letter by letter comes as a run for each letter,
//! and `join_last` joins the last one to the run before it. A call that finds no memory changes no
//! unit, no order and no mark; one that cuts runs first may have cut them.
//!
//! ```rust
//! let mut store = Store::new(alloc);
//! let list = store.add_list()?;
//! let place = store.add_run(run, list, None)?;
//! store.split(Id { client, clock: 2 })?;
//! store.mark_deleted(Span { client, clock: 0, len: 2 });
//! assert!(rt; store.is_deleted(place));
//! ```
#![tactic(auto)]

mod contents;
mod counted;
mod cutting;
mod deleting;
mod fault;
mod halves;
mod integrating;
mod joining;
pub mod law;
mod level;
mod lowering;
mod parting;
mod parts;
mod rights;
mod store;
mod taking;

pub use contents::Contents;
pub use fault::Unplaced;
pub use halves::Torn;
pub use level::Level;
pub use store::Store;
