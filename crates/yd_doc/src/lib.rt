//! A replica: what one client received, and the document that it has of that.
//!
//! What it tells is read of its own document ([`Replica`]). Where the edit rules are kept, this is the
//! document that the operations and deletions that it received define (`yd_meaning`), in whatever
//! order and however often they came ([`law`], [`edit_law`]). An `apply` that finds no memory has
//! received nothing: the replica tells what it told before, and that it is behind.
//!
//! ```rust
//! let mut replica = Replica::new(alloc, Client(1))?;
//! let brings = replica.apply(&update)?;
//! let units = replica.list(&list);
//! ```
#![tactic(auto)]

mod asking;
pub mod edit_law;
mod editing;
mod fault;
mod indexing;
mod keys;
pub mod law;
mod listing;
mod opening;
mod parents;
mod replica;
mod waiting;

pub use fault::NoMemory;
pub use indexing::counted_len;
pub use parents::ParentLists;
pub use replica::Replica;
pub use waiting::Waiting;
pub use yd_making::{EditFault, Step, StepList};
pub use yd_state::{ListView, RunView};
