//! What was received: runs, and of each the units that were taken, since their ids were new.
//!
//! Taking in an update gives what `yd_ops` defines: operations with new ids are added, what says
//! less lowers what was there to deleted or gone, and a half whose partner is not there is U+FFFD
//! ([`Received::take`]). What is kept are entries in the order of writing (`yd_entries`), so an id
//! is found by bisection ([`Received::entry_of`], [`Received::entry_at`]). Where an update lowers
//! nothing, what was held stays as it was; where it lowers something all units stay at their
//! places, and the contents of what was lowered stay in their runs. All can be let wait, to be held
//! anew ([`Received::wait_all`]). A text that goes on where another ends joins it, and no operation
//! changes ([`Received::join`]). A call that finds no memory has changed nothing.
//!
//! ```rust
//! let mut received = Received::new(alloc);
//! let brought = received.take(&update)?;
//! ```
#![tactic(auto)]

mod brought;
mod received;
mod restoring;
mod structs;
mod updates;

pub use brought::Brought;
pub use received::Received;
pub use yd_entries::{Entries, Entry, NoMemory, Place};
